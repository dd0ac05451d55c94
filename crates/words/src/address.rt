ghost use Rattle.std.specs.Prelude.{◌≡◌};
ghost use Rattle.words.specs.Addresses.{address_space, address};

use crate::small_numbers::small_number;

/// What a field address counts: bits or words. The two do not overlap.
#[derive(Clone, Copy, Debug, PartialEq, Eq)]
pub enum Space {
    /// `%IX`: BOOL.
    Bit,
    /// `%IW`: INT.
    Word,
}

impl Space {
    /// `%IX` or `%IW`, in either case.
    #[tactic(auto, unfolding(crate::specs::Addresses::address_space))]
    fn of_word(word: &[u8]) -> Option<Space>
        ensures { result ≡ address_space word.now }
    {
        let front = &word[..word.len().min(3)];
        if front.eq_ignore_ascii_case(b"%IX") {
            Some(Space::Bit)
        } else if front.eq_ignore_ascii_case(b"%IW") {
            Some(Space::Word)
        } else {
            None
        }
    }
}

/// A field address, such as `%IX0` or `%IW2`.
#[derive(Clone, Copy, Debug, PartialEq, Eq)]
pub struct Address {
    pub space: Space,
    pub number: u16,
}

impl Address {
    /// The address that a word is: `%IX` or `%IW`, in either case, and a number up to 65,535.
    #[tactic(auto, unfolding(crate::specs::Addresses::address))]
    pub fn of_word(word: &[u8]) -> Option<Address>
        ensures { result ≡ address word.now }
    {
        let space = Space::of_word(word)?;
        let number = small_number(&word[word.len().min(3)..])?;
        Some(Address { space, number })
    }
}
