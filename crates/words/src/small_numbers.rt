//! Numbers up to 65,535, alone and in addresses, and durations up to 2,147,483,647 ms.

ghost use Rattle.std.specs.Prelude.{◌≡◌};
ghost use Rattle.words.specs.Numbers.{duration_up_to, number_up_to};

use crate::durations::duration_up_to;
use crate::numbers::number_up_to;

/// A number up to 65,535.
pub fn small_number(word: &[u8]) -> Option<u16>
    ensures { result ≡ number_up_to 65535 word.now }
{
    match number_up_to(word, 65_535) {
        Some(number) => u16::try_from(number).ok(),
        None => None,
    }
}

/// How many milliseconds a duration up to 2,147,483,647 ms is.
pub fn small_duration(word: &[u8]) -> Option<u32>
    ensures { result ≡ duration_up_to 2147483647 word.now }
{
    match duration_up_to(word, 2_147_483_647) {
        Some(milliseconds) => u32::try_from(milliseconds).ok(),
        None => None,
    }
}
