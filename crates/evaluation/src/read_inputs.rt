//! Texts of field inputs.

ghost use Rattle.std.specs.Prelude.{◌≡◌, ◌+◌, ◌*◌, ◌↔◌, ◌≢◌, ◌≤◌, ◌++◌, IfOk, IfErr, OnOk, IsFalse, Some, map, slice_get, pos, ◌-ℤ◌};
ghost use Rattle.evaluation.specs.declared.field_input.FieldInput.{FieldInput};
ghost use Rattle.evaluation.specs.InputTexts.{words_of, bit_value, is_below_zero, value_below, value_above, word_value, input_at, sign_of, input_of, AreApart, AreInputs, IsFaultOfWords, IsRead, IsFaultOf};
ghost use Rattle.evaluation.specs.Steps.InputWords.{IsWordFault};

use crate::field_input::FieldInput;
use crate::input_fault::InputFault;
use crate::inputs::Inputs;
use std::alloc::{AllocError, Global};
use std::collections::BTreeSet;
use words::{Address, Space, number_up_to};

/// Puts the words of a text behind those that are there: what stands between blanks and tabs.
pub fn push_words<'a>(words: &mut Vec<&'a [u8]>, text: &'a [u8]) -> Result<(), AllocError>
    ensures { OnOk result (map (λ w. w.now) words.new.items ≡ map (λ w. w.now) words.old.items ++ words_of text.now) }
{
    for word in text.split(|c| *c == b' ' || *c == b'\t') {
        if !word.is_empty() {
            words.push(word)?;
        }
    }
    Ok(())
}

/// The words of a text.
fn words_of(alloc: Global, text: &[u8]) -> Result<Vec<&[u8]>, AllocError>
    ensures { IfOk result (λ v. map (λ w. w.now) v.items ≡ words_of text.now) }
{
    let mut words = Vec::new(alloc);
    push_words(&mut words, text)?;
    Ok(words)
}

/// The value of a bit: 0 or 1.
#[tactic(auto, unfolding(crate::specs::InputTexts::bit_value))]
fn bit_value(word: &[u8]) -> Option<bool>
    ensures { result ≡ bit_value word.now }
{
    match number_up_to(word, 1) {
        Some(number) => Some(number == 1),
        None => None,
    }
}

/// Whether a sign stands before a number.
fn is_below_zero(word: &[u8]) -> bool
    ensures { result ≡ is_below_zero word.now }
{
    match word {
        [first, ..] => *first == b'-',
        [] => false,
    }
}

/// A number behind a sign, down to -32,768.
#[tactic(auto, unfolding(words::specs::Numbers::number_up_to))]
fn value_below(digits: &[u8]) -> Option<i16>
    ensures { result ≡ value_below digits.now }
{
    match number_up_to(digits, 32_768) {
        Some(number) => Some((0 - number as i32) as i16),
        None => None,
    }
}

/// A number without a sign, up to 32,767.
#[tactic(auto, unfolding(words::specs::Numbers::number_up_to))]
fn value_above(digits: &[u8]) -> Option<i16>
    ensures { result ≡ value_above digits.now }
{
    match number_up_to(digits, 32_767) {
        Some(number) => Some(number as i16),
        None => None,
    }
}

/// The value of a word, from -32,768 to 32,767.
#[tactic(auto, unfolding(crate::specs::InputTexts::word_value))]
fn word_value(word: &[u8]) -> Option<i16>
    ensures { result ≡ word_value word.now }
{
    if is_below_zero(word) {
        value_below(&word[1..])
    } else {
        value_above(word)
    }
}

/// The input at an address with a value that is written.
fn input_at(address: Address, word: &[u8]) -> Option<FieldInput>
    ensures { result ≡ input_at address word.now }
{
    let number = address.number;
    match address.space {
        Space::Bit => match bit_value(word) {
            Some(value) => Some(FieldInput::Bit { number, value }),
            None => None,
        },
        Space::Word => match word_value(word) {
            Some(value) => Some(FieldInput::Word { number, value }),
            None => None,
        },
    }
}

/// Where the first `=` stands.
fn sign_of(word: &[u8]) -> Option<usize>
    ensures { result ≡ sign_of word.now }
{
    word.iter().position(|c| *c == b'=')
}

/// The input that a word is.
#[tactic(auto, unfolding(crate::specs::InputTexts::input_of))]
fn input_of(word: &[u8]) -> Option<FieldInput>
    ensures { result ≡ input_of word.now }
{
    let sign = sign_of(word)?;
    let address = Address::of_word(&word[..sign])?;
    input_at(address, &word[sign + 1..])
}

/// The inputs that the words are.
fn inputs_of(alloc: Global, words: &[&[u8]]) -> Result<Vec<FieldInput>, InputFault>
    ensures read { IfOk result (λ inputs. map input_of (map (λ w. w.now) words.now) ≡ map (λ i. Some i) inputs.items) }
    ensures fault { IfErr result (λ fault. IsWordFault (map (λ w. w.now) words.now) fault) }
{
    let mut inputs = Vec::new(alloc);
    for word in words {
        match input_of(word) {
            Some(input) => inputs.push(input)?,
            None => return Err(InputFault::Syntax),
        }
    }
    Ok(inputs)
}

/// Whether an address comes twice.
#[tactic(auto, using(crate::proofs::FieldInputs::few_apart))]
fn has_twice(alloc: Global, inputs: &[FieldInput]) -> Result<bool, AllocError>
    ensures { IfOk result (λ twice. IsFalse twice ↔ AreApart inputs.now) }
{
    if inputs.len() < 2 {
        return Ok(false);
    }
    let mut known = BTreeSet::new(alloc);
    for input in inputs {
        if !known.insert(input.key())? {
            return Ok(true);
        }
    }
    Ok(false)
}

impl Inputs {
    /// Reads these words, each an `ADDRESS=VALUE` such as `%IX0=1` and `%IW2=-7`. A bit is 0 or 1, a word from -32,768 to 32,767.
    /// Syntax: some word isn't one. Twice: each word is one, and an address comes twice.
    pub fn of_words(alloc: Global, words: &[&[u8]]) -> Result<Inputs, InputFault>
        ensures ok { IfOk result (λ inputs. AreInputs (map (λ w. w.now) words.now) inputs) }
        ensures fault { IfErr result (λ fault. IsFaultOfWords (map (λ w. w.now) words.now) fault) }
    {
        let inputs = inputs_of(alloc, words)?;
        if has_twice(alloc, inputs.as_slice())? {
            return Err(InputFault::Twice);
        }
        Ok(Inputs::of(alloc, inputs)?)
    }

    /// Reads words as [`Inputs::of_words`] does, parted by blanks or tabs.
    pub fn read(alloc: Global, text: &str) -> Result<Inputs, InputFault>
        ensures ok { IfOk result (λ inputs. IsRead text.now inputs) }
        ensures fault { IfErr result (λ fault. IsFaultOf text.now fault) }
    {
        let words = words_of(alloc, text.as_bytes())?;
        Inputs::of_words(alloc, words.as_slice())
    }
}
