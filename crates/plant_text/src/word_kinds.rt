//! What single words are: keywords, block types, punctuation, numbers, durations, addresses, names.

ghost use Rattle.std.specs.Prelude.{◌≡◌, IfOk, unwrap_or};
ghost use Rattle.plant_text.specs.declared.token.Token.TheVariants as token;
ghost use Rattle.plant_text.specs.Words.{program_keyword, configuration_keyword, task_keyword, keyword, punctuation, fixed_word, value_word, name, word_of};

use crate::token::{Keyword, Punctuation, Token};
use std::alloc::{AllocError, Global};
use words::{Address, Text, block_type, is_plain_name, small_duration, small_number};

#[tactic(auto, unfolding(crate::specs::Words::program_keyword))]
fn program_keyword(word: &[u8]) -> Option<Keyword>
    ensures { result ≡ program_keyword word.now }
{
    if word.eq_ignore_ascii_case(b"PROGRAM") {
        Some(Keyword::Program)
    } else if word.eq_ignore_ascii_case(b"END_PROGRAM") {
        Some(Keyword::EndProgram)
    } else if word.eq_ignore_ascii_case(b"VAR") {
        Some(Keyword::Var)
    } else if word.eq_ignore_ascii_case(b"VAR_INPUT") {
        Some(Keyword::VarInput)
    } else if word.eq_ignore_ascii_case(b"VAR_OUTPUT") {
        Some(Keyword::VarOutput)
    } else if word.eq_ignore_ascii_case(b"RETAIN") {
        Some(Keyword::Retain)
    } else if word.eq_ignore_ascii_case(b"END_VAR") {
        Some(Keyword::EndVar)
    } else {
        None
    }
}

#[tactic(auto, unfolding(crate::specs::Words::configuration_keyword))]
fn configuration_keyword(word: &[u8]) -> Option<Keyword>
    ensures { result ≡ configuration_keyword word.now }
{
    if word.eq_ignore_ascii_case(b"CONFIGURATION") {
        Some(Keyword::Configuration)
    } else if word.eq_ignore_ascii_case(b"END_CONFIGURATION") {
        Some(Keyword::EndConfiguration)
    } else if word.eq_ignore_ascii_case(b"RESOURCE") {
        Some(Keyword::Resource)
    } else if word.eq_ignore_ascii_case(b"END_RESOURCE") {
        Some(Keyword::EndResource)
    } else if word.eq_ignore_ascii_case(b"ON") {
        Some(Keyword::On)
    } else {
        None
    }
}

#[tactic(auto, unfolding(crate::specs::Words::task_keyword))]
fn task_keyword(word: &[u8]) -> Option<Keyword>
    ensures { result ≡ task_keyword word.now }
{
    if word.eq_ignore_ascii_case(b"TASK") {
        Some(Keyword::Task)
    } else if word.eq_ignore_ascii_case(b"WITH") {
        Some(Keyword::With)
    } else if word.eq_ignore_ascii_case(b"INTERVAL") {
        Some(Keyword::Interval)
    } else if word.eq_ignore_ascii_case(b"PRIORITY") {
        Some(Keyword::Priority)
    } else if word.eq_ignore_ascii_case(b"BOOL") {
        Some(Keyword::Bool)
    } else if word.eq_ignore_ascii_case(b"INT") {
        Some(Keyword::Int)
    } else if word.eq_ignore_ascii_case(b"TIME") {
        Some(Keyword::Time)
    } else {
        None
    }
}

/// The keyword that a word is, in either case.
#[tactic(auto, unfolding(crate::specs::Words::keyword))]
pub fn keyword(word: &[u8]) -> Option<Keyword>
    ensures { result ≡ keyword word.now }
{
    if let Some(found) = program_keyword(word) {
        return Some(found);
    }
    if let Some(found) = configuration_keyword(word) {
        return Some(found);
    }
    task_keyword(word)
}

/// The mark that a word is.
#[tactic(auto, unfolding(crate::specs::Words::punctuation))]
fn punctuation(word: &[u8]) -> Option<Punctuation>
    ensures { result ≡ punctuation word.now }
{
    if word.eq_ignore_ascii_case(b"(") {
        Some(Punctuation::Open)
    } else if word.eq_ignore_ascii_case(b")") {
        Some(Punctuation::Close)
    } else if word.eq_ignore_ascii_case(b":") {
        Some(Punctuation::Colon)
    } else if word.eq_ignore_ascii_case(b";") {
        Some(Punctuation::Semicolon)
    } else if word.eq_ignore_ascii_case(b",") {
        Some(Punctuation::Comma)
    } else if word.eq_ignore_ascii_case(b".") {
        Some(Punctuation::Dot)
    } else if word.eq_ignore_ascii_case(b":=") {
        Some(Punctuation::Assign)
    } else {
        None
    }
}

/// What a word is, if it is fixed: a keyword, a block type or a mark.
#[tactic(auto, unfolding(crate::specs::Words::fixed_word))]
fn fixed_word(word: &[u8]) -> Option<Token>
    ensures { result ≡ fixed_word word.now }
{
    if let Some(found) = keyword(word) {
        return Some(Token::Keyword(found));
    }
    if let Some(found) = block_type(word) {
        return Some(Token::Block(found));
    }
    match punctuation(word) {
        Some(found) => Some(Token::Punctuation(found)),
        None => None,
    }
}

/// What a word is, if it is a value: a number, a duration or an address.
#[tactic(auto, unfolding(crate::specs::Words::value_word))]
fn value_word(word: &[u8]) -> Option<Token>
    ensures { result ≡ value_word word.now }
{
    if let Some(found) = small_number(word) {
        return Some(Token::Number(found));
    }
    if let Some(found) = small_duration(word) {
        return Some(Token::Duration(found));
    }
    match Address::of_word(word) {
        Some(found) => Some(Token::Address(found)),
        None => None,
    }
}

/// A name, or what is no word.
#[tactic(auto, using(crate::proofs::SingleWords::name_utf8), unfolding(crate::specs::Words::name))]
fn name_word(alloc: Global, word: &[u8]) -> Result<Token, AllocError>
    ensures { IfOk result (λ t. t ≡ unwrap_or (name word.now) token.Unknown) }
{
    if !is_plain_name(word) {
        return Ok(Token::Unknown);
    }
    match str::from_utf8(word) {
        Ok(name) => Ok(Token::Name(Text::new(alloc, name)?)),
        Err(_) => Ok(Token::Unknown),
    }
}

/// What a word is, in either case. `Unknown`: it is none, or it is out of its limits.
#[tactic(auto, unfolding(crate::specs::Words::word_of))]
pub fn word_of(alloc: Global, word: &[u8]) -> Result<Token, AllocError>
    ensures { IfOk result (λ t. t ≡ word_of word.now) }
{
    if let Some(found) = fixed_word(word) {
        return Ok(found);
    }
    if let Some(found) = value_word(word) {
        return Ok(found);
    }
    name_word(alloc, word)
}
