//! Why a further file goes on from none that is given.

ghost use Rattle.std.specs.Prelude.{◌≡◌, IfOk, bytes_eq, map, string_bytes};
ghost use Rattle.std.specs.List.{position};
ghost use Rattle.journal_rows.specs.ContinuesLine.{begins_with};
ghost use Rattle.journal_rows.specs.LooseFiles.{behind_blank, cause_by_told, cause_of, digest_word, first_alike, first_told, loose_file};

use crate::digests::digest_of;
use crate::first_line::begins_with;
use std::alloc::{AllocError, Global};
use std::fmt::Write;

/// Why a further file is loose.
#[derive(Clone, Copy, Debug, PartialEq, Eq)]
pub enum LooseCause {
    /// The file at this place, given before it, has the same text.
    Again(usize),
    /// It tells of the file at this place as the one before it. That one is loose too, or another file goes on from it.
    Behind(usize),
    /// It tells of none that is given.
    Missing,
}

/// A further file that goes on from none that is given.
#[derive(Clone, Copy, Debug, PartialEq, Eq)]
pub struct LooseFile {
    /// Its place among those given.
    pub file: usize,
    pub cause: LooseCause,
}

/// What stands behind the first blank of a text.
fn behind_blank(text: &[u8]) -> &[u8]
    ensures { result.now ≡ behind_blank text.now }
{
    for place in 0..text.len() {
        if text[place] == b' ' {
            return text.split_at(place + 1).1;
        }
    }
    &[]
}

/// The digest of a text, as the first line of a file that goes on from it tells it.
fn digest_word(alloc: Global, text: &[u8]) -> Result<String, AllocError>
    ensures { IfOk result (λ word. string_bytes word ≡ digest_word text.now) }
{
    let mut word = String::new(alloc);
    let digest = digest_of(text);
    write!(word, "{digest} ")?;
    Ok(word)
}

/// The digests of texts.
fn digest_words(alloc: Global, texts: &[&[u8]]) -> Result<Vec<String>, AllocError>
    ensures { IfOk result (λ words. map string_bytes words.items ≡ map (λ t. digest_word t.now) texts.now) }
{
    let mut words = Vec::with_capacity(alloc, texts.len())?;
    for text in texts {
        words.push(digest_word(alloc, text)?)?;
    }
    Ok(words)
}

/// Whether two texts are the same.
fn is_same(text: &[u8], other: &[u8]) -> bool
    ensures { result ≡ bytes_eq text.now other.now }
{
    text == other
}

/// The first of the files with this text.
fn first_alike(texts: &[&[u8]], text: &[u8]) -> Option<usize>
    ensures { result ≡ first_alike texts.now text.now }
{
    texts.iter().position(|other| is_same(other, text))
}

/// The first of the words with which a text begins.
fn first_front(words: &[String], text: &[u8]) -> Option<usize>
    ensures { result ≡ position (λ w. begins_with (string_bytes w) text.now) words.now }
{
    words
        .iter()
        .position(|word| begins_with(word.as_bytes(), text))
}

/// The first of the files, by the digests of all, of which a text tells.
fn first_told(texts: &[&[u8]], words: &[String], text: &[u8]) -> Option<usize>
    requires { map string_bytes words.now ≡ map (λ t. digest_word t.now) texts.now }
    ensures { result ≡ first_told texts.now text.now }
{
    let told = behind_blank(behind_blank(text));
    first_front(words, told)
}

/// Why the file at this place is loose, by the digests of all.
fn cause_of(texts: &[&[u8]], words: &[String], file: usize) -> LooseCause
    requires { map string_bytes words.now ≡ map (λ t. digest_word t.now) texts.now }
    ensures { result ≡ cause_of texts.now file }
{
    let Some(text) = texts.get(file) else {
        return LooseCause::Missing;
    };
    match first_alike(texts, text) {
        Some(first) if first < file => LooseCause::Again(first),
        _ => match first_told(texts, words, text) {
            Some(before) => LooseCause::Behind(before),
            None => LooseCause::Missing,
        },
    }
}

/// Loose files with their causes.
pub(crate) fn explained(
    alloc: Global,
    texts: &[&[u8]],
    files: &[usize],
) -> Result<Vec<LooseFile>, AllocError>
    ensures { IfOk result (λ loose. loose.items ≡ map (loose_file texts.now) files.now) }
{
    let mut loose = Vec::new(alloc);
    if files.is_empty() {
        return Ok(loose);
    }
    let words = digest_words(alloc, texts)?;
    for file in files {
        let cause = cause_of(texts, words.as_slice(), *file);
        loose.push(LooseFile { file: *file, cause })?;
    }
    Ok(loose)
}
