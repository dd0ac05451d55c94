//! What stands above symbols and boxes: the words that name them, and those that name nothing.

ghost use Rattle.std.specs.Prelude.{MatchOption, IfNone, IfSome, IsFalse, option_copied, find, min, ◌≡◌, ◌-◌, ◌<◌, ◌≤◌, ◌^◌, IfOk, IsTrue, count_by, length};
ghost use Rattle.std.specs.List.{list_any};
ghost use Rattle.ladder_text.specs.Places.{layout_of};
ghost use Rattle.ladder_text.specs.Names.{things, overlap, word_text, found_text, name_above};
ghost use Rattle.ladder_text.specs.Faults.{has_earlier, is_second, stray_name, name_missing, has_unnamed, has_stray_word};
ghost use Rattle.ladder_text.specs.Steps.Search.{AreNamed, IsFirstStrayWord, IsFirstUnnamed};
ghost use Rattle.ladder_text.specs.Steps.Pairs.{span_at, AreApart, StandAbove, are_names};
ghost use Rattle.std.specs.Str.{IsAscii};

use crate::names::pairs::are_paired;
use crate::names::span::overlap;
use crate::names::worded_grid::WordedGrid;
use ladder_rows::Span;
use std::alloc::{AllocError, Global};
use words::{Text, is_name, is_plain_name};

fn has_earlier(word: &Span, words: &[Span], thing: &Span) -> bool
    ensures { result ≡ has_earlier word.now words.now thing.now }
{
    words
        .iter()
        .any(|other| overlap(other, thing) && other.first < word.first)
}

/// Whether some thing that the word overlaps has a word before it.
fn is_second(word: &Span, words: &[Span], things: &[Span]) -> bool
    ensures { result ≡ is_second word.now words.now things.now }
{
    things.iter().any(|thing| overlap(word, thing) && has_earlier(word, words, thing))
}

fn overlaps_any(word: &Span, things: &[Span]) -> bool
    ensures { result ≡ list_any (overlap word.now) things.now }
{
    things.iter().any(|thing| overlap(word, thing))
}

fn count_overlaps(word: &Span, things: &[Span]) -> usize
    ensures count { result ≡ count_by (overlap word.now) things.now }
    ensures few { result ≤ length things.now }
{
    things.iter().filter(|thing| overlap(word, thing)).count()
}

/// What words name in a row: its symbols and the boxes that begin there.
#[tactic(auto, unfolding(crate::specs::Names::things))]
fn things(alloc: Global, worded: &WordedGrid, row: usize) -> Result<Vec<Span>, AllocError>
    ensures { IfOk result (λ v. v.items ≡ things (layout_of worded.now) row) }
{
    let mut things = Vec::new(alloc);
    things.extend_from_slice(worded.symbols(row))?;
    let tops = worded.marked().tops(alloc, row)?;
    things.extend_from_slice(&tops)?;
    Ok(things)
}

/// The text of a word.
#[tactic(auto, unfolding(crate::specs::Places::layout_of))]
fn word_text<'a>(worded: &'a WordedGrid, row: usize, word: &Span) -> &'a [u8]
    ensures value { result.now ≡ word_text (layout_of worded.now) row word.now }
    ensures ascii { IsAscii result.now }
{
    worded.marked().grid().cut(row, word.first, word.end)
}

/// What the words of a row may name in the row below it.
#[derive(Drop)]
struct Named {
    tops: Vec<Span>,
    things: Vec<Span>,
}

fn named_below(alloc: Global, worded: &WordedGrid, row: usize) -> Result<Named, AllocError>
    requires { row < 2 ^ 62 }
    ensures { IfOk result (λ n. AreNamed (layout_of worded.now) row n.tops.items n.things.items) }
{
    Ok(Named {
        tops: worded.marked().tops(alloc, row + 1)?,
        things: things(alloc, worded, row + 1)?,
    })
}

/// Whether a word of a row is stray.
#[tactic(auto, unfolding(crate::specs::Faults::stray_name))]
fn is_stray(worded: &WordedGrid, row: usize, word: &Span, named: &Named) -> bool
    requires row { row < 2 ^ 62 }
    requires named { AreNamed (layout_of worded.now) row named.now.tops.items named.now.things.items }
    ensures { result ≡ stray_name (layout_of worded.now) row word.now }
{
    let text = word_text(worded, row, word);
    count_overlaps(word, &named.things) != 1
        || is_second(word, worded.words(row), &named.things)
        || (!is_name(text) && overlaps_any(word, worded.symbols(row + 1)))
        || (!is_plain_name(text) && overlaps_any(word, &named.tops))
}

/// Whether the words of a row stand above the symbols of the next one, one above each, and no box begins there.
fn stand_above(alloc: Global, worded: &WordedGrid, row: usize) -> Result<bool, AllocError>
    requires { row < 2 ^ 62 }
    ensures { IfOk result (λ above. IsTrue above → StandAbove (layout_of worded.now) row) }
{
    let tops = worded.marked().tops(alloc, row + 1)?;
    Ok(tops.is_empty() && are_paired(worded.words(row), worded.symbols(row + 1)))
}

/// Whether the words of a row are all names.
#[tactic(auto, unfolding(crate::specs::Places::layout_of))]
fn are_names(worded: &WordedGrid, row: usize) -> bool
    ensures { result ≡ are_names (layout_of worded.now) row }
{
    worded
        .words(row)
        .iter()
        .all(|word| is_name(word_text(worded, row, word)))
}

/// The first column of a word of a row that is stray.
pub fn stray_in_row(
    alloc: Global,
    worded: &WordedGrid,
    row: usize,
) -> Result<Option<usize>, AllocError>
    requires { row < 2 ^ 62 }
    ensures none { IfOk result (λ found. IfNone found (IsFalse (has_stray_word (layout_of worded.now) row))) }
    ensures some { IfOk result (λ found. IfSome found (λ _. IsTrue (has_stray_word (layout_of worded.now) row))) }
    ensures first { IfOk result (λ found. IsFirstStrayWord (layout_of worded.now) row found) }
{
    let above = stand_above(alloc, worded, row)?;
    if above && are_names(worded, row) {
        return Ok(None);
    }
    let named = named_below(alloc, worded, row)?;
    for word in worded.words(row) {
        if is_stray(worded, row, word, &named) {
            return Ok(Some(word.first));
        }
    }
    Ok(None)
}

#[tactic(auto, unfolding(crate::specs::Faults::name_missing))]
fn is_unnamed(worded: &WordedGrid, row: usize, thing: &Span) -> bool
    ensures { result ≡ name_missing (layout_of worded.now) row thing.now }
{
    !overlaps_any(thing, worded.words(row.saturating_sub(1)))
}

/// The first column of a symbol or box of a row that has no name.
pub fn unnamed_in_row(
    alloc: Global,
    worded: &WordedGrid,
    row: usize,
) -> Result<Option<usize>, AllocError>
    requires { row < 2 ^ 62 }
    ensures none { IfOk result (λ found. IfNone found (IsFalse (has_unnamed (layout_of worded.now) row))) }
    ensures some { IfOk result (λ found. IfSome found (λ _. IsTrue (has_unnamed (layout_of worded.now) row))) }
    ensures first { IfOk result (λ found. IsFirstUnnamed (layout_of worded.now) row found) }
{
    if row > 0 {
        let above = stand_above(alloc, worded, row - 1)?;
        if above {
            return Ok(None);
        }
    }
    let here = things(alloc, worded, row)?;
    let mut first = None;
    for thing in &here {
        if is_unnamed(worded, row, thing) {
            first = Some(least(first, thing.first));
        }
    }
    Ok(first)
}

fn least(found: Option<usize>, column: usize) -> usize
    ensures { MatchOption found (result ≡ column) (λ other. result ≡ min column other) }
{
    found.map_or(column, |other| column.min(other))
}

fn find_overlap<'a>(span: &Span, above: &'a [Span]) -> Option<&'a Span>
    ensures { option_copied result ≡ find (overlap span.now) above.now }
{
    above.iter().find(|word| overlap(span, word))
}

fn first_overlap(span: &Span, above: &[Span]) -> Option<Span>
    ensures { result ≡ find (overlap span.now) above.now }
{
    find_overlap(span, above).copied()
}

/// Whether the span before a number ends before another span.
fn is_free_before(span: &Span, above: &[Span], near: usize) -> bool
    requires { near < length above.now }
    ensures { IsTrue result → 0 < near → (span_at above.now (near - 1)).end ≤ span.now.first }
{
    near == 0 || above[near - 1].end <= span.first
}

/// The first word above a span, looked for at a number first. Words stand one behind the other.
fn overlap_near(span: &Span, above: &[Span], near: usize) -> Option<Span>
    requires { AreApart above.now }
    ensures { result ≡ find (overlap span.now) above.now }
{
    if near < above.len() && overlap(span, &above[near]) && is_free_before(span, above, near) {
        return Some(above[near]);
    }
    first_overlap(span, above)
}

fn found_text(worded: &WordedGrid, row: usize, found: Option<Span>) -> &[u8]
    ensures value { result.now ≡ found_text (layout_of worded.now) row found }
    ensures ascii { IsAscii result.now }
{
    match found {
        Some(word) => word_text(worded, row, &word),
        None => &[],
    }
}

/// The name of what stands at a span of a row. The word with the number `near` is looked at first.
#[tactic(auto, unfolding(crate::specs::Names::name_above))]
pub fn name_above(
    alloc: Global,
    worded: &WordedGrid,
    row: usize,
    span: &Span,
    near: usize,
) -> Result<Text, AllocError>
    ensures { IfOk result (λ t. t ≡ name_above (layout_of worded.now) row span.now) }
{
    let above = row.saturating_sub(1);
    let found = overlap_near(span, worded.words(above), near);
    Text::from_ascii(alloc, found_text(worded, above, found))
}
