ghost use Rattle.std.specs.Prelude.{◌≡◌, ◌<◌, ◌++◌, ◌+◌, ◌-◌, [], ◌∷◌, OnOk, IfOk, codes, length, map, slice_get, string_bytes};
ghost use Rattle.std.specs.List.{repeat};
ghost use Rattle.std.specs.Option.{option_map};
ghost use Rattle.std.specs.Str.Lines.{lines};
ghost use Rattle.std.specs.Str.{chars, trim_start, trim_end};
ghost use Rattle.words.specs.Lines.{without_last};
ghost use Rattle.guidance.specs.Excerpts.{column_among, ended_lines, excerpt_of, hidden_before, indented, left_of, line_among, line_in, marked_column, marked_line, marked_at, right_of, shown_part, shown_sign, whole_among};

use std::alloc::{AllocError, Global};

/// How many signs of a line are shown at most.
const WIDTH: usize = 100;
/// How many signs of a long line are shown left of the place.
const BEFORE: usize = 60;

/// A part of a line that is pointed at, by its signs from 0.
#[derive(Clone, Copy)]
struct Place {
    at: usize,
    signs: usize,
}

/// How a sign is shown: a tab as a blank, and what isn't printable ASCII as a question mark.
fn shown(sign: char) -> char
    ensures shown { result ≡ shown_sign sign }
    ensures ascii { result < 128 }
{
    if ' ' <= sign && sign <= '~' {
        sign
    } else if sign == '\t' {
        ' '
    } else {
        '?'
    }
}

/// How many signs of a line aren't shown in front of a place.
fn hidden_before(at: usize) -> usize
    ensures { result ≡ hidden_before at }
{
    if at < WIDTH { 0 } else { at - BEFORE }
}

/// What stands before the signs that are shown.
fn left_of(hidden: usize) -> &'static str
    ensures { result.now ≡ left_of hidden }
{
    if hidden == 0 { "  " } else { "  .. " }
}

/// How many signs a line has.
fn signs_of(line: &str) -> usize
    ensures { result ≡ length (chars line.now) }
{
    line.chars().count()
}

/// What stands behind them.
fn right_of(hidden: usize, line: &str) -> &'static str
    ensures { result.now ≡ right_of hidden line.now }
{
    if signs_of(line) > hidden.saturating_add(WIDTH) {
        " .."
    } else {
        ""
    }
}

/// Writes a sign as it is shown.
fn push_sign(text: &mut String, sign: char) -> Result<(), AllocError>
    ensures { OnOk result (string_bytes text.new ≡ string_bytes text.old ++ shown_sign sign ∷ []) }
{
    text.push(shown(sign))
}

/// Writes the signs that are shown.
fn push_part(text: &mut String, line: &str, hidden: usize) -> Result<(), AllocError>
    ensures { OnOk result (string_bytes text.new ≡ string_bytes text.old ++ shown_part hidden line.now) }
{
    for sign in line.chars().skip(hidden).take(WIDTH) {
        push_sign(text, sign)?;
    }
    Ok(())
}

/// Writes a line feed, and marks below what is shown.
fn push_marks(
    alloc: Global,
    text: &mut String,
    blanks: usize,
    marks: usize,
) -> Result<(), AllocError>
    ensures { OnOk result (string_bytes text.new ≡ string_bytes text.old ++ repeat blanks (codes " ") ++ repeat marks (codes "^")) }
{
    let blanks = " ".repeat(alloc, blanks)?;
    let carets = "^".repeat(alloc, marks)?;
    text.push_str(blanks.as_str())?;
    text.push_str(carets.as_str())
}

/// A line, with a mark below the place that is pointed at. Of a long line a part round the place is shown.
fn excerpt(alloc: Global, line: &str, place: Place) -> Result<String, AllocError>
    ensures { IfOk result (λ text. string_bytes text ≡ excerpt_of line.now place.at place.signs) }
{
    let hidden = hidden_before(place.at);
    let left = left_of(hidden);
    let before = place.at - hidden;
    let mut text = String::from_str(alloc, left)?;
    push_part(&mut text, line, hidden)?;
    text.push_str(right_of(hidden, line))?;
    text.push_str("\n")?;
    push_marks(
        alloc,
        &mut text,
        left.len() + before,
        place.signs.min(WIDTH.saturating_sub(before)).max(1),
    )?;
    text.push_str("\n")?;
    Ok(text)
}

/// The line of a text behind so many.
fn line_behind(text: &str, before: usize) -> Option<&str>
    ensures { option_map (λ line. line.now) result ≡ slice_get (lines text.now) before }
{
    text.lines().nth(before)
}

/// A line of a text by its number from 1, without what ends it; empty where there is none.
pub fn line_of(text: &str, number: u64) -> &str
    ensures { result.now ≡ line_in text.now number }
{
    match line_behind(text, number.saturating_sub(1) as usize) {
        Some(line) => line,
        None => "",
    }
}

/// How many blanks a line begins with.
fn indented(line: &str) -> usize
    ensures { result ≡ indented line.now }
{
    signs_of(line).saturating_sub(signs_of(line.trim_start()))
}

/// All of a line but the blanks at both ends.
fn whole_of(line: &str) -> Place
    ensures at { result.at ≡ indented line.now }
    ensures signs { result.signs ≡ length (chars (trim_end (trim_start line.now))) }
{
    Place {
        at: indented(line),
        signs: signs_of(line.trim_start().trim_end()),
    }
}

/// A part of a text between line feeds, without a carriage return at its end.
fn without_return(part: &str) -> &str
    ensures { result.now ≡ without_last 13 part.now }
{
    match part.strip_suffix('\r') {
        Some(line) => line,
        None => part,
    }
}

/// The lines of a text, each without a carriage return at its end.
pub fn ended_lines<'a>(alloc: Global, text: &'a str) -> Result<Vec<&'a str>, AllocError>
    ensures { IfOk result (λ found. map (λ line. line.now) found.items ≡ ended_lines text.now) }
{
    let mut found = Vec::new(alloc);
    for part in text.split('\n') {
        found.push(without_return(part))?;
    }
    Ok(found)
}

/// Of some lines the one with this number, from 1; empty where there is none.
fn line_among<'a>(lines: &[&'a str], number: u64) -> &'a str
    ensures { result.now ≡ line_among (map (λ line. line.now) lines.now) number }
{
    match lines.get(number.saturating_sub(1) as usize) {
        Some(line) => line,
        None => "",
    }
}

/// Of some lines the one with this number, with a mark below this column.
pub fn column_among(
    alloc: Global,
    lines: &[&str],
    line: u64,
    column: usize,
) -> Result<String, AllocError>
    ensures { IfOk result (λ shown. string_bytes shown ≡ column_among (map (λ line. line.now) lines.now) line column) }
{
    let at = column.saturating_sub(1);
    excerpt(alloc, line_among(lines, line), Place { at, signs: 1 })
}

/// Of some lines the one with this number, with marks below all of it but the blanks at both ends.
pub fn whole_among(alloc: Global, lines: &[&str], line: u64) -> Result<String, AllocError>
    ensures { IfOk result (λ shown. string_bytes shown ≡ whole_among (map (λ line. line.now) lines.now) line) }
{
    let shown = line_among(lines, line);
    excerpt(alloc, shown, whole_of(shown))
}

/// A line of a text, with a mark below this column.
pub fn marked_column(
    alloc: Global,
    text: &str,
    line: u64,
    column: usize,
) -> Result<String, AllocError>
    ensures { IfOk result (λ shown. string_bytes shown ≡ marked_column text.now line column) }
{
    column_among(alloc, &ended_lines(alloc, text)?, line, column)
}

/// A line of a text, with marks below all of it but the blanks at both ends.
pub fn marked_line(alloc: Global, text: &str, line: u64) -> Result<String, AllocError>
    ensures { IfOk result (λ shown. string_bytes shown ≡ marked_line text.now line) }
{
    whole_among(alloc, &ended_lines(alloc, text)?, line)
}
