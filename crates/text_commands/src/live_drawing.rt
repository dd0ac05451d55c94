ghost use Rattle.std.specs.Prelude.{◌≡◌, ◌-◌, OnOk, IfOk, drop, false, length, min, slice_get, slice_set, unwrap_or};
ghost use Rattle.words.specs.Lines.{without_last};
ghost use Rattle.text_lines.specs.Growing.{GrowsBy};
ghost use Rattle.text_commands.specs.LiveDrawing.{drawn_line, drawn_lines, line_text, live_drawing, live_lines, live_text, sign_text, with_element, with_power, with_sign};

use drawings::Place;
use network::Element;
use power_flow::Ladder;
use std::alloc::{AllocError, Global};
use std::marker::Model;

/// A sign of a drawing that is shown.
#[derive(Clone, Copy)]
pub enum Sign {
    /// As it stands in the text.
    Drawn(char),
    /// A wire that has power.
    LiveWire,
    /// A place of an upright that has power.
    LiveUpright,
}

/// A line of a drawing that is shown.
#[derive(Drop)]
pub struct Line {
    signs: Vec<Sign>,
}

impl Model for Line {
    ghost use Rattle.std.specs.Prelude.{List};
    ghost use Rattle.text_commands.specs.declared.live_drawing.Sign.{Sign};

    ghost Value = { List Sign };

    ghost view = { λ l. l.signs.items };
}

impl Line {
    /// A line as it stands in the text.
    fn drawn(alloc: Global, text: &str) -> Result<Line, AllocError>
        ensures { IfOk result (λ line. line ≡ drawn_line text.now) }
    {
        let mut signs = Vec::with_capacity(alloc, text.len())?;
        for sign in text.chars() {
            signs.push(Sign::Drawn(sign))?;
        }
        Ok(Line { signs })
    }

    /// Puts another sign in a column; columns count from 1.
    fn put(&mut self, column: usize, sign: Sign)
        ensures { self.new ≡ slice_set self.old (column - 1) sign }
    {
        let place = column.saturating_sub(1);
        if place < self.signs.len() {
            self.signs[place] = sign;
        }
    }
}

/// The text without the line feed at its end, which begins no further line.
pub(crate) fn without_feed(text: &str) -> &str
    ensures { result.now ≡ without_last 10 text.now }
{
    match text.strip_suffix('\n') {
        Some(front) => front,
        None => text,
    }
}

/// The lines of a drawing as they stand in its text.
fn drawn_lines(alloc: Global, drawing: &str) -> Result<Vec<Line>, AllocError>
    ensures { IfOk result (λ lines. lines.items ≡ drawn_lines drawing.now) }
{
    let mut lines = Vec::new(alloc);
    for line in without_feed(drawing).split('\n') {
        lines.push(Line::drawn(alloc, line)?)?;
    }
    Ok(lines)
}

/// Puts a sign at a place.
fn put_sign(lines: &mut Vec<Line>, at: Place, sign: Sign)
    ensures { lines.new.items ≡ with_sign at sign lines.old.items }
{
    let row = at.row.saturating_sub(1);
    if row < lines.len() {
        lines[row].put(at.column, sign);
    }
}

/// Puts the sign of an element that has power.
fn put_element(lines: &mut Vec<Line>, element: &Element)
    ensures { lines.new.items ≡ with_element element.now lines.old.items }
{
    match element {
        Element::Wire(at) => put_sign(lines, *at, Sign::LiveWire),
        Element::Join(at) | Element::Upright(at) => put_sign(lines, *at, Sign::LiveUpright),
        Element::Contact(_) | Element::Coil(_) | Element::Box(_) => {}
    }
}

/// Whether the element with the number k is shown to have power.
fn is_shown(shown: &[bool], k: usize) -> bool
    ensures { result ≡ unwrap_or (slice_get shown.now k) false }
{
    match shown.get(k) {
        Some(on) => *on,
        None => false,
    }
}

/// What is shown behind the first so many elements.
fn behind(shown: &[bool], count: usize) -> &[bool]
    ensures { result.now ≡ drop (min count (length shown.now)) shown.now }
{
    shown.split_at(count.min(shown.len())).1
}

/// Puts the signs of the elements that are shown to have power.
fn put_elements(lines: &mut Vec<Line>, elements: &[Element], shown: &[bool])
    ensures { lines.new.items ≡ with_power elements.now shown.now lines.old.items }
{
    for (k, element) in elements.iter().enumerate() {
        if is_shown(shown, k) {
            put_element(lines, element);
        }
    }
}

/// The lines of a drawing, with the elements that are shown to have power.
fn live_lines(
    alloc: Global,
    drawing: &str,
    ladder: &Ladder,
    shown: &[bool],
) -> Result<Vec<Line>, AllocError>
    ensures { IfOk result (λ lines. lines.items ≡ live_lines drawing.now ladder.now.networks shown.now) }
{
    let mut lines = drawn_lines(alloc, drawing)?;
    let mut rest = shown;
    for network in 0..usize::MAX {
        let Some(elements) = ladder.elements(network) else {
            return Ok(lines);
        };
        put_elements(&mut lines, elements, rest);
        rest = behind(rest, elements.len());
    }
    // So many networks are in no memory.
    Err(AllocError)
}

/// Writes a sign that has power, in bold green if it is colored.
fn push_live(text: &mut String, sign: &str, color: bool) -> Result<(), AllocError>
    ensures { OnOk result (GrowsBy text.old text.new (live_text color sign.now)) }
{
    if !color {
        return text.push_str(sign);
    }
    text.push_str("\u{1b}[1;32m")?;
    text.push_str(sign)?;
    text.push_str("\u{1b}[0m")
}

fn push_sign(text: &mut String, sign: Sign, color: bool) -> Result<(), AllocError>
    ensures { OnOk result (GrowsBy text.old text.new (sign_text color sign)) }
{
    match sign {
        Sign::Drawn(sign) => text.push(sign),
        Sign::LiveWire => push_live(text, "=", color),
        Sign::LiveUpright => push_live(text, "#", color),
    }
}

fn push_line(text: &mut String, line: &Line, color: bool) -> Result<(), AllocError>
    ensures { OnOk result (GrowsBy text.old text.new (line_text color line.now)) }
{
    for sign in &line.signs {
        push_sign(text, *sign, color)?;
    }
    text.push_str("\n")
}

/// Writes a drawing with what is shown to have power.
pub fn push_drawing(
    text: &mut String,
    alloc: Global,
    drawing: &str,
    ladder: &Ladder,
    shown: &[bool],
    color: bool,
) -> Result<(), AllocError>
    ensures { OnOk result
        (GrowsBy text.old text.new (live_drawing color drawing.now ladder.now.networks shown.now)) }
{
    let lines = live_lines(alloc, drawing, ladder, shown)?;
    for line in &lines {
        push_line(text, line, color)?;
    }
    Ok(())
}
