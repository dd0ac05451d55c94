//! What is told of the whole of a text that is refused: that it begins with a byte order mark, or is no text for the command.

ghost use Rattle.std.specs.Prelude.{◌≡◌};
ghost use Rattle.console.specs.Steps.Remarks.{begins_with_mark, remark_of, remark_of_drawing, remark_of_plant};

use crate::shown::Shown;
use std::io;
use text_commands::TextFault;

/// What a text looks like from its beginning.
#[derive(Clone, Copy, Debug, PartialEq, Eq)]
pub(crate) enum Look {
    Drawing,
    Plant,
    Other,
}

/// What is told of the whole of a text.
#[derive(Clone, Copy, Debug, PartialEq, Eq)]
pub(crate) enum Remark {
    /// It begins with the byte order mark of UTF-8.
    Mark,
    /// A plant was read as a drawing.
    Plant,
    /// A drawing was read as a plant.
    Drawing,
    /// Nothing.
    Nothing,
}

/// How many comments at most are left out at the beginning of a text.
const MOST_COMMENTS: usize = 100;

/// A text from its first sign on that is neither white space nor in a comment.
fn beginning(text: &str) -> &str {
    let mut rest = text.trim_start();
    for _comment in 0..MOST_COMMENTS {
        let Some(comment) = rest.strip_prefix("(*") else {
            return rest;
        };
        match comment.split_once("*)") {
            Some((_, behind)) => rest = behind.trim_start(),
            None => return "",
        }
    }
    rest
}

/// What a text looks like: a plant begins with PROGRAM or CONFIGURATION, a drawing with its left rail.
fn look_of(text: &str) -> Look {
    let beginning = beginning(text);
    if beginning.starts_with('|') || beginning.starts_with('+') {
        return Look::Drawing;
    }
    let word = beginning
        .split(|sign: char| !sign.is_ascii_alphabetic())
        .next()
        .unwrap_or("");
    if word.eq_ignore_ascii_case("PROGRAM") || word.eq_ignore_ascii_case("CONFIGURATION") {
        Look::Plant
    } else {
        Look::Other
    }
}

/// Whether a text begins with the byte order mark of UTF-8.
fn begins_with_mark(text: &str) -> bool
    ensures { result ≡ begins_with_mark text.now }
{
    let mark: &[u8] = &[239, 187, 191];
    text.as_bytes().starts_with(mark)
}

/// What is told of a text that was read as a drawing.
fn remark_of_drawing(look: Look) -> Remark
    ensures { result ≡ remark_of_drawing look }
{
    match look {
        Look::Plant => Remark::Plant,
        Look::Drawing | Look::Other => Remark::Nothing,
    }
}

/// What is told of a text that was read as a plant.
fn remark_of_plant(look: Look) -> Remark
    ensures { result ≡ remark_of_plant look }
{
    match look {
        Look::Drawing => Remark::Drawing,
        Look::Plant | Look::Other => Remark::Nothing,
    }
}

/// What is told of a text that is refused for this, by whether it begins with a mark, and what it looks like.
fn remark_of(fault: TextFault, is_marked: bool, look: Look) -> Remark
    ensures { result ≡ remark_of fault is_marked look }
{
    if is_marked {
        return Remark::Mark;
    }
    match fault {
        TextFault::Draw(_) | TextFault::Graph(_) | TextFault::Bind(_) => remark_of_drawing(look),
        TextFault::Plant(_) => remark_of_plant(look),
        TextFault::TooLong | TextFault::Second(_) => Remark::Nothing,
    }
}

/// Tells of a text's byte order mark.
fn print_mark<R: Eprint>(rt: &R, file: &str) -> io::Result<()> {
    let file = Shown(file);
    eprintln!(rt;
        "plc: {file} begins with a byte order mark (EF BB BF): save it as UTF-8 without one"
    )
}

/// Tells of the byte order mark of a text that was refused, if it begins with one. What can't be told here is left out.
pub(crate) fn print_mark_of<R: Eprint>(rt: &R, file: &str, text: &str) {
    if begins_with_mark(text) {
        let _told = print_mark(rt, file);
    }
}

/// Tells what is to be told of the whole of a text that was refused for this. What can't be told here is left out.
pub(crate) fn print_remark<R: Eprint>(rt: &R, file: &str, text: &str, fault: TextFault) {
    let shown = Shown(file);
    let _told = match remark_of(fault, begins_with_mark(text), look_of(text)) {
        Remark::Mark => print_mark(rt, file),
        Remark::Plant => eprintln!(rt; "this is a plant: plc check {shown}"),
        Remark::Drawing => eprintln!(rt; "this is a drawing: plc eval {shown}"),
        Remark::Nothing => Ok(()),
    };
}
