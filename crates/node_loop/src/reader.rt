//! What the threads of the inputs do.

use crate::channels::ReaderEnd;
use crate::told::Told;
use live_node::{TakenLine, take_line};
use std::alloc::Global;
use std::fs::OpenFile;
use std::io::{BufReader, Read};
use std::os::unix::fs::FileTypeExt;
use std::rt::{Clock, Files};
use std::sync::Wait;
use std::time::Duration;
use std::{fs, io, thread};
use text_lines::ReadFault;

/// What is handed on of a line, and whether more may follow.
fn told_of(taken: TakenLine, line: Vec<u8>) -> (Told, bool) {
    match taken {
        TakenLine::Line { fed } => (Told::Line(line), fed),
        TakenLine::TooLong { fed } => (Told::TooLong, fed),
        TakenLine::End => (Told::End, false),
    }
}

/// What was handed on of an input at one go.
#[derive(Clone, Copy)]
enum HandedOn {
    /// A line; more may follow.
    Line,
    /// A line behind which nothing follows, or that nobody takes.
    LastLine,
    /// Nothing: the input is at its end.
    Nothing,
}

/// Takes the next line of an input, and hands it on.
fn hand_on_next<R: Wait, I: Read>(
    rt: &R,
    alloc: Global,
    input: &mut I,
    piece: &mut Vec<u8>,
    to: &ReaderEnd,
) -> Result<HandedOn, ReadFault> {
    let mut line = Vec::new(alloc);
    let taken = take_line(input, &mut line, piece, &io::sink())?;
    match told_of(taken, line) {
        (Told::End, _) => Ok(HandedOn::Nothing),
        (told, more) => Ok(if to.hand_on(rt, told) && more {
            HandedOn::Line
        } else {
            HandedOn::LastLine
        }),
    }
}

/// What is told last of an input, and whether it had a line or couldn't be read.
#[derive(Drop)]
struct LastTold {
    told: Told,
    tells_more: bool,
}

/// Hands on the lines of an input, to its end or until nobody takes them.
fn hand_on_lines<R: Wait, I: Read>(
    rt: &R,
    alloc: Global,
    input: &mut I,
    to: &ReaderEnd,
) -> LastTold {
    let mut piece = Vec::new(alloc);
    for lines in 0..u64::MAX {
        let (told, tells_more) = match hand_on_next(rt, alloc, input, &mut piece, to) {
            Ok(HandedOn::Line) => continue,
            Ok(HandedOn::LastLine) => (Told::End, true),
            Ok(HandedOn::Nothing) => (Told::End, lines > 0),
            Err(fault) => (Told::Unread(fault), true),
        };
        return LastTold { told, tells_more };
    }
    unread(ReadFault::Read)
}

/// An input that can't be read.
fn unread(fault: ReadFault) -> LastTold {
    LastTold {
        told: Told::Unread(fault),
        tells_more: true,
    }
}

/// Hands on the lines of a reader.
fn hand_on_all<R: Wait, I: Read + Drop>(
    rt: &R,
    alloc: Global,
    input: I,
    to: &ReaderEnd,
) -> LastTold {
    match BufReader::new(alloc, input) {
        Ok(mut input) => hand_on_lines(rt, alloc, &mut input, to),
        Err(_) => unread(ReadFault::Memory),
    }
}

/// What the thread of standard input does once the loop starts: it hands on each line, and tells the end.
pub fn read_input<R: Input + Wait>(rt: &R, alloc: Global, to: ReaderEnd) {
    if to.is_started(rt) {
        let last = hand_on_all(rt, alloc, rt.reader(), &to);
        to.hand_on(rt, last.told);
    }
}

/// Opens a file, and hands on its lines; how it ended, and whether it is a FIFO. A FIFO without a writer is waited for.
fn read_once<R: Files + Wait>(
    rt: &R,
    alloc: Global,
    path: &str,
    to: &ReaderEnd,
) -> io::Result<(LastTold, bool)> {
    let file = fs::open(rt, path)?;
    let is_fifo = file.metadata()?.file_type().is_fifo();
    Ok((hand_on_all(rt, alloc, file, to), is_fifo))
}

/// How long a FIFO is left alone that was opened anew and is at its end at once, in ms.
const PAUSE: u64 = 10;

/// How long a path is left alone that can't be opened, in ms.
const ABSENCE: u64 = 100;

/// A path that can't be opened.
fn absent() -> LastTold {
    LastTold {
        told: Told::Unread(ReadFault::Read),
        tells_more: false,
    }
}

/// What the thread of a field does once the loop starts: it hands on each line of a file, and tells its end. A FIFO is opened
/// anew then, and so is a path that can't be opened: perhaps it is made later. Where that is at its end at once, as a pipe
/// without a name always is, the end isn't told again.
pub fn read_field<R: Files + Wait + Clock>(rt: &R, alloc: Global, path: &str, to: ReaderEnd) {
    if !to.is_started(rt) {
        return;
    }
    let mut is_ended = false;
    for _ in rt.forever() {
        let (last, pause) = match read_once(rt, alloc, path, &to) {
            Ok((last, true)) => (last, Some(PAUSE)),
            Ok((last, false)) => (last, None),
            Err(_) => (absent(), Some(ABSENCE)),
        };
        if is_ended && !last.tells_more {
            thread::sleep(rt, Duration::from_millis(pause.unwrap_or(PAUSE)));
        } else if !to.hand_on(rt, last.told) {
            return;
        }
        is_ended = true;
        if pause.is_none() {
            return;
        }
    }
}
