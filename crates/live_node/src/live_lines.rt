//! The lines that a node reads. A longer one than it may have is read to its end.

ghost use Rattle.std.specs.Prelude.{◌≡◌, ℕ, ◌≤◌, IfOk, IfErr, List, Option, length};
ghost use Rattle.text_lines.specs.Lines.{TakesSome};
ghost use Rattle.text_lines.specs.declared.read_fault.ReadFault.TheVariants as reading;
ghost use Rattle.live_node.specs.Steps.LineTaking.{IsTaken, TakesRest, HasPut};
ghost use Rattle.live_node.specs.TakenLines.{Takes, TakesWithin};

use std::io::Write;
use text_lines::{Given, ReadFault};
use world::LineSource;

/// How many bytes a line of a node has at most, its line feed aside.
pub(crate) const LONGEST: usize = 16_777_216;

/// What was taken.
#[derive(Clone, Copy)]
pub enum TakenLine {
    /// A line; whether a line feed ended it.
    Line { fed: bool },
    /// A line that is too long; whether a line feed ended it.
    TooLong { fed: bool },
    /// Nothing: all was read.
    End,
}

/// A line of which this was taken.
fn taken(too_long: bool, fed: bool) -> TakenLine
    ensures { IsTaken too_long fed result }
{
    if too_long {
        TakenLine::TooLong { fed }
    } else {
        TakenLine::Line { fed }
    }
}

/// Puts a piece behind what was read of a line, where it isn't too long; whether it is.
fn put_piece(line: &mut Vec<u8>, piece: &[u8], too_long: bool) -> Result<bool, ReadFault>
    requires { length line.old.items ≤ 16777216 }
    ensures put { IfOk result (HasPut line.old.items line.new.items piece.now too_long) }
    ensures fault { IfErr result (λ why. why ≡ reading.Memory) }
{
    if too_long || piece.len() > LONGEST - line.len() {
        return Ok(true);
    }
    line.extend_from_slice(piece)?;
    Ok(false)
}

/// Takes the rest of a line of which some was taken.
fn take_rest<L: LineSource, W: Write>(
    source: &mut L,
    line: &mut Vec<u8>,
    piece: &mut Vec<u8>,
    out: &W,
) -> Result<TakenLine, ReadFault>
    requires few { length line.old.items ≤ 16777216 }
    requires ready { (left : Option (List ℕ)) → TakesSome (L.left source.old) left → L.is_ready left (W.contents out.now) }
    ensures ok { IfOk result (TakesRest (L.left source.old) (L.left source.new) line.old.items line.new.items) }
    ensures fault { IfErr result (λ why. TakesWithin 0 why (L.left source.old) (L.left source.new)) }
{
    let mut too_long = false;
    for _ in 0..u64::MAX {
        let given = source.take_line(piece, out)?;
        too_long = put_piece(line, piece.as_slice(), too_long)?;
        match given {
            Given::TooLong => {}
            Given::Line => return Ok(taken(too_long, true)),
            Given::LastLine | Given::End => return Ok(taken(too_long, false)),
        }
    }
    Err(ReadFault::Read)
}

/// Takes the next line, without its line feed, in the place of what was in `line`; one of more than 16,777,216 bytes is
/// taken to its end, and told as too long. `piece` is room for a part of a long one; `out` is what was written to. After a
/// fault some of the line may be gone; its line feed only where memory is wanting behind 1,000,000 bytes.
#[tactic(auto, using(crate::proofs::LineTaking::takes_line, crate::proofs::LineTaking::takes_last, crate::proofs::LineTaking::takes_whole, crate::proofs::LineTaking::begins_more, crate::proofs::LineTaking::begins_none))]
pub fn take_line<L: LineSource, W: Write>(
    source: &mut L,
    line: &mut Vec<u8>,
    piece: &mut Vec<u8>,
    out: &W,
) -> Result<TakenLine, ReadFault>
    requires ready { (left : Option (List ℕ)) → TakesSome (L.left source.old) left → L.is_ready left (W.contents out.now) }
    ensures ok { IfOk result (Takes (L.left source.old) (L.left source.new) line.new.items) }
    ensures fault { IfErr result (λ why. TakesWithin 1000001 why (L.left source.old) (L.left source.new)) }
{
    match source.take_line(line, out)? {
        Given::Line => Ok(TakenLine::Line { fed: true }),
        Given::LastLine => Ok(TakenLine::Line { fed: false }),
        Given::End => Ok(TakenLine::End),
        Given::TooLong => take_rest(source, line, piece, out),
    }
}
