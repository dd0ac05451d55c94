//! A schedule with EXPECT lines is read line by line, and each line is done before the next one is read.

ghost use Rattle.std.specs.Prelude.{◌≡◌, ℕ, ◌<◌, List, Option, IfErr, IfOk, OnOk};
ghost use Rattle.tested_schedules.specs.Steps.Lines.{line_words};
ghost use Rattle.tested_schedules.specs.TestedLines.{EndsTestedLines, HasAnswered, HasTestedLines};
ghost use Rattle.tested_schedules.specs.Steps.Lines.{HasDoneNext, HasFailed, HasStoppedNext};
ghost use Rattle.tested_schedules.specs.Steps.Testing.{AreIncarnations, HasDone, HasStopped, state_of};

use crate::live_fault::LiveFault;
use crate::tested::Tested;
use crate::testing::Testing;
use evaluation::push_words;
use plant::Plant;
use std::alloc::Global;
use std::io::Write;
use std::sync::Arc;
use text_lines::{Given, ReadFault};
use world::{LineFault, LineSource, without_last};

impl Testing {
    /// Does a line that was read.
    fn do_bytes<W: Write>(
        &mut self,
        alloc: Global,
        line: &[u8],
        out: &mut W,
    ) -> Result<(), LineFault>
        requires few { self.old.events < 18446744073709551615 }
        requires known { AreIncarnations self.old.world self.old.incarnations.items }
        ensures ok { OnOk result (HasDone (state_of self.old) (state_of self.new) (line_words line.now)
            (W.contents out.old) (W.contents out.new)) }
        ensures fault { IfErr result (HasStopped (state_of self.old) (state_of self.new) (line_words line.now)
            (W.contents out.old) (W.contents out.new)) }
        ensures known { OnOk result (AreIncarnations self.new.world self.new.incarnations.items) }
    {
        let mut words = Vec::new(alloc);
        push_words(&mut words, without_last(b'\r', line))?;
        self.do_words(alloc, words.as_slice(), out)
    }

    /// Does a line that was read, and hands on what was written of it.
    fn do_read<W: Write>(
        &mut self,
        alloc: Global,
        number: u64,
        line: &[u8],
        out: &mut W,
    ) -> Result<(), LiveFault>
        requires few { self.old.events < 18446744073709551615 }
        requires known { AreIncarnations self.old.world self.old.incarnations.items }
        ensures ok { OnOk result (HasDone (state_of self.old) (state_of self.new) (line_words line.now)
            (W.contents out.old) (W.contents out.new)) }
        ensures fault { IfErr result (HasFailed (state_of self.old) (state_of self.new) (line_words line.now)
            (W.contents out.old) (W.contents out.new) number) }
        ensures known { OnOk result (AreIncarnations self.new.world self.new.incarnations.items) }
    {
        match self.do_bytes(alloc, line, out) {
            Ok(()) => {}
            Err(LineFault::Syntax) => return Err(LiveFault::Syntax { line: number }),
            Err(LineFault::Write) => return Err(LiveFault::Write),
            Err(LineFault::Memory) => return Err(LiveFault::Memory),
        }
        match out.flush() {
            Ok(()) => Ok(()),
            Err(_) => Err(LiveFault::Write),
        }
    }

    /// Takes the next line and does it. Whether more may follow; the line has this number.
    fn do_next<L: LineSource, W: Write>(
        &mut self,
        alloc: Global,
        number: u64,
        line: &mut Vec<u8>,
        source: &mut L,
        out: &mut W,
    ) -> Result<bool, LiveFault>
        requires few { self.old.events < 18446744073709551615 }
        requires known { AreIncarnations self.old.world self.old.incarnations.items }
        requires ready { L.is_ready (L.left source.old) (W.contents out.old) }
        ensures ok { IfOk result (HasDoneNext (state_of self.old) (state_of self.new)
            (L.left source.old) (L.left source.new) (W.contents out.old) (W.contents out.new)) }
        ensures fault { IfErr result (HasStoppedNext (state_of self.old) (state_of self.new)
            (L.left source.old) (L.left source.new) line.new.items (W.contents out.old) (W.contents out.new) number) }
        ensures known { OnOk result (AreIncarnations self.new.world self.new.incarnations.items) }
    {
        match source.take_line(line, out) {
            Ok(Given::Line) => {
                self.do_read(alloc, number, line, out)?;
                Ok(true)
            }
            Ok(Given::LastLine) => {
                self.do_read(alloc, number, line, out)?;
                Ok(false)
            }
            Ok(Given::TooLong) => Err(LiveFault::TooLong { line: number }),
            Ok(Given::End) => Ok(false),
            Err(ReadFault::Read) => Err(LiveFault::Read),
            Err(ReadFault::Memory) => Err(LiveFault::Memory),
        }
    }
}

/// Does the events and EXPECT lines of a schedule as `test_schedule` does, and takes its lines of a source that may say
/// when: what was written of a line is handed on before the next one is taken, and that one is taken only where what was
/// written is the text of all lines taken before.
///
/// `Syntax` is the first line, counted from 1, that is no event, EXPECT line, comment or blank, `TooLong` one of more than
/// 1,000,000 bytes; the text of the lines before it is written, and nothing behind it is read: `line` is left with it, or
/// with what was read of it. After `Read` the text of all whole lines that were read is written. After `Write` what went
/// out is a beginning of the text of all lines that were read, after `Memory` the text of all, or of all but the last.
pub fn test_in_turns<L: LineSource, W: Write>(
    alloc: Global,
    plant: Arc<Plant>,
    max_number: u32,
    line: &mut Vec<u8>,
    source: &mut L,
    out: &mut W,
) -> Result<Tested, LiveFault>
    requires turns { (left written : Option (List ℕ))
        → HasAnswered plant.value max_number (L.left source.old) left (W.contents out.old) written
        → L.is_ready left written }
    ensures ok { IfOk result
        (HasTestedLines plant.value max_number (L.left source.old) (L.left source.new)
        (W.contents out.old) (W.contents out.new)) }
    ensures fault { IfErr result
        (EndsTestedLines plant.value max_number (L.left source.old) (L.left source.new) line.new.items
        (W.contents out.old) (W.contents out.new)) }
{
    let Ok(mut testing) = Testing::open(alloc, plant, max_number) else {
        return Err(LiveFault::Memory);
    };
    for before in 0..u64::MAX {
        if !testing.do_next(alloc, before + 1, line, source, out)? {
            return Ok(testing.ended());
        }
    }
    Err(LiveFault::Read)
}
