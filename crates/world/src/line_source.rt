ghost use Rattle.std.specs.Prelude.{ℕ, List, Option, IfOk, OnErr};
ghost use Rattle.text_lines.specs.Lines.{Gives, TakesSome};

use std::io::{Read, Write};
use text_lines::{Given, ReadFault, next_line};

/// What gives the lines of a schedule, one at a time. It may say when the next one is taken: only where `is_ready` holds
/// of what it has left and of what was written. A reader gives each at any time.
pub trait LineSource {
    /// What is left to be read.
    ghost left: { Self → Option (List ℕ) };

    /// When the next line may be taken: where so much is left, and this was written.
    ghost is_ready: { Option (List ℕ) → Option (List ℕ) → Type 0 };

    /// Takes the next line, without its line feed, in the place of what was in `line`. `out` is what was written to.
    fn take_line<W: Write>(&mut self, line: &mut Vec<u8>, out: &W) -> Result<Given, ReadFault>
        requires ready { is_ready (left self.old) (W.contents out.now) }
        ensures ok { IfOk result (Gives (left self.old) (left self.new) line.new.items) }
        ensures fault { OnErr result (TakesSome (left self.old) (left self.new)) };
}

impl<R: Read> LineSource for R {
    ghost left = { λ r. R.remaining r };

    ghost is_ready = { λ left written. Unit {0} };

    fn take_line<W: Write>(&mut self, line: &mut Vec<u8>, _out: &W) -> Result<Given, ReadFault> {
        next_line(self, line)
    }
}
