ghost use Rattle.std.specs.Prelude.{◌≡◌, ◌==◌, true};
ghost use Rattle.std.specs.List.{list_any};
ghost use Rattle.std.specs.Io.Buffered.{reader_buffer};

use std::alloc::Allocator;
use std::io::{BufReader, Read};

/// A source that knows whether its next line has come.
pub trait LinesAtHand {
    /// The next line is there, with its line feed.
    ghost is_at_hand: { Self → Type 0 };

    /// Whether it is. Where it is, taking it waits for nobody.
    fn has_line(&self) -> bool
        ensures { result ≡ true → is_at_hand self.now };
}

impl<R: Read, A: Allocator> LinesAtHand for BufReader<R, A> {
    ghost is_at_hand = { λ r. list_any (λ c. c == 10) (reader_buffer r) ≡ true };

    fn has_line(&self) -> bool {
        self.buffer().contains(&b'\n')
    }
}
