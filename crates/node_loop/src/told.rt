ghost use Rattle.std.specs.Prelude.{◌≡◌};
ghost use Rattle.node_loop.specs.Given.{is_end};

use text_lines::ReadFault;

/// A line of more bytes waits alone.
const LONG: usize = 4096;

/// What a reader tells of its input.
#[derive(Drop)]
pub enum Told {
    /// A line, without its line feed.
    Line(Vec<u8>),
    /// A line of more than 16,777,216 bytes.
    TooLong,
    /// The input is at its end. A FIFO may have another writer.
    End,
    /// The input can't be opened or read.
    Unread(ReadFault),
}

impl Told {
    /// Whether it has so many bytes that it waits alone.
    pub(crate) fn is_long(&self) -> bool {
        match self {
            Told::Line(line) => line.len() > LONG,
            Told::TooLong | Told::End | Told::Unread(_) => false,
        }
    }

    /// Whether its input is at its end, or can't be read.
    pub(crate) fn is_end(&self) -> bool
        ensures { result ≡ is_end self.now }
    {
        match self {
            Told::Line(_) | Told::TooLong => false,
            Told::End | Told::Unread(_) => true,
        }
    }
}
