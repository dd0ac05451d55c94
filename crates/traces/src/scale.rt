ghost use Rattle.std.specs.Prelude.{◌≡◌, ◌<◌, ◌^◌, IfOk};
ghost use Rattle.traces.specs.Diagram.{longest_label, mark_every, scale_of, slant_of, unit_of, x_of};

use crate::label::label_of;
use crate::track::Track;
use std::alloc::{AllocError, Global};

/// Where the moments of a diagram are drawn: the first one begins at `left`, and each is `unit` wide.
#[derive(Clone, Copy, Debug)]
pub struct Scale {
    left: u16,
    unit: u8,
}

impl Scale {
    /// The scale of a diagram of these variables over so many moments.
    pub fn of(alloc: Global, tracks: &[Track], moments: u32) -> Result<Scale, AllocError>
        ensures { IfOk result (λ scale. scale ≡ scale_of tracks.now moments) }
    {
        let longest = longest_label(alloc, tracks)?.min(255) as u16;
        Ok(Scale {
            left: 8 * longest + 24,
            unit: unit_of(moments),
        })
    }

    /// Where a moment begins, from the left.
    pub fn x(self, moment: u32) -> u64
        ensures place { result ≡ x_of self moment }
        ensures small { result < 2 ^ 48 }
    {
        u64::from(self.left) + u64::from(self.unit) * u64::from(moment)
    }

    /// A mark stands at each so many moments.
    pub fn mark_every(self) -> u32
        ensures { result ≡ mark_every self }
    {
        match self.unit {
            60.. => 2,
            24.. => 5,
            12.. => 10,
            6.. => 20,
            _ => 100,
        }
    }

    /// How wide the ends of a band are.
    pub fn slant(self) -> u8
        ensures { result ≡ slant_of self }
    {
        (self.unit / 2).min(3)
    }
}

/// The length of the longest label.
fn longest_label(alloc: Global, tracks: &[Track]) -> Result<usize, AllocError>
    ensures { IfOk result (λ most. most ≡ longest_label tracks.now) }
{
    let mut most = 0;
    for track in tracks {
        let label = label_of(alloc, track)?;
        most = most.max(label.len());
    }
    Ok(most)
}

/// How wide a moment is.
fn unit_of(moments: u32) -> u8
    ensures { result ≡ unit_of moments }
{
    (1600 / moments.max(1)).min(60).max(2) as u8
}
