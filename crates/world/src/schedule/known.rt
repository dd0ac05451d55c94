//! What a resource has heard in an incarnation.

ghost use Rattle.std.specs.Prelude.{◌≡◌, slice_index, slice_get};
ghost use Rattle.std.specs.List.{find};
ghost use Rattle.std.specs.Option.{option_copied, option_and_then};
ghost use Rattle.world.specs.Schedule.{is_of_node, known_from};
ghost use Rattle.world.specs.Steps.Tables.{before, if_in, IsAt};

use crate::schedule::tables::Tables;
use book::Book;
use evaluation::{Frame, Name};

/// The entry at an index, if it is of this incarnation.
fn entry_in(entries: &[Frame], index: Option<usize>, incarnation: u32) -> Option<&Frame>
    ensures { option_copied result ≡ if_in incarnation (option_and_then (λ k. slice_get entries.now k) index) }
{
    let entry = entries.get(index?)?;
    if entry.name().incarnation == incarnation {
        Some(entry)
    } else {
        None
    }
}

/// The newest entry of this name's resource and incarnation.
pub fn newest_of<'a>(book: &'a Book, index: usize, tables: &Tables, name: Name) -> Option<&'a Frame>
    requires { IsAt book.now index tables.now name }
    ensures { option_copied result ≡ find (is_of_node name) (before book.now.entries index) }
{
    let newest = tables.seen[name.task.resource].newest;
    entry_in(book.entries(), newest, name.incarnation)
}

/// What a resource has heard of another one in its incarnation, whose newest entry this is: what that has heard, else the first incarnation.
pub fn known_from(first: &[u32], newest: Option<&Frame>, of: usize) -> u32
    ensures { result ≡ known_from (slice_index first.now of) (option_copied newest.entry) of }
{
    match newest {
        None => first.get(of).copied().unwrap_or(0),
        Some(y) => y.evaluation().heard().get(of).copied().unwrap_or(0),
    }
}
