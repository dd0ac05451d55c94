ghost use Rattle.std.specs.Prelude.{◌≡◌, ◌++◌, ◌∷◌, [], IfOk, List, length};
ghost use Rattle.evaluation.specs.Meaning.{Evaluated};
ghost use Rattle.traces.specs.Moments.{made_at, of_events};

use evaluation::{Evaluation, Frame};
use std::alloc::{AllocError, Global};

/// An evaluation stands at the moment of the event or command whose number is its ticket, if there is such a moment.
fn set_made<'a>(moments: &mut [Option<&'a Evaluation>], made: &'a Evaluation)
    ensures many { length moments.new ≡ length moments.old }
    ensures more { (log : List Evaluated) → made_at moments.old ≡ of_events (length moments.old) log
        → made_at moments.new ≡ of_events (length moments.old) (log ++ made.entry.now ∷ []) }
{
    let ticket = made.ticket();
    if 0 < ticket && ticket <= moments.len() as u64 {
        moments[(ticket - 1) as usize] = Some(made);
    }
}

/// What was evaluated at each moment, where each of so many events of a schedule, or commands of a plan, is one. An
/// evaluation's ticket is the number of its event or command. More than `usize` counts don't fit into memory.
pub fn of_events<'a>(
    alloc: Global,
    events: u64,
    log: &'a [Frame],
) -> Result<Vec<Option<&'a Evaluation>>, AllocError>
    ensures { IfOk result (λ moments. made_at moments.items ≡ of_events events log.entry.now) }
{
    let Ok(count) = usize::try_from(events) else {
        return Err(AllocError);
    };
    let mut moments = vec![in alloc; None; count]?;
    for entry in log {
        set_made(&mut moments, entry.evaluation());
    }
    Ok(moments)
}
