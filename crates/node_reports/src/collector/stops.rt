ghost use Rattle.std.specs.Prelude.{◌≡◌, ◌↔◌, ◌<◌, [], IsTrue, IfOk, length};
ghost use Rattle.node_reports.specs.Reports.{may_stop};
ghost use Rattle.node_reports.specs.Steps.Collecting.{AreMarkedBy, IsMarkedIfStopped, AreStopMarks, AreWithin, AreStopsTold};

use crate::cause::Cause;
use crate::node_fault::NodeFault;
use std::alloc::{AllocError, Global};

/// Whether a resource may obey no further command after this.
fn may_stop(cause: Cause) -> bool
    ensures { result ≡ may_stop cause }
{
    match cause {
        Cause::Memory | Cause::Misfit => true,
        _ => false,
    }
}

/// Whether a resource that has stopped is marked. One that a fault may have stopped is marked from then on.
fn follows(marks: &mut [bool], fault: &NodeFault) -> bool
    requires { fault.now.resource < length marks.old }
    ensures marked { AreMarkedBy marks.old marks.new fault.now }
    ensures stopped { IsTrue result ↔ IsMarkedIfStopped marks.old fault.now }
{
    if may_stop(fault.cause) {
        marks[fault.resource] = true;
        return true;
    }
    fault.cause != Cause::Stopped || marks[fault.resource]
}

/// Whether each resource that has stopped is marked, or an earlier fault may have stopped it.
fn all_follow(marks: &mut [bool], faults: &[NodeFault]) -> bool
    requires { AreWithin (length marks.old) faults.now }
    ensures { AreStopMarks [] marks.old → (IsTrue result ↔ AreStopsTold (length faults.now) faults.now) }
{
    for k in 0..faults.len() {
        if !follows(marks, &faults[k]) {
            return false;
        }
    }
    true
}

/// Whether a resource has stopped only where an earlier fault may have stopped it.
pub(crate) fn are_stops_told(
    alloc: Global,
    count: usize,
    faults: &[NodeFault],
) -> Result<bool, AllocError>
    requires { AreWithin count faults.now }
    ensures { IfOk result (λ told. IsTrue told ↔ AreStopsTold (length faults.now) faults.now) }
{
    let mut marks = vec![in alloc; false; count]?;
    Ok(all_follow(marks.as_mut_slice(), faults))
}
