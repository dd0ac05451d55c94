//! What holds of runs that come one after the other.

ghost use Rattle.node.specs.Successors.{RunsRise};

use keepers::Keeper;

/// In a run over the keepers that another one handed back, each incarnation of a resource is above all in which it was there.
pub fn runs_rise<K: Keeper>()
    ensures { RunsRise K.last K.kept_gives }
{}
