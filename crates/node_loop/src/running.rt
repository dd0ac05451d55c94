//! A node begins, and makes its turns.

ghost use Rattle.std.specs.Prelude.{◌≡◌, ◌<◌, IfOk, IfErr, length, string_bytes};
ghost use Rattle.live_node.specs.Keeping.{KeepsCore};
ghost use Rattle.node_loop.specs.Loops.{condition_of, setting_of};
ghost use Rattle.node_loop.specs.Running.{setting, BeginsAlone, IsUnbegun, RunsAlone, StopsAlone};

use crate::ending::Ending;
use crate::loop_stop::LoopStop;
use crate::looping::run_loop;
use crate::turn_source::TurnSource;
use field_node::FieldNode;
use keepers::Keeper;
use live_node::{Node, Notes};
use plant::Plant;
use std::alloc::Global;
use std::io::Write;
use std::sync::Arc;

/// How a node runs: whether it has a field, whether it makes its evaluations by itself, and when it ends.
#[derive(Clone, Copy, Debug)]
pub struct Alone {
    pub has_field: bool,
    pub cycles: bool,
    pub ending: Ending,
}

/// Begins a node; the node, and what it writes at its start.
fn begin<K: Keeper, N: Notes>(
    alloc: Global,
    plant: Arc<Plant>,
    resource: usize,
    alone: Alone,
    keeper: K,
    notes: N,
) -> Result<(FieldNode<K, N>, String), LoopStop>
    requires { resource < length plant.value.resources }
    ensures begins { IfOk result (λ begun. BeginsAlone (K.raise_gives keeper) (K.kept_gives keeper) plant.value resource alone
        (condition_of begun.0 (N.noted begun.0.node.notes)) (N.noted notes) (string_bytes begun.1)) }
    ensures setting { IfOk result (λ begun. setting_of begun.0 ≡ setting plant.value resource alone) }
    ensures fresh { IfOk result (λ begun. begun.0.node.state.lines ≡ 0) }
    ensures synced { IfOk result (λ begun. N.synced begun.0.node.notes ≡ N.noted begun.0.node.notes) }
    ensures kept { IfOk result (λ begun. K.last begun.0.node.keeper ≡ begun.0.node.state.core.incarnation) }
    ensures keeps { IfOk result (λ begun. KeepsCore (K.kept_gives begun.0.node.keeper) begun.0.node.state.core) }
    ensures stopped { IfErr result (IsUnbegun K.last K.raise_gives K.kept_gives keeper plant.value resource (N.noted notes)) }
{
    let mut text = String::new(alloc);
    let shared = Arc::try_clone(&plant)?;
    let node = match Node::begin(alloc, shared, resource, keeper, notes, &mut text) {
        Ok(node) => node,
        Err((_notes, stop)) => return Err(LoopStop::from(stop)),
    };
    let node = FieldNode::of(alloc, plant, resource, alone.has_field, alone.cycles, node)?;
    Ok((node, text))
}

/// Begins a node, writes what it writes at its start, and has it make its turns, to the end; it answers with the node as it is
/// then.
pub fn run_turns<K: Keeper, N: Notes, S: TurnSource, W: Write>(
    alloc: Global,
    plant: Arc<Plant>,
    resource: usize,
    alone: Alone,
    keeper: K,
    notes: N,
    source: &mut S,
    out: &mut W,
) -> Result<FieldNode<K, N>, LoopStop>
    requires { resource < length plant.value.resources }
    ensures ok { IfOk result (λ node. RunsAlone K.last K.raise_gives K.kept_gives keeper plant.value resource alone
        (condition_of node (N.noted node.node.notes)) (S.given source.old) (S.given source.new)
        (N.noted notes) (W.contents out.old) (W.contents out.new)) }
    ensures synced { IfOk result (λ node. N.synced node.node.notes ≡ N.noted node.node.notes) }
    ensures keeps { IfOk result (λ node. KeepsCore (K.kept_gives node.node.keeper) node.node.state.core) }
    ensures stopped { IfErr result (StopsAlone K.last K.raise_gives K.kept_gives keeper plant.value resource alone
        (S.given source.old) (S.given source.new) (N.noted notes) (W.contents out.old) (W.contents out.new)) }
{
    let (mut node, begun) = begin(alloc, plant, resource, alone, keeper, notes)?;
    run_loop(alloc, &mut node, begun.as_str(), alone.ending, source, out)?;
    Ok(node)
}
