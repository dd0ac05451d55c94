//! The command `node` where the node has a field, or runs by itself.

ghost use Rattle.std.specs.Prelude.{◌<◌, length};

use crate::node_command::NodeFault;
use console::{NodeRequest, PreparedNode};
use cycle::Origin;
use keepers::Keeper;
use live_node::Notes;
use node_loop::{Alone, Ending, LiveSource, LoopStop, ReaderEnds, connect, run_turns};
use std::alloc::Global;
use std::io;
use std::rt::Clock;
use std::sync::Wait;

/// Which inputs are read: standard input, as one of them, and the file of the field.
#[derive(Drop)]
pub struct Inputs {
    pub standard: Origin,
    pub field: Option<String>,
}

/// Whether it is asked for that a node has a field, or runs by itself.
pub fn is_alone(request: &NodeRequest<'_>) -> bool {
    request.cycles || request.field.is_some()
}

/// Which inputs are asked for.
fn inputs_of(alloc: Global, request: &NodeRequest<'_>) -> Result<Inputs, LoopStop> {
    match request.field {
        None => Ok(Inputs {
            standard: Origin::Neighbours,
            field: None,
        }),
        Some("-") => Ok(Inputs {
            standard: Origin::Field,
            field: None,
        }),
        Some(path) => Ok(Inputs {
            standard: Origin::Neighbours,
            field: Some(String::from_str(alloc, path)?),
        }),
    }
}

/// How it is asked for that a node runs. Without a cycle it ends at the end of standard input.
fn alone_of(request: &NodeRequest<'_>, standard: Origin) -> Alone {
    let closing = if request.cycles { None } else { Some(standard) };
    Alone {
        has_field: request.field.is_some(),
        cycles: request.cycles,
        ending: Ending {
            until: request.until,
            closing,
        },
    }
}

/// Runs a node beside the readers of its inputs, on the clock and standard output. `readers` starts these; whether all are
/// started.
pub fn run_alone<
    R: Clock + Print + AllocGlobal + Wait,
    K: Keeper,
    N: Notes,
    S: FnOnce(Inputs, ReaderEnds) -> bool,
>(
    rt: &R,
    request: &NodeRequest<'_>,
    prepared: PreparedNode,
    keeper: K,
    notes: N,
    readers: S,
) -> Result<(), NodeFault>
    requires exists { prepared.resource < length prepared.plant.value.resources }
    requires readers { (inputs : _) → (ends : _) → S.pre readers inputs ends }
{
    let alloc = rt.alloc();
    let inputs = inputs_of(alloc, request)?;
    let alone = alone_of(request, inputs.standard);
    let (ends, of_readers) = connect(alloc)?;
    if !readers(inputs, of_readers) {
        return Err(NodeFault::Unread);
    }
    let mut source = LiveSource::new(rt, ends)?;
    let mut writer = io::writer(rt);
    let PreparedNode { plant, resource } = prepared;
    run_turns(
        alloc,
        plant,
        resource,
        alone,
        keeper,
        notes,
        &mut source,
        &mut writer,
    )?;
    Ok(())
}
