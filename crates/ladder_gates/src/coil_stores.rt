ghost use Rattle.std.specs.Prelude.{◌≡◌, ◌<◌, ◌&&◌, ℕ, Bool, All, OnOk, Some, None, length, true, false, if◌then◌else◌};
ghost use Rattle.std.specs.Option.{option_map};
ghost use Rattle.std_blocks.specs.declared.value.Value.TheVariants as value;
ghost use Rattle.gates.specs.Gates.{IsBuilt};
ghost use Rattle.gates.specs.Signals.{signal_value};
ghost use Rattle.scan_gates.specs.Encoded.{bits_at, slots_at};
ghost use Rattle.power_flow.specs.Meaning.{coil_memory, coil_value, store};
ghost use Rattle.power_flow.specs.Steps.BoxStores.{kinds_stored};
ghost use Rattle.power_flow.specs.Steps.CoilStores.{bound_memories, bound_memory, bound_store, bound_stores};

use drawings::CoilKind;
use gates::{Gates, Signal};
use scan_gates::{EncodedSlot, EncodedValue, put_value, variable_on};
use scan_steps::BoundCoil;
use std::alloc::AllocError;

/// Stores TRUE at a place where a link is ON.
fn store_set(
    gates: &mut Gates,
    place: usize,
    link: Signal,
    slots: &mut [EncodedSlot],
) -> Result<(), AllocError>
    ensures { OnOk result (IsBuilt gates.old gates.new (λ v. slots_at v slots.new ≡ kinds_stored (slots_at v slots.old)
        (store (Some place) (option_map value.Bool (if signal_value v link then Some true else None))))) }
{
    let had = variable_on(gates, slots, place);
    let on = gates.or(had, link)?;
    put_value(slots, place, EncodedValue::Bool(on));
    Ok(())
}

/// Stores FALSE at a place where a link is ON.
fn store_reset(
    gates: &mut Gates,
    place: usize,
    link: Signal,
    slots: &mut [EncodedSlot],
) -> Result<(), AllocError>
    ensures { OnOk result (IsBuilt gates.old gates.new (λ v. slots_at v slots.new ≡ kinds_stored (slots_at v slots.old)
        (store (Some place) (option_map value.Bool (if signal_value v link then Some false else None))))) }
{
    let had = variable_on(gates, slots, place);
    let on = gates.and(had, link.negated())?;
    put_value(slots, place, EncodedValue::Bool(on));
    Ok(())
}

/// Stores at a place whether both signals are TRUE.
fn store_both(
    gates: &mut Gates,
    place: usize,
    left: Signal,
    right: Signal,
    slots: &mut [EncodedSlot],
) -> Result<(), AllocError>
    ensures { OnOk result (IsBuilt gates.old gates.new (λ v. slots_at v slots.new ≡ kinds_stored (slots_at v slots.old)
        (store (Some place) (Some (value.Bool (signal_value v left && signal_value v right)))))) }
{
    let both = gates.and(left, right)?;
    put_value(slots, place, EncodedValue::Bool(both));
    Ok(())
}

/// Stores what a coil of this kind stores at a place, by its left link and its memory.
fn store_at(
    gates: &mut Gates,
    kind: CoilKind,
    place: usize,
    link: Signal,
    memory: Signal,
    slots: &mut [EncodedSlot],
) -> Result<(), AllocError>
    ensures { OnOk result (IsBuilt gates.old gates.new (λ v. slots_at v slots.new ≡ kinds_stored (slots_at v slots.old)
        (store (Some place) (option_map value.Bool (coil_value kind (signal_value v link) (signal_value v memory)))))) }
{
    match kind {
        CoilKind::Plain => {
            put_value(slots, place, EncodedValue::Bool(link));
            Ok(())
        }
        CoilKind::Negated => {
            put_value(slots, place, EncodedValue::Bool(link.negated()));
            Ok(())
        }
        CoilKind::Set => store_set(gates, place, link, slots),
        CoilKind::Reset => store_reset(gates, place, link, slots),
        CoilKind::Rise => store_both(gates, place, link, memory.negated(), slots),
        CoilKind::Fall => store_both(gates, place, link.negated(), memory, slots),
    }
}

/// Stores what a coil stores, by its left link and its memory.
fn store_placed(
    gates: &mut Gates,
    coil: &BoundCoil,
    link: Signal,
    memory: Signal,
    slots: &mut [EncodedSlot],
) -> Result<(), AllocError>
    ensures { OnOk result (IsBuilt gates.old gates.new (λ v. slots_at v slots.new ≡ kinds_stored (slots_at v slots.old)
        (store coil.now.place (option_map value.Bool (coil_value coil.now.kind (signal_value v link) (signal_value v memory)))))) }
{
    match coil.place {
        Some(place) => store_at(gates, coil.kind, place, link, memory, slots),
        None => Ok(()),
    }
}

/// The memory of an edge coil becomes its left link.
fn next_memory(kind: CoilKind, link: Signal, memory: Signal) -> Signal
    ensures { (v : ℕ → Bool) → signal_value v result ≡ coil_memory kind (signal_value v link) (signal_value v memory) }
{
    match kind {
        CoilKind::Rise | CoilKind::Fall => link,
        CoilKind::Plain | CoilKind::Negated | CoilKind::Set | CoilKind::Reset => memory,
    }
}

/// Stores what a coil stores, by its left link and its memory, and then its memory.
fn store_coil(
    gates: &mut Gates,
    coil: &BoundCoil,
    link: Signal,
    memories: &mut [Signal],
    slots: &mut [EncodedSlot],
) -> Result<(), AllocError>
    requires { coil.now.memory < length memories.old }
    ensures { OnOk result (IsBuilt gates.old gates.new (λ v. (slots_at v slots.new
        ≡ kinds_stored (slots_at v slots.old) (bound_store coil.now (signal_value v link) (bits_at v memories.old)))
        × (bits_at v memories.new ≡ bound_memory coil.now (signal_value v link) (bits_at v memories.old)))) }
{
    let memory = memories[coil.memory];
    store_placed(gates, coil, link, memory, slots)?;
    memories[coil.memory] = next_memory(coil.kind, link, memory);
    Ok(())
}

/// Stores the coils in their order, and their memories.
pub(crate) fn store_coils(
    gates: &mut Gates,
    coils: &[BoundCoil],
    links: &[Signal],
    memories: &mut [Signal],
    slots: &mut [EncodedSlot],
) -> Result<(), AllocError>
    requires links { length links.now ≡ length coils.now }
    requires memories { All (λ c. c.memory < length memories.old) coils.now }
    ensures { OnOk result (IsBuilt gates.old gates.new (λ v. (slots_at v slots.new
        ≡ kinds_stored (slots_at v slots.old) (bound_stores coils.now 0 (bits_at v links.now) (bits_at v memories.old)))
        × (bits_at v memories.new ≡ bound_memories coils.now 0 (bits_at v links.now) (bits_at v memories.old)))) }
{
    for k in 0..coils.len() {
        store_coil(gates, &coils[k], links[k], memories, slots)?;
    }
    Ok(())
}
