ghost use Rattle.std.specs.Prelude.{◌≡◌, ◌<◌, ◌&&◌, ℕ, Bool, IfOk, OnOk, true, length, slice_set};
ghost use Rattle.gates.specs.Signals.{signal_value};
ghost use Rattle.gates.specs.Gates.{IsBuilt, Agrees};
ghost use Rattle.scan_steps.specs.Conducting.{contact_conducts, contact_memory};
ghost use Rattle.scan_steps.specs.Steps.Contacts.{contact_of};
ghost use Rattle.scan_steps.specs.Steps.Passing.{read_rows, read_memories, behind_all, is_conducting};
ghost use Rattle.scan_gates.specs.Encoded.{bits_at, slots_at};
ghost use Rattle.scan_gates.specs.Steps.Pairs.{contact_value, IsPairReadBy};

use crate::contact::Contact;
use crate::encoded::EncodedSlot;
use crate::joining::set_row;
use crate::sources::{source_on, variable_on};
use drawings::ContactKind;
use gates::{Gates, Signal};
use scan_steps::VariableContact;
use std::alloc::AllocError;

/// Whether a contact conducts, by its variable and its memory.
fn conducts(
    gates: &mut Gates,
    kind: ContactKind,
    on: Signal,
    memory: Signal,
) -> Result<Signal, AllocError>
    ensures { IfOk result (λ s. IsBuilt gates.old gates.new
        (λ v. signal_value v s ≡ contact_conducts kind (signal_value v on) (signal_value v memory))) }
{
    match kind {
        ContactKind::Plain => Ok(on),
        ContactKind::Negated => Ok(on.negated()),
        ContactKind::Rise => gates.and(on, memory.negated()),
        ContactKind::Fall => gates.and(on.negated(), memory),
    }
}

fn next_memory(kind: ContactKind, on: Signal, memory: Signal) -> Signal
    ensures { (v : ℕ → Bool) → signal_value v result ≡ contact_memory kind (signal_value v on) (signal_value v memory) }
{
    match kind {
        ContactKind::Plain | ContactKind::Negated => memory,
        ContactKind::Rise | ContactKind::Fall => on,
    }
}

/// Reads a contact: state goes on in its row if it conducts, and its memory is set.
pub(crate) fn read_contact(
    gates: &mut Gates,
    contact: Contact,
    slots: &[EncodedSlot],
    rows: &mut [Signal],
    memories: &mut [Signal],
) -> Result<(), AllocError>
    requires row { contact.row < length rows.old }
    requires memory { contact.memory < length memories.old }
    ensures { OnOk result (IsBuilt gates.old gates.new
        (λ v. (bits_at v rows.new
        ≡ read_rows (contact_value contact) (slots_at v slots.now) (bits_at v rows.old) (bits_at v memories.old))
        × (bits_at v memories.new
        ≡ read_memories (contact_value contact) (slots_at v slots.now) (bits_at v memories.old)))) }
{
    let on = source_on(gates, slots, contact.source);
    let memory = memories[contact.memory];
    let conducting = conducts(gates, contact.kind, on, memory)?;
    let behind = gates.and(rows[contact.row], conducting)?;
    rows[contact.row] = behind;
    memories[contact.memory] = next_memory(contact.kind, on, memory);
    Ok(())
}

/// Whether a contact of a variable conducts.
fn variable_conducts(gates: &Gates, contact: &VariableContact, slots: &[EncodedSlot]) -> Signal
    ensures { (v : ℕ → Bool) → Agrees v gates.now
        → signal_value v result ≡ is_conducting (slots_at v slots.now) contact.now }
{
    let on = variable_on(gates, slots, contact.place as usize);
    if contact.negated { on.negated() } else { on }
}

/// Whether all of these contacts conduct.
pub(crate) fn all_conduct(
    gates: &mut Gates,
    contacts: &[VariableContact],
    slots: &[EncodedSlot],
) -> Result<Signal, AllocError>
    ensures { IfOk result (λ s. IsBuilt gates.old gates.new
        (λ v. signal_value v s ≡ behind_all (slots_at v slots.now) true contacts.now)) }
{
    let mut on = gates.constant(true);
    for contact in contacts {
        let here = variable_conducts(gates, contact, slots);
        on = gates.and(on, here)?;
    }
    Ok(on)
}

/// Reads a contact of a variable that follows the left rail.
pub(crate) fn read_at_rail(
    gates: &mut Gates,
    contact: &VariableContact,
    slots: &[EncodedSlot],
    rows: &mut [Signal],
    memories: &mut [Signal],
) -> Result<(), AllocError>
    requires row { contact.now.row < length rows.old }
    requires memory { contact.now.memory < length memories.old }
    ensures { OnOk result (IsBuilt gates.old gates.new
        (λ v. (bits_at v rows.new ≡ read_rows (contact_of contact.now) (slots_at v slots.now)
        (slice_set (bits_at v rows.old) contact.now.row true) (bits_at v memories.old))
        × (bits_at v memories.new
        ≡ read_memories (contact_of contact.now) (slots_at v slots.now) (bits_at v memories.old)))) }
{
    set_row(gates, rows, contact.row as usize, true);
    read_contact(gates, Contact::of_variable(contact), slots, rows, memories)
}

/// Reads two contacts, one after the other.
pub(crate) fn read_pair(
    gates: &mut Gates,
    first: Contact,
    second: Contact,
    slots: &[EncodedSlot],
    rows: &mut [Signal],
    memories: &mut [Signal],
) -> Result<(), AllocError>
    requires first_row { first.row < length rows.old }
    requires first_memory { first.memory < length memories.old }
    requires second_row { second.row < length rows.old }
    requires second_memory { second.memory < length memories.old }
    ensures { OnOk result (IsBuilt gates.old gates.new
        (λ v. IsPairReadBy (contact_value first) (contact_value second) (slots_at v slots.now)
        (bits_at v rows.old) (bits_at v memories.old) (bits_at v rows.new) (bits_at v memories.new))) }
{
    read_contact(gates, first, slots, rows, memories)?;
    read_contact(gates, second, slots, rows, memories)
}
