ghost use Rattle.std.specs.Prelude.{◌≡◌, true, false};
ghost use Rattle.scan_steps.specs.Conducting.{contact_conducts};
ghost use Rattle.scan_steps.specs.Steps.Contacts.{plain_kind};
ghost use Rattle.scan_steps.specs.Steps.Passing.{behind_all};

use crate::bound_contact::{VariableContact, is_variable_on};
use crate::slots::Slots;
use std::alloc::{AllocError, Global};
use std::marker::Model;

/// Contacts of variables, one behind the other in a row. They lie apart on the heap, so that a step has room for them.
#[derive(Drop)]
pub struct Series {
    contacts: Box<Vec<VariableContact>>,
}

impl Model for Series {
    ghost use Rattle.std.specs.Prelude.{List};
    ghost use Rattle.scan_steps.specs.declared.bound_contact.VariableContact.{VariableContact};

    ghost Value = { List VariableContact };

    ghost view = { λ s. s.contacts.value.items };
}

/// Whether a contact that is plain or negated conducts.
pub fn conducts(negated: bool, on: bool) -> bool
    ensures { result ≡ contact_conducts (plain_kind negated) on false }
{
    if negated { !on } else { on }
}

/// Whether all of these contacts conduct.
fn all_conduct(contacts: &[VariableContact], slots: &Slots) -> bool
    ensures { result ≡ behind_all slots.now true contacts.now }
{
    let mut on = true;
    for contact in contacts {
        let here = conducts(
            contact.negated,
            is_variable_on(slots, contact.place as usize),
        );
        on = on && here;
    }
    on
}

impl Series {
    ghost use Rattle.std.specs.Prelude.{◌≡◌, IfOk, true};
    ghost use Rattle.scan_steps.specs.Steps.Passing.{behind_all};

    /// These contacts, on the heap.
    pub fn new(alloc: Global, contacts: Vec<VariableContact>) -> Result<Self, AllocError>
        ensures { IfOk result (λ s. s ≡ contacts.items) }
    {
        let contacts = Box::new(alloc, contacts)?;
        Ok(Series { contacts })
    }

    /// The contacts in order.
    pub fn contacts(&self) -> &[VariableContact]
        ensures { result.now ≡ self.now }
    {
        self.contacts.as_slice()
    }

    /// Whether all of them conduct.
    pub fn is_on(&self, slots: &Slots) -> bool
        ensures { result ≡ behind_all slots.now true self.now }
    {
        all_conduct(&self.contacts, slots)
    }
}
