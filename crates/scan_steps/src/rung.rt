ghost use Rattle.std.specs.Prelude.{◌≡◌, ◌<◌, Bool, All, true, length};
ghost use Rattle.std_blocks.specs.declared.value.Value.TheVariants as value;
ghost use Rattle.scan_steps.specs.Slots.{IsKindAt};
ghost use Rattle.scan_steps.specs.Steps.Passing.{behind_all};
ghost use Rattle.scan_steps.specs.Steps.Storing.{value_put};

use crate::bound_contact::VariableContact;
use crate::series::conducts;
use crate::slots::Slots;

/// A network that is one rung: contacts of variables, one behind the other, and a plain coil.
#[derive(Drop)]
pub struct Rung {
    pub contacts: Vec<VariableContact>,
    /// The place of the coil's variable.
    pub coil: usize,
}

/// Whether all of these contacts conduct, at places that there are.
fn all_conduct(contacts: &[VariableContact], slots: &Slots) -> bool
    requires { All (λ v. v.place < length slots.now) contacts.now }
    ensures { result ≡ behind_all slots.now true contacts.now }
{
    let mut on = true;
    for contact in contacts {
        let here = conducts(contact.negated, slots.is_on_within(contact.place as usize));
        on = on && here;
    }
    on
}

impl Rung {
    /// Stores at the coil whether all contacts conduct.
    pub fn scan(&self, slots: &mut Slots)
        requires contacts { All (λ v. v.place < length slots.old) self.now.contacts.items }
        requires coil { (on : Bool) → IsKindAt slots.old self.now.coil (value.Bool on) }
        ensures { slots.new ≡ value_put slots.old self.now.coil
            (value.Bool (behind_all slots.old true self.now.contacts.items)) }
    {
        let on = all_conduct(&self.contacts, slots);
        slots.set_bool(self.coil, on);
    }
}
