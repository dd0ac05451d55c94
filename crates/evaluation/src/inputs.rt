use crate::field_input::FieldInput;
use declared_names::{first_value, kind_of_space};
use std::alloc::{AllocError, Global};
use std::marker::Model;
use std::sync::Arc;
use std_blocks::Value;
use words::Address;

/// Field inputs: the listed addresses with their values, in order. They do not change, and copies share them.
#[derive(Drop)]
pub struct Inputs {
    shared: Option<Arc<Vec<FieldInput>>>,
}

impl Model for Inputs {
    ghost use Rattle.std.specs.Prelude.{List, [], unwrap_or};
    ghost use Rattle.std.specs.Option.{option_map};
    ghost use Rattle.evaluation.specs.declared.field_input.FieldInput.{FieldInput};

    ghost Value = { List FieldInput };

    ghost view = { λ i. unwrap_or (option_map (λ listed. listed.value.items) i.shared) [] };
}

ghost use Rattle.std.specs.Prelude.{◌≡◌, ◌↔◌, IsTrue, IfOk};
ghost use Rattle.std.specs.List.{find};
ghost use Rattle.std.specs.Option.{option_map};
ghost use Rattle.evaluation.specs.Inputs.{field_value, address_of, same_address};

impl Inputs {
    /// Inputs that list these. Of an address that is listed twice the first value counts.
    pub fn of(alloc: Global, listed: Vec<FieldInput>) -> Result<Inputs, AllocError>
        ensures { IfOk result (λ inputs. inputs ≡ listed.items) }
    {
        if listed.is_empty() {
            return Ok(Inputs { shared: None });
        }
        Ok(Inputs {
            shared: Some(Arc::new(alloc, listed)?),
        })
    }

    /// The listed addresses with their values.
    pub fn listed(&self) -> &[FieldInput]
        ensures { result.now ≡ self.now }
    {
        match &self.shared {
            Some(listed) => listed.as_slice(),
            None => &[],
        }
    }

    /// The first listed input at an address.
    fn find(&self, address: Address) -> Option<&FieldInput>
        ensures { option_map (λ i. i.now) result ≡ find (λ i. same_address (address_of i) address) self.now }
    {
        self.listed().iter().find(|input| input.is_at(address))
    }

    /// The value at an address; FALSE or 0 where it isn't listed.
    #[tactic(auto, unfolding(crate::specs::Inputs::field_value))]
    pub fn get(&self, address: Address) -> Value
        ensures { result ≡ field_value self.now address }
    {
        match self.find(address) {
            Some(input) => input.value(),
            None => first_value(kind_of_space(address.space)),
        }
    }

    /// Inputs that list the same.
    pub fn try_copy(&self) -> Result<Inputs, AllocError>
        ensures { IfOk result (λ copy. copy ≡ self.now) }
    {
        match &self.shared {
            Some(listed) => Ok(Inputs {
                shared: Some(Arc::try_clone(listed)?),
            }),
            None => Ok(Inputs { shared: None }),
        }
    }

    /// Whether both list the same addresses with the same values in the same order.
    pub fn same(&self, other: &Self) -> bool
        ensures { IsTrue result ↔ (self.now ≡ other.now) }
    {
        are_same(self.listed(), other.listed())
    }
}

fn are_same(listed: &[FieldInput], others: &[FieldInput]) -> bool
    ensures { IsTrue result ↔ (listed.now ≡ others.now) }
{
    listed == others
}
