ghost use Rattle.std.specs.Prelude.{◌≡◌, IfOk, OnOk, OnErr, []};
ghost use Rattle.evaluation.specs.Inputs.{address_of, same_address};
ghost use Rattle.cycle.specs.Field.{place_of, put, told_over};

use evaluation::{FieldInput, Inputs};
use std::alloc::{AllocError, Global};
use std::marker::Model;
use words::{Address, Space};

/// What the field is: the addresses that were told with their values, each once, in the order in which they were told
/// first. Any other is FALSE or 0.
#[derive(Drop)]
pub struct FieldImage {
    listed: Vec<FieldInput>,
}

impl Model for FieldImage {
    ghost use Rattle.std.specs.Prelude.{List};
    ghost use Rattle.evaluation.specs.declared.field_input.FieldInput.{FieldInput};

    ghost Value = { List FieldInput };

    ghost view = { λ image. image.listed.items };
}

/// Whether an input stands at an address.
fn is_at(input: &FieldInput, address: Address) -> bool
    ensures { result ≡ same_address (address_of input.now) address }
{
    match (*input, address.space) {
        (FieldInput::Bit { number, value: _ }, Space::Bit)
        | (FieldInput::Word { number, value: _ }, Space::Word) => number == address.number,
        _ => false,
    }
}

/// Where the input of an address stands.
fn place_of(listed: &[FieldInput], address: Address) -> Option<usize>
    ensures { result ≡ place_of address listed.now }
{
    listed.iter().position(|input| is_at(input, address))
}

/// Puts an input in the place of the one of its address; where there is none behind all.
fn put(listed: &mut Vec<FieldInput>, input: FieldInput) -> Result<(), AllocError>
    ensures { OnOk result (listed.new.items ≡ put listed.old.items input) }
{
    match place_of(listed, input.address()) {
        Some(place) => {
            listed[place] = input;
            Ok(())
        }
        None => {
            listed.push(input)?;
            Ok(())
        }
    }
}

/// These inputs over those that are listed.
fn told_over(
    alloc: Global,
    listed: &[FieldInput],
    told: &[FieldInput],
) -> Result<Vec<FieldInput>, AllocError>
    ensures { IfOk result (λ after. after.items ≡ told_over listed.now told.now) }
{
    let mut after = Vec::from_slice(alloc, listed)?;
    for input in told {
        put(&mut after, *input)?;
    }
    Ok(after)
}

impl FieldImage {
    /// The field where nothing is told.
    pub fn new(alloc: Global) -> FieldImage
        ensures { result ≡ [] }
    {
        FieldImage {
            listed: Vec::new(alloc),
        }
    }

    /// The addresses that were told, with their values.
    pub fn listed(&self) -> &[FieldInput]
        ensures { result.now ≡ self.now }
    {
        self.listed.as_slice()
    }

    /// Tells what the field is at these addresses from now on. Without memory nothing has changed.
    pub fn tell(&mut self, alloc: Global, told: &Inputs) -> Result<(), AllocError>
        ensures ok { OnOk result (self.new ≡ told_over self.old told.now) }
        ensures err { OnErr result (self.new ≡ self.old) }
    {
        self.listed = told_over(alloc, self.listed.as_slice(), told.listed())?;
        Ok(())
    }

    /// Forgets all that was told, as where a wire breaks.
    pub fn clear(&mut self)
        ensures { self.new ≡ [] }
    {
        self.listed.clear();
    }
}
