//! Field addresses far from all others that a resource reads.

ghost use Rattle.std.specs.Prelude.{◌≡◌, ◌++◌, IfOk, OnOk, map, string_bytes};
ghost use Rattle.std.specs.List.{flat_map};
ghost use Rattle.warnings.specs.Far.{address_in, far_source, far_at, far_of_item, far_in, far_of, all_far};
ghost use Rattle.warnings.specs.Sentences.{space_text, address_text};

use crate::numbers::{Numbers, binds_of, is_of_space, numbers_of};
use plant_grammar::{Bind, Item, Name, Resource, SourceName};
use std::alloc::{AllocError, Global};
use thiserror::Error;
use words::{Address, Space, Text};

/// A field address that an instance reads, far from all others of its space that its resource reads.
#[derive(Debug, Drop, Error)]
#[error("{line}: FarAddress")]
pub struct FarAddress {
    /// The number of the line on which the input is named.
    pub line: u64,
    pub resource: Text,
    pub instance: Text,
    pub input: Text,
    pub address: Address,
}

/// What the addresses of a space begin with.
fn space_text(space: Space) -> &'static str
    ensures { result.now ≡ space_text space }
{
    match space {
        Space::Bit => "%IX",
        Space::Word => "%IW",
    }
}

/// An address as it is written.
fn address_text(alloc: Global, address: Address) -> Result<String, AllocError>
    ensures { IfOk result (λ text. string_bytes text ≡ address_text address) }
{
    let space = space_text(address.space);
    let number = address.number;
    format!(in alloc; "{space}{number}")
}

impl FarAddress {
    ghost use Rattle.std.specs.Prelude.{string_bytes};
    ghost use Rattle.warnings.specs.Sentences.{far_reading, far_sentence, instance_text};
    ghost use Rattle.warnings.specs.Far.{address_in};

    /// The instance, as `R.I`.
    #[tactic(auto, unfolding(crate::specs::Sentences::instance_text))]
    fn instance_text(&self, alloc: Global) -> Result<String, AllocError>
        ensures { IfOk result (λ told. string_bytes told ≡ instance_text (address_in self.now)) }
    {
        let mut told = String::from_str(alloc, self.resource.as_str())?;
        told.push_str(".")?;
        told.push_str(self.instance.as_str())?;
        Ok(told)
    }

    /// Which input reads which address.
    #[tactic(auto, unfolding(crate::specs::Sentences::far_reading))]
    fn reading(&self, alloc: Global) -> Result<String, AllocError>
        ensures { IfOk result (λ told. string_bytes told ≡ far_reading (address_in self.now)) }
    {
        let address = address_text(alloc, self.address)?;
        let mut told = self.instance_text(alloc)?;
        told.push_str(" reads ")?;
        told.push_str(address.as_str())?;
        told.push_str(" as its input ")?;
        told.push_str(self.input.as_str())?;
        Ok(told)
    }

    /// What is most likely not meant, and what to do instead.
    pub fn sentence(&self, alloc: Global) -> Result<String, AllocError>
        ensures { IfOk result (λ told. string_bytes told ≡ far_sentence (address_in self.now)) }
    {
        let mut told = self.reading(alloc)?;
        told.push_str(", more than 63 away from each other ")?;
        told.push_str(space_text(self.address.space))?;
        told.push_str(" that ")?;
        told.push_str(self.resource.as_str())?;
        told.push_str(" reads, though two of these are closer together. Check its number.")?;
        Ok(told)
    }
}

/// Adds an input that is bound to a source, if that is an address of this space far from all others of these numbers.
fn push_far(
    found: &mut Vec<FarAddress>,
    space: Space,
    numbers: &Numbers,
    resource: &Name,
    instance: &Name,
    bind: &Bind,
) -> Result<(), AllocError>
    ensures { OnOk result (map address_in found.new.items ≡ map address_in found.old.items ++ far_at space numbers.now resource.now instance.now bind.now) }
{
    let alloc = *found.allocator();
    let SourceName::Field(address) = &bind.source else {
        return Ok(());
    };
    if is_of_space(space, address.space) && numbers.is_far(address.number) {
        found.push(FarAddress {
            line: bind.input.line(),
            resource: resource.try_text(alloc)?,
            instance: instance.try_text(alloc)?,
            input: bind.input.try_text(alloc)?,
            address: *address,
        })?;
    }
    Ok(())
}

fn push_all_far(
    found: &mut Vec<FarAddress>,
    space: Space,
    numbers: &Numbers,
    resource: &Name,
    instance: &Name,
    binds: &[Bind],
) -> Result<(), AllocError>
    ensures { OnOk result (map address_in found.new.items ≡ map address_in found.old.items ++ flat_map (far_at space numbers.now resource.now instance.now) binds.now) }
{
    for bind in binds {
        push_far(found, space, numbers, resource, instance, bind)?;
    }
    Ok(())
}

fn push_far_of_item(
    found: &mut Vec<FarAddress>,
    space: Space,
    numbers: &Numbers,
    resource: &Name,
    item: &Item,
) -> Result<(), AllocError>
    ensures { OnOk result (map address_in found.new.items ≡ map address_in found.old.items ++ far_of_item space numbers.now resource.now item.now) }
{
    match item {
        Item::Task(_) => Ok(()),
        Item::Use(used) => push_all_far(
            found,
            space,
            numbers,
            resource,
            &used.instance,
            binds_of(used),
        ),
    }
}

fn push_far_of_items(
    found: &mut Vec<FarAddress>,
    space: Space,
    numbers: &Numbers,
    resource: &Name,
    items: &[Item],
) -> Result<(), AllocError>
    ensures { OnOk result (map address_in found.new.items ≡ map address_in found.old.items ++ flat_map (far_of_item space numbers.now resource.now) items.now) }
{
    for item in items {
        push_far_of_item(found, space, numbers, resource, item)?;
    }
    Ok(())
}

/// Adds the inputs of a resource that read an address of this space far from all others there.
fn push_far_in(
    found: &mut Vec<FarAddress>,
    space: Space,
    resource: &Resource,
) -> Result<(), AllocError>
    ensures { OnOk result (map address_in found.new.items ≡ map address_in found.old.items ++ far_in space resource.now) }
{
    let alloc = *found.allocator();
    let numbers = numbers_of(alloc, space, &resource.items)?;
    push_far_of_items(found, space, &numbers, &resource.name, &resource.items)
}

/// Adds those of both spaces.
#[tactic(auto, unfolding(crate::specs::Far::far_of))]
fn push_far_of(found: &mut Vec<FarAddress>, resource: &Resource) -> Result<(), AllocError>
    ensures { OnOk result (map address_in found.new.items ≡ map address_in found.old.items ++ far_of resource.now) }
{
    push_far_in(found, Space::Bit, resource)?;
    push_far_in(found, Space::Word, resource)
}

/// The inputs that read an address far from all others of its space that their resource reads: of each resource, bits
/// before words, in the order of the plant's text.
pub fn far_addresses(alloc: Global, resources: &[Resource]) -> Result<Vec<FarAddress>, AllocError>
    ensures { IfOk result (λ found. map address_in found.items ≡ all_far resources.now) }
{
    let mut found = Vec::new(alloc);
    for resource in resources {
        push_far_of(&mut found, resource)?;
    }
    Ok(found)
}
