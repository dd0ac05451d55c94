//! The numbers of field addresses that a resource reads.

ghost use Rattle.std.specs.Prelude.{◌≡◌, ◌++◌, IfOk, OnOk};
ghost use Rattle.std.specs.List.{flat_map, list_any};
ghost use Rattle.plant_grammar.specs.declared.grammar.tree.Bind.{Bind};
ghost use Rattle.warnings.specs.Far.{is_other_near, has_near, is_far, is_of_space, number_of, binds_of, numbers_of_item, numbers_of};

use plant_grammar::{Bind, Item, SourceName, Use};
use std::alloc::{AllocError, Global};
use std::marker::Model;
use words::Space;

/// How far from all others the number of an address may be.
const FAR: u32 = 63;

/// Whether another number is near.
fn is_other_near(number: u16, other: u16) -> bool
    ensures { result ≡ is_other_near number other }
{
    let (n, m) = (number as u32, other as u32);
    m != n && m <= n + FAR && n <= m + FAR
}

/// Whether one of these numbers is another one, and near.
fn has_near(numbers: &[u16], number: u16) -> bool
    ensures { result ≡ has_near numbers.now number }
{
    numbers.iter().any(|other| is_other_near(number, *other))
}

/// Whether two of these numbers are near each other.
fn are_some_near(numbers: &[u16]) -> bool
    ensures { result ≡ list_any (has_near numbers.now) numbers.now }
{
    numbers.iter().any(|number| has_near(numbers, *number))
}

/// The numbers that a resource reads in one space of addresses; seen by contracts as a list.
#[derive(Debug, Drop)]
pub struct Numbers {
    numbers: Vec<u16>,
    /// Whether two of them are near each other.
    are_some_near: bool,
}

impl Model for Numbers {
    ghost use Rattle.std.specs.Prelude.{◌≡◌, ℕ, List};
    ghost use Rattle.std.specs.List.{list_any};
    ghost use Rattle.warnings.specs.Far.{has_near};

    ghost Value = { List ℕ };

    ghost view = { λ n. n.numbers.items };

    ghost invariant = { λ n. n.are_some_near ≡ list_any (has_near n.numbers.items) n.numbers.items };
}

impl Numbers {
    fn new(numbers: Vec<u16>) -> Numbers
        ensures { result ≡ numbers.items }
    {
        let are_some_near = are_some_near(&numbers);
        Numbers {
            numbers,
            are_some_near,
        }
    }

    /// Whether a number is far from each other one, while two others are near each other.
    pub fn is_far(&self, number: u16) -> bool
        ensures { result ≡ is_far self.now number }
    {
        !has_near(&self.numbers, number) && self.are_some_near
    }
}

/// Whether an address is of a space.
pub fn is_of_space(space: Space, found: Space) -> bool
    ensures { result ≡ is_of_space space found }
{
    match (space, found) {
        (Space::Bit, Space::Bit) | (Space::Word, Space::Word) => true,
        (Space::Bit, Space::Word) | (Space::Word, Space::Bit) => false,
    }
}

/// The inputs that an instance binds.
pub fn binds_of(used: &Use) -> &[Bind]
    ensures { result.now ≡ binds_of used.now }
{
    match &used.binds {
        None => &[],
        Some(binds) => binds,
    }
}

/// Adds the number of a source, if it is an address of this space.
fn push_number(numbers: &mut Vec<u16>, space: Space, source: &SourceName) -> Result<(), AllocError>
    ensures { OnOk result (numbers.new.items ≡ numbers.old.items ++ number_of space source.now) }
{
    match source {
        SourceName::Field(address) => {
            if is_of_space(space, address.space) {
                numbers.push(address.number)?;
            }
            Ok(())
        }
        SourceName::Output { .. } => Ok(()),
    }
}

fn push_numbers(numbers: &mut Vec<u16>, space: Space, binds: &[Bind]) -> Result<(), AllocError>
    ensures { OnOk result (numbers.new.items ≡ numbers.old.items ++ flat_map (λ (bind : Bind). number_of space bind.source) binds.now) }
{
    for bind in binds {
        push_number(numbers, space, &bind.source)?;
    }
    Ok(())
}

fn push_numbers_of_item(numbers: &mut Vec<u16>, space: Space, item: &Item) -> Result<(), AllocError>
    ensures { OnOk result (numbers.new.items ≡ numbers.old.items ++ numbers_of_item space item.now) }
{
    match item {
        Item::Task(_) => Ok(()),
        Item::Use(used) => push_numbers(numbers, space, binds_of(used)),
    }
}

/// The numbers that the instances of a resource read in a space.
pub fn numbers_of(alloc: Global, space: Space, items: &[Item]) -> Result<Numbers, AllocError>
    ensures { IfOk result (λ numbers. numbers ≡ numbers_of space items.now) }
{
    let mut numbers = Vec::new(alloc);
    for item in items {
        push_numbers_of_item(&mut numbers, space, item)?;
    }
    Ok(Numbers::new(numbers))
}
