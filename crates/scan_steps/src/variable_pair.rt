ghost use Rattle.std.specs.Prelude.{◌≡◌, ◌<◌, ◌&&◌, IfSome, length};
ghost use Rattle.scan_steps.specs.declared.variable_pair.Negated.{Negated};
ghost use Rattle.scan_steps.specs.Steps.Contacts.{is_first_negated, is_second_negated, first_of, second_of};
ghost use Rattle.scan_steps.specs.Steps.Passing.{IsVariableRead, IsPairRead};

use crate::bound_contact::{BoundContact, is_variable_on};
use crate::slots::Slots;

/// Which contacts of a pair are negated.
#[derive(Clone, Copy)]
pub enum Negated {
    Neither,
    First,
    Second,
    Both,
}

/// The rows of two contacts, counted from the network's topmost row, and which of them are negated.
#[derive(Clone, Copy)]
pub struct PairRows {
    pub negated: Negated,
    pub first: u8,
    pub second: u8,
}

/// The places of the variables of two contacts, and the number of the first one's memory; the second's comes right behind it.
#[derive(Clone, Copy)]
pub struct PairPlaces {
    pub first: u32,
    pub second: u32,
    pub memory: u32,
}

impl Negated {
    fn of(first: bool, second: bool) -> Negated
        ensures first { is_first_negated result ≡ first }
        ensures second { is_second_negated result ≡ second }
    {
        match (first, second) {
            (false, false) => Negated::Neither,
            (true, false) => Negated::First,
            (false, true) => Negated::Second,
            (true, true) => Negated::Both,
        }
    }

    /// Whether the first one is.
    pub fn first(self) -> bool
        ensures { result ≡ is_first_negated self }
    {
        matches!(self, Negated::First | Negated::Both)
    }

    /// Whether the second one is.
    pub fn second(self) -> bool
        ensures { result ≡ is_second_negated self }
    {
        matches!(self, Negated::Second | Negated::Both)
    }
}

/// State goes on in a row behind a contact of the variable at a place, if it conducts.
pub fn read_variable(negated: bool, row: u8, place: u32, slots: &Slots, rows: &mut [bool])
    requires { row < length rows.old }
    ensures { IsVariableRead negated row place slots.now rows.old rows.new }
{
    let row = row as usize;
    let before = rows[row];
    let on = is_variable_on(slots, place as usize);
    if negated {
        rows[row] = before && !on;
    } else {
        rows[row] = before && on;
    }
}

/// These two contacts as a pair, if both are plain or negated contacts of variables, and the second's memory comes right behind the first's.
pub fn pair_of(first: &BoundContact, second: &BoundContact) -> Option<(PairRows, PairPlaces)>
    ensures first { IfSome result (λ p. first_of p.0 p.1 ≡ first.now) }
    ensures second { IfSome result (λ p. second_of p.0 p.1 ≡ second.now) }
{
    let first = first.as_variable()?;
    let second = second.as_variable()?;
    if first.memory.checked_add(1)? != second.memory {
        return None;
    }
    let rows = PairRows {
        negated: Negated::of(first.negated, second.negated),
        first: first.row,
        second: second.row,
    };
    let places = PairPlaces {
        first: first.place,
        second: second.place,
        memory: first.memory,
    };
    Some((rows, places))
}

/// State goes on in the row of each contact of a pair of plain ones that conducts.
fn read_plain_pair(pair: &PairRows, places: &PairPlaces, slots: &Slots, rows: &mut [bool])
    requires plain { pair.now.negated ≡ Negated.Neither }
    requires first { pair.now.first < length rows.old }
    requires second { pair.now.second < length rows.old }
    ensures { IsPairRead pair.now places.now slots.now rows.old rows.new }
{
    let first = is_variable_on(slots, places.first as usize);
    let second = is_variable_on(slots, places.second as usize);
    rows[pair.first as usize] = rows[pair.first as usize] & first;
    rows[pair.second as usize] = rows[pair.second as usize] & second;
}

/// State goes on in the row of each contact of a pair that conducts.
pub fn read_pair(pair: &PairRows, places: &PairPlaces, slots: &Slots, rows: &mut [bool])
    requires first { pair.now.first < length rows.old }
    requires second { pair.now.second < length rows.old }
    ensures { IsPairRead pair.now places.now slots.now rows.old rows.new }
{
    if let Negated::Neither = pair.negated {
        read_plain_pair(pair, places, slots, rows);
    } else {
        read_variable(pair.negated.first(), pair.first, places.first, slots, rows);
        read_variable(
            pair.negated.second(),
            pair.second,
            places.second,
            slots,
            rows,
        );
    }
}
