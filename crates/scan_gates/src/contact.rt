ghost use Rattle.std.specs.Prelude.{◌≡◌, ◌+◌};
ghost use Rattle.scan_steps.specs.Steps.Contacts.{contact_of, first_of, second_of, plain_kind, rows_over};
ghost use Rattle.scan_gates.specs.Steps.Pairs.{contact_value};

use drawings::ContactKind;
use scan_steps::{BoundContact, PairPlaces, PairRows, Source, VariableContact};

/// A contact as it is read.
#[derive(Clone, Copy)]
pub(crate) struct Contact {
    pub(crate) kind: ContactKind,
    /// Its row, counted from the network's topmost row.
    pub(crate) row: usize,
    pub(crate) source: Source,
    /// The number of its memory among those of the network.
    pub(crate) memory: usize,
}

fn kind_of(negated: bool) -> ContactKind
    ensures { result ≡ plain_kind negated }
{
    if negated {
        ContactKind::Negated
    } else {
        ContactKind::Plain
    }
}

impl Contact {
    pub(crate) fn of(contact: &BoundContact) -> Contact
        ensures { contact_value result ≡ contact.now }
    {
        Contact {
            kind: contact.kind(),
            row: contact.row(),
            source: contact.source(),
            memory: contact.memory(),
        }
    }

    /// A contact of a variable.
    pub(crate) fn of_variable(contact: &VariableContact) -> Contact
        ensures { contact_value result ≡ contact_of contact.now }
    {
        Contact {
            kind: kind_of(contact.negated),
            row: contact.row as usize,
            source: Source::Variable(contact.place as usize),
            memory: contact.memory as usize,
        }
    }

    /// The first contact of a pair.
    pub(crate) fn first(rows: &PairRows, places: &PairPlaces) -> Contact
        ensures { contact_value result ≡ first_of rows.now places.now }
    {
        Contact {
            kind: kind_of(rows.negated.first()),
            row: rows.first as usize,
            source: Source::Variable(places.first as usize),
            memory: places.memory as usize,
        }
    }

    /// The second contact of a pair.
    pub(crate) fn second(rows: &PairRows, places: &PairPlaces) -> Contact
        ensures { contact_value result ≡ second_of rows.now places.now }
    {
        Contact {
            kind: kind_of(rows.negated.second()),
            row: rows.second as usize,
            source: Source::Variable(places.second as usize),
            memory: places.memory as usize + 1,
        }
    }

    /// The first contact of a pair of plain ones over a row.
    pub(crate) fn first_over(row: u8, places: &PairPlaces) -> Contact
        ensures { contact_value result ≡ first_of (rows_over row) places.now }
    {
        Contact {
            kind: ContactKind::Plain,
            row: row as usize,
            source: Source::Variable(places.first as usize),
            memory: places.memory as usize,
        }
    }

    /// The second one, two rows below.
    pub(crate) fn second_over(row: u8, places: &PairPlaces) -> Contact
        ensures { contact_value result ≡ second_of (rows_over row) places.now }
    {
        Contact {
            kind: ContactKind::Plain,
            row: row as usize + 2,
            source: Source::Variable(places.second as usize),
            memory: places.memory as usize + 1,
        }
    }
}
