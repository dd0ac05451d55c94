ghost use Rattle.std.specs.Prelude.{◌≡◌, IfSome, slice_get};
ghost use Rattle.std.specs.Option.{option_and_then};
ghost use Rattle.std_blocks.specs.declared.pin.Field.{Field};
ghost use Rattle.scan_steps.specs.Values.{is_true};
ghost use Rattle.scan_steps.specs.Slots.{variable_at};
ghost use Rattle.scan_steps.specs.Steps.Sources.{slot_output, source_value};
ghost use Rattle.scan_steps.specs.Steps.Contacts.{contact_source, variable_contact};

use crate::slots::Slots;
use crate::source::Source;
use drawings::ContactKind;
use std::marker::Model;
use std_blocks::Field;

/// What a contact reads at a place of the declarations.
#[derive(Clone, Copy)]
pub enum Reads {
    /// Its name stands for nothing that is read.
    Nothing,
    /// The variable there.
    Variable,
    /// This bit of the outputs of the block there.
    Bit(u8),
    /// The INT among the outputs of the block there, which is never ON.
    Int,
    /// The TIME among the outputs of the block there, which is never ON.
    Time,
}

/// A contact with its name bound.
#[derive(Drop)]
pub struct BoundContact {
    kind: ContactKind,
    row: u8,
    reads: Reads,
    place: u32,
    memory: u32,
}

impl Model for BoundContact {
    ghost use Rattle.scan_steps.specs.Steps.Contacts.{ContactValue, contact_source};

    ghost Value = { ContactValue };

    ghost view = { λ c. record {
      kind = c.kind;
      row = c.row;
      source = contact_source c.reads c.place;
      memory = c.memory;
    } };
}

/// What is read at a source that a name stands for, and at which place; none for another source, or where a number is too large.
fn reads_of(source: Source) -> Option<(Reads, u32)>
    ensures { IfSome result (λ r. contact_source r.0 r.1 ≡ source) }
{
    match source {
        Source::Nothing => Some((Reads::Nothing, 0)),
        Source::Variable(place) => Some((Reads::Variable, u32::try_from(place).ok()?)),
        Source::Output(place, Field::Bit(bit)) => {
            Some((
                Reads::Bit(u8::try_from(bit).ok()?),
                u32::try_from(place).ok()?,
            ))
        }
        Source::Output(place, Field::Int) => Some((Reads::Int, u32::try_from(place).ok()?)),
        Source::Output(place, Field::Time) => Some((Reads::Time, u32::try_from(place).ok()?)),
        Source::Power(_) | Source::Literal(_) => None,
    }
}

/// A contact of a variable that is plain or negated.
#[derive(Clone, Copy)]
pub struct VariableContact {
    pub negated: bool,
    /// Its row, counted from the network's topmost row.
    pub row: u8,
    /// The place of its variable.
    pub place: u32,
    /// The number of its memory among those of the network.
    pub memory: u32,
}

/// Whether the variable at a place is TRUE.
pub fn is_variable_on(slots: &Slots, place: usize) -> bool
    ensures { result ≡ is_true (variable_at slots.now place) }
{
    slots.is_on(place)
}

/// Whether a bit of the outputs of the block at a place is ON.
fn is_bit_on(slots: &Slots, place: usize, bit: usize) -> bool
    ensures { result ≡ is_true (option_and_then (slot_output (Field.Bit bit)) (slice_get slots.now place)) }
{
    match slots.block(place) {
        Some(instance) => matches!(instance.outputs.bits.get(bit), Some(true)),
        None => false,
    }
}

impl BoundContact {
    /// A contact of this source, with its row and the number of its memory; none where a contact's name has no such source, or a number is too large.
    pub fn new(kind: ContactKind, row: u8, source: Source, memory: u32) -> Option<Self>
        ensures { IfSome result (λ c. c ≡ record { kind = kind; row = row; source = source; memory = memory }) }
    {
        let (reads, place) = reads_of(source)?;
        Some(BoundContact {
            kind,
            row,
            reads,
            place,
            memory,
        })
    }

    /// The same contact, if it is plain or negated and its name is that of a variable.
    pub fn as_variable(&self) -> Option<VariableContact>
        ensures { IfSome result (λ v. self.now ≡ variable_contact v.negated v.row v.place v.memory) }
    {
        let Reads::Variable = self.reads else {
            return None;
        };
        let negated = match self.kind {
            ContactKind::Plain => false,
            ContactKind::Negated => true,
            ContactKind::Rise | ContactKind::Fall => return None,
        };
        Some(VariableContact {
            negated,
            row: self.row,
            place: self.place,
            memory: self.memory,
        })
    }

    pub fn kind(&self) -> ContactKind
        ensures { result ≡ self.now.kind }
    {
        self.kind
    }

    /// The row, counted from the network's topmost row.
    pub fn row(&self) -> usize
        ensures { result ≡ self.now.row }
    {
        self.row as usize
    }

    /// The number of its memory among those of the network.
    pub fn memory(&self) -> usize
        ensures { result ≡ self.now.memory }
    {
        self.memory as usize
    }

    /// What it reads.
    pub fn source(&self) -> Source
        ensures { result ≡ self.now.source }
    {
        let place = self.place as usize;
        match self.reads {
            Reads::Nothing => Source::Nothing,
            Reads::Variable => Source::Variable(place),
            Reads::Bit(bit) => Source::Output(place, Field::Bit(bit as usize)),
            Reads::Int => Source::Output(place, Field::Int),
            Reads::Time => Source::Output(place, Field::Time),
        }
    }

    /// Whether what it reads is TRUE.
    pub fn is_on(&self, slots: &Slots) -> bool
        ensures { result ≡ is_true (source_value slots.now self.now.source) }
    {
        if let Reads::Variable = self.reads {
            is_variable_on(slots, self.place as usize)
        } else if let Reads::Bit(bit) = self.reads {
            is_bit_on(slots, self.place as usize, bit as usize)
        } else {
            false
        }
    }
}
