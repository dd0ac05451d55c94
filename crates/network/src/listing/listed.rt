ghost use Rattle.std.specs.Prelude.{◌≡◌, IfOk, slice_get};
ghost use Rattle.network.specs.Steps.Listed.{element_seen, element_of, contact_or_wire, coil_or_wire, box_or_wire};

use crate::element::Element;
use crate::element_box::ElementBox;
use crate::listing::copies::{copy_box, copy_symbol};
use drawings::{Coil, Contact, Drawing, DrawnBox, Place};
use std::alloc::{AllocError, Global};
use std::marker::Model;

/// A place of a drawing in 4 bytes.
#[derive(Clone, Copy)]
pub struct ShortPlace {
    pub row: u16,
    pub column: u16,
}

/// An element of a drawing in 8 bytes: its place, or the number of its contact, coil or box in the drawing.
#[derive(Clone, Copy)]
pub enum Entry {
    Wire(ShortPlace),
    Join(ShortPlace),
    Upright(ShortPlace),
    Contact(u32),
    Coil(u32),
    Box(u32),
}

/// An element of a drawing, where contacts, coils and boxes stay in the drawing.
#[derive(Clone, Copy)]
pub enum Seen<'a> {
    Wire(Place),
    Join(Place),
    Upright(Place),
    Contact(&'a Contact),
    Coil(&'a Coil),
    Box(&'a DrawnBox),
}

/// A number in 4 bytes. One that is greater is one for which there is no memory.
pub fn number_of(k: usize) -> Result<u32, AllocError>
    ensures { IfOk result (λ number. number ≡ k) }
{
    u32::try_from(k).map_err(|_fault| AllocError)
}

impl ShortPlace {
    ghost use Rattle.std.specs.Prelude.{◌≡◌, ◌<◌, ◌^◌};
    ghost use Rattle.network.specs.Links.{place};

    pub fn new(at: Place) -> ShortPlace
        requires row { at.row < 2 ^ 16 }
        requires column { at.column < 2 ^ 16 }
        ensures { at ≡ place result.row result.column }
    {
        ShortPlace {
            row: at.row as u16,
            column: at.column as u16,
        }
    }

    fn place(self) -> Place
        ensures { result ≡ place self.row self.column }
    {
        Place {
            row: self.row as usize,
            column: self.column as usize,
        }
    }
}

impl<'a> Seen<'a> {
    ghost use Rattle.std.specs.Prelude.{◌≡◌, IfOk};
    ghost use Rattle.network.specs.Apart.{first_place};
    ghost use Rattle.network.specs.Steps.Listed.{element_seen};

    /// The place itself, the first place of a symbol, or the top left corner of a box.
    pub fn first_place(self) -> Place
        ensures { result ≡ first_place (element_seen self.entry) }
    {
        match self {
            Seen::Wire(at) | Seen::Join(at) | Seen::Upright(at) => at,
            Seen::Contact(contact) => Place {
                row: contact.row,
                column: contact.column,
            },
            Seen::Coil(coil) => Place {
                row: coil.row,
                column: coil.column,
            },
            Seen::Box(drawn) => Place {
                row: drawn.top,
                column: drawn.left,
            },
        }
    }

    /// The element itself, with a copy of what the drawing has of it.
    pub fn copied(self, alloc: Global) -> Result<Element, AllocError>
        ensures { IfOk result (λ e. e ≡ element_seen self.entry) }
    {
        match self {
            Seen::Wire(at) => Ok(Element::Wire(at)),
            Seen::Join(at) => Ok(Element::Join(at)),
            Seen::Upright(at) => Ok(Element::Upright(at)),
            Seen::Contact(contact) => {
                let contact = copy_symbol(alloc, contact)?;
                Ok(Element::Contact(contact))
            }
            Seen::Coil(coil) => {
                let coil = copy_symbol(alloc, coil)?;
                Ok(Element::Coil(coil))
            }
            Seen::Box(drawn) => {
                let drawn = copy_box(alloc, drawn)?;
                let boxed = ElementBox::new(alloc, drawn)?;
                Ok(Element::Box(boxed))
            }
        }
    }
}

/// Where nothing is drawn.
const NOWHERE: Place = Place { row: 0, column: 0 };

fn contact_seen(contacts: &[Contact], number: u32) -> Seen<'_>
    ensures { element_seen result ≡ contact_or_wire (slice_get contacts.now number) }
{
    match contacts.get(number as usize) {
        Some(contact) => Seen::Contact(contact),
        None => Seen::Wire(NOWHERE),
    }
}

fn coil_seen(coils: &[Coil], number: u32) -> Seen<'_>
    ensures { element_seen result ≡ coil_or_wire (slice_get coils.now number) }
{
    match coils.get(number as usize) {
        Some(coil) => Seen::Coil(coil),
        None => Seen::Wire(NOWHERE),
    }
}

fn box_seen(boxes: &[DrawnBox], number: u32) -> Seen<'_>
    ensures { element_seen result ≡ box_or_wire (slice_get boxes.now number) }
{
    match boxes.get(number as usize) {
        Some(drawn) => Seen::Box(drawn),
        None => Seen::Wire(NOWHERE),
    }
}

/// The element of an entry.
pub fn entry_seen(drawing: &Drawing, entry: Entry) -> Seen<'_>
    ensures { element_seen result ≡ element_of drawing.now entry }
{
    match entry {
        Entry::Wire(at) => Seen::Wire(at.place()),
        Entry::Join(at) => Seen::Join(at.place()),
        Entry::Upright(at) => Seen::Upright(at.place()),
        Entry::Contact(number) => contact_seen(drawing.contacts(), number),
        Entry::Coil(number) => coil_seen(drawing.coils(), number),
        Entry::Box(number) => box_seen(drawing.boxes(), number),
    }
}

/// Elements of a drawing, seen by contracts as a list of them; each takes 8 bytes.
#[derive(Drop)]
pub struct Elements<'a> {
    drawing: &'a Drawing,
    entries: Vec<Entry>,
}

impl<'a> Model for Elements<'a> {
    ghost use Rattle.std.specs.Prelude.{List};
    ghost use Rattle.network.specs.declared.element.Element.{Element};
    ghost use Rattle.network.specs.Steps.Listed.{stand_for};

    ghost Value = { List Element };

    ghost view = { λ e. stand_for e.drawing.now e.entries.items };
}

impl<'a> Elements<'a> {
    ghost use Rattle.std.specs.Prelude.{◌≡◌, ◌<◌, Some, length, slice_get};
    ghost use Rattle.network.specs.Steps.Listed.{element_seen, stand_for};

    pub fn new(drawing: &'a Drawing, entries: Vec<Entry>) -> Elements<'a>
        ensures { result ≡ stand_for drawing.now entries.items }
    {
        Elements { drawing, entries }
    }

    pub fn len(&self) -> usize
        ensures { result ≡ length self.now }
    {
        self.entries.len()
    }

    /// The drawing, and the entries.
    pub fn parts(&self) -> (&Drawing, &[Entry])
        ensures { self.now ≡ stand_for result.0.now result.1.now }
    {
        (self.drawing, &self.entries)
    }

    /// The element at a position.
    pub fn at(&self, k: usize) -> Seen<'_>
        requires { k < length self.now }
        ensures { slice_get self.now k ≡ Some (element_seen result) }
    {
        entry_seen(self.drawing, self.entries[k])
    }
}
