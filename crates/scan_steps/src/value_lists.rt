ghost use Rattle.std.specs.Prelude.{◌≡◌, ◌↔◌, IsTrue, IfOk, length, slice_get, slice_set, slice_index_or, pos};
ghost use Rattle.std.specs.Option.{option_map};
ghost use Rattle.std_blocks.specs.declared.block_type.BlockType.TheVariants.{SR};
ghost use Rattle.scan_steps.specs.First.{instance_first};
ghost use Rattle.scan_steps.specs.Conducting.{bit_at};
ghost use Rattle.scan_steps.specs.Steps.Seats.{slot_at};

use crate::seat::Seat;
use crate::slot::{Instance, Slot};
use lists::are_same_bits;
use std::alloc::{AllocError, Global};
use std::marker::Model;
use std_blocks::{BlockType, Value};

/// The values of each kind, and the blocks. A BOOL stands at its own place, and OFF at the places of all others.
#[derive(Drop)]
pub struct Lists {
    bits: Vec<bool>,
    ints: Vec<i16>,
    times: Vec<u32>,
    blocks: Vec<Instance>,
}

impl Model for Lists {
    ghost use Rattle.scan_steps.specs.Steps.Seats.{ListsValue};

    ghost Value = { ListsValue };

    ghost view = { λ l. record {
      bits = l.bits.items;
      ints = l.ints.items;
      times = l.times.items;
      blocks = l.blocks.items;
    } };
}

/// The same items once more, by one copy of memory.
fn copy_of<T: Copy>(items: &Vec<T>) -> Result<Vec<T>, AllocError>
    ensures { IfOk result (λ copy. copy.items ≡ items.now.items) }
{
    Vec::from_slice(*items.allocator(), items)
}

impl Lists {
    ghost use Rattle.std.specs.Prelude.{◌≡◌, ◌↔◌, ◌<◌, [], ◌++◌, ◌∷◌, true, false, IsTrue, IfOk, OnOk, length, slice_get, slice_set, slice_index_or, pos};
    ghost use Rattle.scan_steps.specs.Steps.Seats.{no_lists, is_kind_of, lists_put, block_in, lists_put_block};
    ghost use Rattle.scan_steps.specs.Slots.{variable_of};

    /// No values and no blocks.
    pub fn new(alloc: Global) -> Self
        ensures { result ≡ no_lists }
    {
        Lists {
            bits: Vec::new(alloc),
            ints: Vec::new(alloc),
            times: Vec::new(alloc),
            blocks: Vec::new(alloc),
        }
    }

    /// One more place, with a BOOL or without one.
    pub fn push_place(&mut self) -> Result<(), AllocError>
        ensures { OnOk result (self.new ≡ record self.old { bits = self.old.bits ++ false ∷ [] }) }
    {
        self.bits.push(false)?;
        Ok(())
    }

    /// One more INT, 0; its number.
    pub fn push_int(&mut self) -> Result<usize, AllocError>
        ensures number { IfOk result (λ n. n ≡ length self.old.ints) }
        ensures pushed { OnOk result (self.new ≡ record self.old { ints = self.old.ints ++ pos 0 ∷ [] }) }
    {
        let number = self.ints.len();
        self.ints.push(0)?;
        Ok(number)
    }

    /// One more TIME, 0; its number.
    pub fn push_time(&mut self) -> Result<usize, AllocError>
        ensures number { IfOk result (λ n. n ≡ length self.old.times) }
        ensures pushed { OnOk result (self.new ≡ record self.old { times = self.old.times ++ 0 ∷ [] }) }
    {
        let number = self.times.len();
        self.times.push(0)?;
        Ok(number)
    }

    /// One more block, before its first step; its number.
    pub fn push_block(&mut self, block: BlockType) -> Result<usize, AllocError>
        ensures number { IfOk result (λ n. n ≡ length self.old.blocks) }
        ensures pushed { OnOk result (self.new ≡ record self.old { blocks = self.old.blocks ++ instance_first block ∷ [] }) }
    {
        let number = self.blocks.len();
        self.blocks.push(Instance::initial(block))?;
        Ok(number)
    }

    /// The same lists once more.
    pub fn try_copy(&self) -> Result<Lists, AllocError>
        ensures { IfOk result (λ copy. copy ≡ self.now) }
    {
        Ok(Lists {
            bits: copy_of(&self.bits)?,
            ints: copy_of(&self.ints)?,
            times: copy_of(&self.times)?,
            blocks: copy_of(&self.blocks)?,
        })
    }

    /// Whether the same BOOLs are TRUE.
    pub fn has_same_bits(&self, other: &Self) -> bool
        ensures { IsTrue result ↔ (self.now.bits ≡ other.now.bits) }
    {
        are_same_bits(&self.bits, &other.bits)
    }

    /// Whether there are BOOLs alone.
    pub fn has_bits_alone(&self) -> bool
        ensures { IsTrue result → (length self.now.ints ≡ 0) × (length self.now.times ≡ 0) × (length self.now.blocks ≡ 0) }
    {
        self.ints.len() == 0 && self.times.len() == 0 && self.blocks.len() == 0
    }

    /// Whether the BOOL at a place is TRUE.
    pub fn is_on(&self, place: usize) -> bool
        ensures { result ≡ bit_at self.now.bits place }
    {
        match self.bits.get(place) {
            Some(on) => *on,
            None => false,
        }
    }

    /// Whether the BOOL at a place that there is is TRUE.
    pub fn bit(&self, place: usize) -> bool
        requires { place < length self.now.bits }
        ensures { result ≡ bit_at self.now.bits place }
    {
        self.bits[place]
    }

    /// The INT of this number.
    pub fn int(&self, number: usize) -> i16
        ensures { result ≡ slice_index_or self.now.ints number (pos 0) }
    {
        match self.ints.get(number) {
            Some(int) => *int,
            None => 0,
        }
    }

    /// The TIME of this number.
    pub fn time(&self, number: usize) -> u32
        ensures { result ≡ slice_index_or self.now.times number 0 }
    {
        match self.times.get(number) {
            Some(time) => *time,
            None => 0,
        }
    }

    /// The block at this seat.
    pub fn block(&self, seat: Seat) -> Option<&Instance>
        ensures { option_map (λ i. i.now) result ≡ block_in self.now seat }
    {
        match seat {
            Seat::Block(number) => self.blocks.get(number),
            Seat::Bool | Seat::Int(_) | Seat::Time(_) => None,
        }
    }

    /// A copy of the block of this number.
    fn block_copy(&self, number: usize) -> Instance
        ensures { result ≡ slice_index_or self.now.blocks number (instance_first SR) }
    {
        match self.blocks.get(number) {
            Some(block) => *block,
            None => Instance::initial(BlockType::SR),
        }
    }

    /// What stands at a place with this seat.
    pub fn slot(&self, place: usize, seat: Seat) -> Slot
        ensures { result ≡ slot_at self.now place seat }
    {
        match seat {
            Seat::Bool => Slot::Variable(Value::Bool(self.is_on(place))),
            Seat::Int(number) => Slot::Variable(Value::Int(self.int(number))),
            Seat::Time(number) => Slot::Variable(Value::Time(self.time(number))),
            Seat::Block(number) => Slot::Block(self.block_copy(number)),
        }
    }

    /// The value at a place with this seat, if it is a variable's.
    pub fn variable(&self, place: usize, seat: Seat) -> Option<Value>
        ensures { result ≡ variable_of (slot_at self.now place seat) }
    {
        match seat {
            Seat::Bool => Some(Value::Bool(self.is_on(place))),
            Seat::Int(number) => Some(Value::Int(self.int(number))),
            Seat::Time(number) => Some(Value::Time(self.time(number))),
            Seat::Block(_) => None,
        }
    }

    /// Changes the value at a place with this seat, if it is of the same kind; whether it is.
    pub fn put(&mut self, place: usize, seat: Seat, value: Value) -> bool
        ensures lists { self.new ≡ lists_put self.old place seat value }
        ensures answer { result ≡ is_kind_of seat value }
    {
        match (seat, value) {
            (Seat::Bool, Value::Bool(on)) => self.put_bit(place, on),
            (Seat::Int(number), Value::Int(int)) => self.put_int(number, int),
            (Seat::Time(number), Value::Time(time)) => self.put_time(number, time),
            _ => false,
        }
    }

    /// Changes the BOOL at a place.
    fn put_bit(&mut self, place: usize, on: bool) -> bool
        ensures lists { self.new ≡ record self.old { bits = slice_set self.old.bits place on } }
        ensures answer { result ≡ true }
    {
        if place < self.bits.len() {
            self.bits[place] = on;
        }
        true
    }

    /// Changes the BOOL at a place that there is.
    pub fn set_bit(&mut self, place: usize, on: bool)
        requires { place < length self.old.bits }
        ensures { self.new ≡ record self.old { bits = slice_set self.old.bits place on } }
    {
        self.bits[place] = on;
    }

    /// Changes the INT of this number.
    fn put_int(&mut self, number: usize, int: i16) -> bool
        ensures lists { self.new ≡ record self.old { ints = slice_set self.old.ints number int } }
        ensures answer { result ≡ true }
    {
        if number < self.ints.len() {
            self.ints[number] = int;
        }
        true
    }

    /// Changes the TIME of this number.
    fn put_time(&mut self, number: usize, time: u32) -> bool
        ensures lists { self.new ≡ record self.old { times = slice_set self.old.times number time } }
        ensures answer { result ≡ true }
    {
        if number < self.times.len() {
            self.times[number] = time;
        }
        true
    }

    /// Changes the block at this seat, if it is a block's.
    pub fn put_block(&mut self, seat: Seat, block: &Instance)
        ensures { self.new ≡ lists_put_block self.old seat block.now }
    {
        if let Seat::Block(number) = seat {
            self.put_instance(number, block);
        }
    }

    /// Changes the block of this number.
    fn put_instance(&mut self, number: usize, block: &Instance)
        ensures { self.new ≡ record self.old { blocks = slice_set self.old.blocks number block.now } }
    {
        if number < self.blocks.len() {
            self.blocks[number] = *block;
        }
    }
}
