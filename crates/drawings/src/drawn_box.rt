ghost use Rattle.std.specs.Prelude.{◌≡◌, [], ◌∷◌, ◌++◌, IfOk, OnErr, OnOk};

use std::alloc::{AllocError, Global};
use std::marker::Model;
use std_blocks::BlockType;
use words::Text;

/// A side of a box: inputs stand on the left, outputs on the right.
#[derive(Clone, Copy, Debug, PartialEq, Eq)]
pub enum Side {
    Left,
    Right,
}

/// A name, a number or a duration at a pin, and its first column.
#[derive(Debug, Drop)]
pub struct Operand {
    pub text: Text,
    pub column: usize,
}

/// A pin, as it is drawn.
#[derive(Debug, Drop)]
pub struct DrawnPin {
    /// The row, from 1 on.
    pub row: usize,
    pub side: Side,
    /// The word inside the box, an identifier.
    pub name: Text,
    /// The word outside the box, behind the dashes of its row.
    pub operand: Option<Operand>,
}

impl Operand {
    fn try_copy(&self, alloc: Global) -> Result<Operand, AllocError>
        ensures { IfOk result (λ o. o ≡ self.now) }
    {
        Ok(Operand {
            text: self.text.try_copy(alloc)?,
            column: self.column,
        })
    }
}

impl DrawnPin {
    fn try_copy(&self, alloc: Global) -> Result<DrawnPin, AllocError>
        ensures { IfOk result (λ p. p ≡ self.now) }
    {
        let operand = match &self.operand {
            None => None,
            Some(operand) => Some(operand.try_copy(alloc)?),
        };
        Ok(DrawnPin {
            row: self.row,
            side: self.side,
            name: self.name.try_copy(alloc)?,
            operand,
        })
    }
}

/// The pins of a box by row, a left one before a right one; seen by contracts as a list.
#[derive(Debug, Drop)]
pub struct Pins {
    pins: Vec<DrawnPin>,
}

impl Model for Pins {
    ghost use Rattle.std.specs.Prelude.{List};
    ghost use Rattle.drawings.specs.declared.drawn_box.DrawnPin.{DrawnPin};

    ghost Value = { List DrawnPin };

    ghost view = { λ p. p.pins.items };
}

impl Pins {
    /// No pins.
    pub fn new(alloc: Global) -> Pins
        ensures { result ≡ [] }
    {
        Pins {
            pins: Vec::new(alloc),
        }
    }

    /// The pins in order.
    pub fn as_slice(&self) -> &[DrawnPin]
        ensures { result.now ≡ self.now }
    {
        &self.pins
    }

    /// Adds a pin behind the others; where there is no memory, the pins stay as they were.
    pub fn push(&mut self, pin: DrawnPin) -> Result<(), AllocError>
        ensures added { OnOk result (self.new ≡ self.old ++ pin ∷ []) }
        ensures unchanged { OnErr result (self.new ≡ self.old) }
    {
        self.pins.push(pin)?;
        Ok(())
    }

    /// Adds further pins behind these; where there is no memory, the pins stay as they were.
    pub fn append(&mut self, more: Pins) -> Result<(), AllocError>
        ensures added { OnOk result (self.new ≡ self.old ++ more) }
        ensures unchanged { OnErr result (self.new ≡ self.old) }
    {
        let mut pins = more.pins;
        self.pins.append(&mut pins)?;
        Ok(())
    }

    /// A copy.
    pub fn try_copy(&self, alloc: Global) -> Result<Pins, AllocError>
        ensures { IfOk result (λ p. p ≡ self.now) }
    {
        let mut copy = Pins::new(alloc);
        for pin in &self.pins {
            copy.push(pin.try_copy(alloc)?)?;
        }
        Ok(copy)
    }
}

/// A box with its instance's name: `top` and `bottom` are its first and last row, `left` and `right` the columns of its sides.
#[derive(Debug, Drop)]
pub struct DrawnBox {
    pub top: usize,
    pub left: usize,
    pub bottom: usize,
    pub right: usize,
    pub block: BlockType,
    /// The word above the top side, an identifier.
    pub instance: Text,
    pub pins: Pins,
}
