use crate::ands::{and_gate, simple_and};
use crate::signal::Signal;
use indexmap::IndexSet;
use std::alloc::{AllocError, Global};
use std::marker::Model;

/// What a variable is.
#[derive(Clone, Copy, Debug, PartialEq, Eq, Hash)]
pub enum Gate {
    /// Always FALSE.
    Off,
    /// An input by its number.
    Input(usize),
    /// TRUE where both signals are.
    And(Signal, Signal),
}

/// Gates, each once: a gate's variable has the number of its place. The first is FALSE.
#[derive(Drop)]
pub struct Gates {
    gates: IndexSet<Gate>,
}

impl Model for Gates {
    ghost use Rattle.std.specs.Prelude.{◌≡◌, List, Some, slice_get};
    ghost use Rattle.gates.specs.declared.gates.Gate.{Gate};
    ghost use Rattle.gates.specs.declared.gates.Gate.TheVariants.{Off};

    ghost Value = { List Gate };

    ghost view = { λ g. g.gates.keys };

    ghost invariant = { λ g. slice_get g.gates.keys 0 ≡ Some Off };
}

impl Gates {
    ghost use Rattle.std.specs.Prelude.{◌≡◌, ◌&&◌, ℕ, Bool, [], ◌∷◌, IfOk, Some, slice_get};
    ghost use Rattle.gates.specs.declared.gates.Gate.TheVariants.{Off, Input};
    ghost use Rattle.gates.specs.Signals.{signal_value};
    ghost use Rattle.gates.specs.Gates.{Agrees, IsBuilt, IsGate};

    /// No gate but the first.
    pub fn new(alloc: Global) -> Result<Gates, AllocError>
        ensures { IfOk result (λ gates. gates ≡ Off ∷ []) }
    {
        let mut gates = IndexSet::new(alloc);
        gates.insert(Gate::Off)?;
        Ok(Gates { gates })
    }

    /// The gates by the numbers of their variables.
    pub fn gates(&self) -> &[Gate]
        ensures { result.now ≡ self.now }
    {
        self.gates.as_slice()
    }

    /// A signal that is always TRUE, or never.
    pub fn constant(&self, on: bool) -> Signal
        ensures { (v : ℕ → Bool) → Agrees v self.now → signal_value v result ≡ on }
    {
        // A proof learns here what the first gate is.
        let _gates = &self.gates;
        Signal {
            variable: 0,
            is_negated: on,
        }
    }

    /// The signal of a gate, which is put at the end unless it is there.
    fn put(&mut self, gate: Gate) -> Result<Signal, AllocError>
        ensures { IfOk result (λ s. IsBuilt self.old self.new (λ v. IsGate (signal_value v s) v gate)) }
    {
        let (variable, _) = self.gates.insert_full(gate)?;
        Ok(Signal {
            variable,
            is_negated: false,
        })
    }

    /// The signal of an input.
    pub fn input(&mut self, number: usize) -> Result<Signal, AllocError>
        ensures { IfOk result (λ s. IsBuilt self.old self.new (λ _. Unit {0})) }
    {
        self.put(Gate::Input(number))
    }

    /// A signal that is TRUE where both are. No gate is made where one is there, or none is needed.
    pub fn and(&mut self, left: Signal, right: Signal) -> Result<Signal, AllocError>
        ensures { IfOk result (λ s. IsBuilt self.old self.new
            (λ v. signal_value v s ≡ (signal_value v left && signal_value v right))) }
    {
        match simple_and(left, right) {
            Some(signal) => {
                // A proof learns here what the first gate is.
                let _gates = &self.gates;
                Ok(signal)
            }
            None => self.put(and_gate(left, right)),
        }
    }
}
