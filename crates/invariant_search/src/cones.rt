use clauses::Literal;
use gates::{Gate, Signal};
use std::alloc::{AllocError, Global};
use transition_systems::TransitionSystem;

/// Variables of gates, each once, and which they are.
#[derive(Drop)]
pub(crate) struct Cone {
    pub(crate) variables: Vec<usize>,
    is_in: Vec<bool>,
}

impl Cone {
    /// None of the variables of these gates.
    fn new(alloc: Global, gates: &[Gate]) -> Result<Cone, AllocError> {
        Ok(Cone {
            variables: Vec::new(alloc),
            is_in: vec![in alloc; false; gates.len()]?,
        })
    }

    /// Whether a variable is in it.
    fn has(&self, variable: usize) -> bool {
        self.is_in.get(variable).copied().unwrap_or(false)
    }

    /// Whether the variables of a clause are.
    pub(crate) fn has_all(&self, clause: &[Literal]) -> bool {
        clause.iter().all(|literal| self.has(literal.variable))
    }

    /// Puts a variable in, unless it is.
    fn put(&mut self, variable: usize) -> Result<(), AllocError> {
        if let Some(is_in) = self.is_in.get_mut(variable) {
            if !*is_in {
                *is_in = true;
                self.variables.push(variable)?;
            }
        }
        Ok(())
    }

    /// Puts the variables of signals in.
    fn put_all(&mut self, signals: &[Signal]) -> Result<(), AllocError> {
        for signal in signals {
            self.put(signal.variable)?;
        }
        Ok(())
    }

    /// Puts in all that its variables are made of.
    fn fill(&mut self, gates: &[Gate]) -> Result<(), AllocError> {
        for place in 0..gates.len() {
            let Some(variable) = self.variables.get(place).copied() else {
                break;
            };
            if let Some(Gate::And(left, right)) = gates.get(variable).copied() {
                self.put(left.variable)?;
                self.put(right.variable)?;
            }
        }
        Ok(())
    }
}

/// The variables of the constraint and of a goal, and all that these are made of.
pub(crate) fn cone_of(
    alloc: Global,
    system: &TransitionSystem,
    goal: &[Signal],
) -> Result<Cone, AllocError> {
    let gates = system.gates.gates();
    let mut cone = Cone::new(alloc, gates)?;
    cone.put(system.constraint.variable)?;
    cone.put_all(goal)?;
    cone.fill(gates)?;
    Ok(cone)
}
