use crate::gates::Gates;
use crate::signal::Signal;
use std::alloc::AllocError;

impl Gates {
    ghost use Rattle.std.specs.Prelude.{◌≡◌, ◌&&◌, ◌||◌, not, IfOk, if◌then◌else◌};
    ghost use Rattle.gates.specs.Signals.{signal_value};
    ghost use Rattle.gates.specs.Gates.{IsBuilt};

    /// A signal that is TRUE where one of both is.
    pub fn or(&mut self, left: Signal, right: Signal) -> Result<Signal, AllocError>
        ensures { IfOk result (λ s. IsBuilt self.old self.new
            (λ v. signal_value v s ≡ (signal_value v left || signal_value v right))) }
    {
        let neither = self.and(left.negated(), right.negated())?;
        Ok(neither.negated())
    }

    /// A signal that is the first where the condition is TRUE, and the second where it isn't.
    pub fn if_then_else(
        &mut self,
        condition: Signal,
        first: Signal,
        second: Signal,
    ) -> Result<Signal, AllocError>
        ensures { IfOk result (λ s. IsBuilt self.old self.new
            (λ v. signal_value v s ≡ (if signal_value v condition then signal_value v first else signal_value v second))) }
    {
        let chosen = self.and(condition, first)?;
        let not_chosen = self.and(condition.negated(), second)?;
        self.or(chosen, not_chosen)
    }

    /// A signal that is TRUE where just one of both is.
    pub fn xor(&mut self, left: Signal, right: Signal) -> Result<Signal, AllocError>
        ensures { IfOk result (λ s. IsBuilt self.old self.new
            (λ v. signal_value v s ≡ (if signal_value v left then not (signal_value v right) else signal_value v right))) }
    {
        self.if_then_else(left, right.negated(), right)
    }

    /// A signal that is TRUE where both are the same.
    pub fn equal(&mut self, left: Signal, right: Signal) -> Result<Signal, AllocError>
        ensures { IfOk result (λ s. IsBuilt self.old self.new
            (λ v. signal_value v s ≡ (if signal_value v left then signal_value v right else not (signal_value v right)))) }
    {
        self.if_then_else(left, right, right.negated())
    }
}
