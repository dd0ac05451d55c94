use crate::task_state::TaskState;
use declared_names::{first_value, kind_of};
use power_flow::Snapshot;
use std::alloc::{AllocError, Global};
use std::marker::Model;
use std_blocks::Value;
use task_codes::{RetainedVariable, TaskCode};

/// What outlives a restart of a task: the values of its retained variables, programs and variables in order of declaration.
#[derive(Drop)]
pub struct Retained {
    values: Vec<Value>,
}

impl Model for Retained {
    ghost use Rattle.std.specs.Prelude.{List};
    ghost use Rattle.std_blocks.specs.declared.value.Value.{Value as RetainedValue};

    ghost Value = { List RetainedValue };

    ghost view = { λ r. r.values.items };
}

ghost use Rattle.std.specs.Prelude.{◌≡◌, ◌↔◌, IsTrue, IfOk, map};
ghost use Rattle.declared_names.specs.Kinds.{kind_of, value_first};
ghost use Rattle.task_codes.specs.declared.retained_variable.RetainedVariable.{RetainedVariable};
ghost use Rattle.task_codes.specs.CodeValue.{IsSoundCode};
ghost use Rattle.evaluation.specs.States.{AreStatesOf};
ghost use Rattle.evaluation.specs.Retained.{Suits, initial_retained, retained_value, retained_values};

/// The value of a retained variable.
fn retained_value(states: &[Snapshot], variable: &RetainedVariable) -> Value
    ensures { result ≡ retained_value states.now variable.now }
{
    let found = match states.get(variable.program) {
        Some(state) => state.get(variable.place),
        None => None,
    };
    match found {
        Some(value) => value,
        None => first_value(variable.kind),
    }
}

/// The values of retained variables.
fn values_of(
    alloc: Global,
    variables: &[RetainedVariable],
    states: &[Snapshot],
) -> Result<Vec<Value>, AllocError>
    ensures { IfOk result (λ values. values.items ≡ map (retained_value states.now) variables.now) }
{
    variables
        .iter()
        .map(|variable| retained_value(states, variable))
        .collect(alloc)
}

/// The first values of retained variables.
fn first_values(alloc: Global, variables: &[RetainedVariable]) -> Result<Vec<Value>, AllocError>
    ensures { IfOk result (λ values. values.items ≡ map (λ (v : RetainedVariable). value_first v.kind) variables.now) }
{
    variables
        .iter()
        .map(|variable| first_value(variable.kind))
        .collect(alloc)
}

/// Whether a value is of the kind of a retained variable.
fn is_of(value: Value, variable: RetainedVariable) -> bool
    ensures { IsTrue result ↔ (kind_of value ≡ variable.kind) }
{
    kind_of(value) == variable.kind
}

/// Whether values are of the kinds of retained variables, one for each.
fn are_of(values: &[Value], variables: &[RetainedVariable]) -> bool
    ensures { IsTrue result ↔ (map kind_of values.now ≡ map (λ (v : RetainedVariable). v.kind) variables.now) }
{
    if values.len() != variables.len() {
        return false;
    }
    for i in 0..values.len() {
        if !is_of(values[i], variables[i]) {
            return false;
        }
    }
    true
}

impl Retained {
    /// What a task begins with of which nothing was kept: FALSE, 0 and T#0ms.
    pub fn initial(alloc: Global, code: &TaskCode) -> Result<Retained, AllocError>
        ensures value { IfOk result (λ r. r ≡ initial_retained code.now) }
        ensures suits { IfOk result (Suits code.now) }
    {
        Ok(Retained {
            values: first_values(alloc, code.retained())?,
        })
    }

    /// What a state of a task's code has in its retained variables.
    pub fn of(alloc: Global, code: &TaskCode, state: &TaskState) -> Result<Retained, AllocError>
        requires { AreStatesOf code.now state.now }
        ensures value { IfOk result (λ r. r ≡ retained_values code.now state.now) }
        ensures suits { IfOk result (Suits code.now) }
    {
        Ok(Retained {
            values: values_of(alloc, code.retained(), state.states())?,
        })
    }

    /// These values.
    pub fn from_values(values: Vec<Value>) -> Retained
        ensures { result ≡ values.items }
    {
        Retained { values }
    }

    /// The values in order.
    pub fn values(&self) -> &[Value]
        ensures { result.now ≡ self.now }
    {
        self.values.as_slice()
    }

    /// Whether the values are of the kinds of a code's retained variables, one for each.
    pub fn suits(&self, code: &TaskCode) -> bool
        ensures { IsTrue result ↔ Suits code.now self.now }
    {
        are_of(self.values(), code.retained())
    }

    /// Equal values.
    pub fn try_copy(&self) -> Result<Retained, AllocError>
        ensures { IfOk result (λ copy. copy ≡ self.now) }
    {
        Ok(Retained {
            values: self.values.clone()?,
        })
    }

    /// Equal values of each of several tasks.
    pub fn try_copy_all(alloc: Global, retained: &[Retained]) -> Result<Vec<Retained>, AllocError>
        ensures { IfOk result (λ copies. copies.items ≡ retained.now) }
    {
        let mut copies = Vec::with_capacity(alloc, retained.len())?;
        for of_task in retained {
            copies.push(of_task.try_copy()?)?;
        }
        Ok(copies)
    }
}
