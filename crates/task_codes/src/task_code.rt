use crate::binding::Binding;
use crate::program_instance::ProgramInstance;
use crate::retained_variable::RetainedVariable;
use crate::task_output::TaskOutput;
use crate::task_ref::TaskRef;
use declared_names::Kind;
use power_flow::Ladder;
use std::marker::Model;

/// The code of a task: its programs in order of declaration, the bound inputs of each, the tasks from which it takes in order of first mention,
/// the kinds expected of the image of each, the task's own outputs, and its retained variables.
#[derive(Drop)]
pub struct TaskCode {
    programs: Vec<ProgramInstance>,
    bindings: Vec<Vec<Binding>>,
    producers: Vec<TaskRef>,
    expected: Vec<Vec<Kind>>,
    outputs: Vec<TaskOutput>,
    retained: Vec<RetainedVariable>,
}

impl Model for TaskCode {
    ghost use Rattle.task_codes.specs.CodeValue.{CodeValue, code_with, IsSoundCode};

    ghost Value = { CodeValue };

    ghost view = { λ c. code_with c.programs c.bindings c.producers c.expected c.outputs c.retained };

    ghost invariant = { λ c. IsSoundCode (code_with c.programs c.bindings c.producers c.expected c.outputs c.retained) };
}

impl TaskCode {
    ghost use Rattle.std.specs.Prelude.{◌≡◌, length, slice_get};
    ghost use Rattle.std.specs.Option.{option_map};
    ghost use Rattle.task_codes.specs.CodeValue.{code_with, IsSoundCode, bindings_at, expected_at};
    ghost use Rattle.task_codes.specs.declared.task_output.TaskOutput.{TaskOutput};
    ghost use Rattle.task_codes.specs.OutputNames.{NamesOutput};

    /// A code of these parts.
    pub fn new(
        programs: Vec<ProgramInstance>,
        bindings: Vec<Vec<Binding>>,
        producers: Vec<TaskRef>,
        expected: Vec<Vec<Kind>>,
        outputs: Vec<TaskOutput>,
        retained: Vec<RetainedVariable>,
    ) -> TaskCode
        requires { IsSoundCode (code_with programs bindings producers expected outputs retained) }
        ensures { result ≡ code_with programs bindings producers expected outputs retained }
    {
        TaskCode {
            programs,
            bindings,
            producers,
            expected,
            outputs,
            retained,
        }
    }

    /// How many programs the task runs.
    pub fn programs(&self) -> usize
        ensures count { result ≡ length self.now.programs }
        ensures sound { IsSoundCode self.now }
    {
        self.programs.len()
    }

    /// The name of the program instance at a position.
    pub fn program_name(&self, i: usize) -> Option<&str>
        ensures { option_map (λ n. n.now) result ≡ option_map (λ p. p.name) (slice_get self.now.programs i) }
    {
        match self.programs.get(i) {
            Some(program) => Some(program.name()),
            None => None,
        }
    }

    /// The ladder of the program at a position.
    pub fn ladder(&self, i: usize) -> Option<&Ladder>
        ensures { option_map (λ l. l.now) result ≡ option_map (λ p. p.ladder) (slice_get self.now.programs i) }
    {
        match self.programs.get(i) {
            Some(program) => Some(program.ladder()),
            None => None,
        }
    }

    /// The places of the retained variables of the program at a position.
    pub fn retained_places(&self, i: usize) -> Option<&[usize]>
        ensures { option_map (λ l. l.now) result ≡ option_map (λ p. p.retained) (slice_get self.now.programs i) }
    {
        match self.programs.get(i) {
            Some(program) => Some(program.retained()),
            None => None,
        }
    }

    /// The bound inputs of the program at a position; empty where there is none.
    pub fn bindings(&self, i: usize) -> &[Binding]
        ensures { result.now ≡ bindings_at self.now i }
    {
        match self.bindings.get(i) {
            Some(bindings) => bindings.as_slice(),
            None => &[],
        }
    }

    /// The tasks from which the task takes, in order of first mention.
    pub fn producers(&self) -> &[TaskRef]
        ensures { result.now ≡ self.now.producers }
    {
        self.producers.as_slice()
    }

    /// The kinds expected of the image of the producer at a position; empty where there is none.
    pub fn expected(&self, producer: usize) -> &[Kind]
        ensures { result.now ≡ expected_at self.now producer }
    {
        match self.expected.get(producer) {
            Some(kinds) => kinds.as_slice(),
            None => &[],
        }
    }

    /// How many outputs the task has.
    pub fn outputs(&self) -> usize
        ensures { result ≡ length self.now.outputs }
    {
        self.outputs.len()
    }

    /// The variables that outlive a restart, programs and variables in order of declaration.
    pub fn retained(&self) -> &[RetainedVariable]
        ensures list { result.now ≡ self.now.retained }
        ensures sound { IsSoundCode self.now }
    {
        self.retained.as_slice()
    }

    /// The output at a position: its program, the place of the variable there, and its kind.
    pub fn output(&self, i: usize) -> Option<TaskOutput>
        ensures { result ≡ slice_get self.now.outputs i }
    {
        self.outputs.get(i).copied()
    }

    /// The output at a position: the position of its program, and the place of the variable there.
    pub fn output_at(&self, i: usize) -> Option<(usize, usize)>
        ensures { result ≡ option_map (λ (o : TaskOutput). (o.program, o.place)) (slice_get self.now.outputs i) }
    {
        match self.outputs.get(i) {
            Some(output) => Some((output.program, output.place)),
            None => None,
        }
    }

    /// The name of the output at a position: the instance's, and the variable's as it was declared.
    pub fn output_name(&self, i: usize) -> Option<(&str, &str)>
        ensures { NamesOutput self.now i result }
    {
        let output = self.outputs.get(i)?;
        let program = self.programs.get(output.program)?;
        let (name, _) = program.ladder().declarations().entry(output.place)?;
        Some((program.name(), name))
    }
}
