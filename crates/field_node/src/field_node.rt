ghost use Rattle.std.specs.Prelude.{◌≡◌, ◌+◌, ◌<◌, ◌≤◌, Some, IfOk, IfErr, OnOk, OnErr, [], string_bytes};
ghost use Rattle.text_lines.specs.Growing.{GrowsBy};
ghost use Rattle.live_node.specs.Keeping.{KeepsAllButOne, KeepsCore};
ghost use Rattle.live_node.specs.NodeAnswers.{keeper_gives};
ghost use Rattle.live_node.specs.Syncing.{Grows};
ghost use Rattle.live_node.specs.declared.node_stop.NodeStop.TheVariants as ends;
ghost use Rattle.cycle.specs.FieldTexts.{cycle_line, ended_line};
ghost use Rattle.cycle.specs.Origins.{verdict_of, word_of_line};
ghost use Rattle.field_node.specs.FieldAnswers.{answering, task_of, AsksOf, IsAnsweredFrom, IsDone, IsInputRefused, IsTold, IsUnanswered, IsUndone, StopsAsked};
ghost use Rattle.field_node.specs.FieldNodes.{inlets_of, AsksNothingBefore, IsCycleWanted, IsSameSetting};

use cycle::{
    Asked, Cycle, FieldImage, FieldRefusal, Inlets, Origin, Verdict, push_cycle_line, push_ended,
    push_field_refused, push_overrun, push_taken, read_input_line, word_of_line,
};
use evaluation::InputFault;
use keepers::Keeper;
use live_node::{Node, NodeStop, Notes};
use plant::Plant;
use std::alloc::{AllocError, Global};
use std::sync::Arc;
use task_codes::TaskRef;

/// A node with what its field is, and its cycle, if it makes its evaluations by itself.
#[derive(Drop)]
pub struct FieldNode<K: Keeper, N: Notes> {
    alloc: Global,
    plant: Arc<Plant>,
    resource: usize,
    has_field: bool,
    node: Node<K, N>,
    field: FieldImage,
    cycle: Option<Cycle>,
}

/// The cycle of a resource, where it is wanted.
fn cycle_of(
    alloc: Global,
    plant: &Plant,
    resource: usize,
    cycles: bool,
) -> Result<Option<Cycle>, AllocError>
    ensures { IfOk result (IsCycleWanted plant.now resource cycles) }
{
    if !cycles {
        return Ok(None);
    }
    let cycle = Cycle::of(alloc, plant.tasks(resource))?;
    Ok(Some(cycle))
}

/// Writes what a line `INPUT` is answered whose words are refused.
fn push_input_fault(fault: InputFault, out: &mut String) -> Result<(), AllocError>
    ensures { OnOk result (IsInputRefused fault (string_bytes out.old) (string_bytes out.new)) }
{
    match fault {
        InputFault::Syntax => push_field_refused(out, FieldRefusal::Syntax),
        InputFault::Twice => push_field_refused(out, FieldRefusal::Twice),
        InputFault::Memory => Err(AllocError),
    }
}

/// Answers a line `INPUT`, which tells what the field is.
fn tell(
    alloc: Global,
    field: &mut FieldImage,
    line: &[u8],
    out: &mut String,
) -> Result<(), AllocError>
    ensures { OnOk result (IsTold field.old field.new line.now (string_bytes out.old) (string_bytes out.new)) }
{
    match read_input_line(alloc, line) {
        Ok(told) => {
            field.tell(alloc, &told)?;
            push_taken(out)
        }
        Err(fault) => push_input_fault(fault, out),
    }
}

/// What a cycle asks for at a reading, where there is one.
fn ask(cycle: &mut Option<Cycle>, reading: u64) -> Option<Asked>
    ensures { AsksOf cycle.old cycle.new reading result }
{
    match cycle {
        Some(cycle) => cycle.ask(reading),
        None => None,
    }
}

impl<K: Keeper, N: Notes> FieldNode<K, N> {
    /// A node of this resource that has begun. Nothing is told of its field, and none of its tasks is evaluated.
    pub fn of(
        alloc: Global,
        plant: Arc<Plant>,
        resource: usize,
        has_field: bool,
        cycles: bool,
        node: Node<K, N>,
    ) -> Result<FieldNode<K, N>, AllocError>
        ensures node { IfOk result (λ f. f.node ≡ node) }
        ensures field { IfOk result (λ f. f.field ≡ []) }
        ensures cycle { IfOk result (λ f. IsCycleWanted plant.value resource cycles f.cycle) }
        ensures plant { IfOk result (λ f. f.plant.value ≡ plant.value) }
        ensures resource { IfOk result (λ f. f.resource ≡ resource) }
        ensures has_field { IfOk result (λ f. f.has_field ≡ has_field) }
    {
        let cycle = cycle_of(alloc, &plant, resource, cycles)?;
        Ok(FieldNode {
            alloc,
            plant,
            resource,
            has_field,
            node,
            field: FieldImage::new(alloc),
            cycle,
        })
    }

    /// Which inputs it has.
    fn inlets(&self) -> Inlets
        ensures { result ≡ inlets_of self.now.has_field self.now.cycle }
    {
        Inlets {
            has_field: self.has_field,
            cycles: self.cycle.is_some(),
        }
    }

    /// What is done with a line that comes by one of its inputs.
    fn verdict(&self, origin: Origin, line: &[u8]) -> Result<Verdict, AllocError>
        ensures { IfOk result (λ verdict. verdict ≡ verdict_of (inlets_of self.now.has_field self.now.cycle) origin (word_of_line line.now)) }
    {
        let word = word_of_line(self.alloc, line)?;
        Ok(self.inlets().verdict(origin, word))
    }

    /// Does a line that comes by one of its inputs, without its line feed: as a node does; as one that tells what the field is;
    /// or it refuses the line, where this input may not say it. Its answer may be told once all that is noted is on the disk.
    /// After a stop the node is at its end.
    #[tactic(auto, using(live_node::specs::Steps::Growing::grows_refl))]
    pub fn do_line(&mut self, origin: Origin, line: &[u8], out: &mut String) -> Result<(), NodeStop>
        requires few { self.old.node.state.lines < 18446744073709551615 }
        requires kept { K.last self.old.node.keeper ≡ self.old.node.state.core.incarnation }
        ensures answered { OnOk result (IsAnsweredFrom (keeper_gives K.raise_gives self.old.node.keeper)
            (verdict_of (inlets_of self.old.has_field self.old.cycle) origin (word_of_line line.now)) line.now
            (answering self.old.node.state self.new.node.state self.old.field self.new.field
            (N.noted self.old.node.notes) (N.noted self.new.node.notes) (string_bytes out.old) (string_bytes out.new))) }
        ensures stopped { IfErr result (λ why. IsUnanswered (keeper_gives K.raise_gives self.old.node.keeper)
            (verdict_of (inlets_of self.old.has_field self.old.cycle) origin (word_of_line line.now)) self.old.node.state line.now why
            (N.noted self.old.node.notes) (N.noted self.new.node.notes)) }
        ensures stays { Grows (N.synced self.old.node.notes) (N.synced self.new.node.notes) }
        ensures kept { OnOk result (K.last self.new.node.keeper ≡ self.new.node.state.core.incarnation) }
        ensures keeps { OnOk result (KeepsCore (K.kept_gives self.old.node.keeper) self.old.node.state.core → KeepsCore (K.kept_gives self.new.node.keeper) self.new.node.state.core) }
        ensures rest { OnErr result (KeepsCore (K.kept_gives self.old.node.keeper) self.old.node.state.core → KeepsAllButOne (K.kept_gives self.new.node.keeper) self.new.node.state.core) }
        ensures few { OnOk result (self.new.node.state.lines ≤ self.old.node.state.lines + 1) }
        ensures cycle { self.new.cycle ≡ self.old.cycle }
        ensures setting { IsSameSetting self.old self.new }
    {
        match self.verdict(origin, line)? {
            Verdict::Answer => self.node.do_line(line, out),
            Verdict::Tell => Ok(tell(self.alloc, &mut self.field, line, out)?),
            Verdict::Refuse(refusal) => Ok(push_field_refused(out, refusal)?),
        }
    }

    /// The task that its cycle asks for.
    fn task_of(&self, asked: Asked) -> TaskRef
        ensures { result ≡ task_of self.now.resource asked }
    {
        TaskRef {
            resource: self.resource,
            task: asked.task,
        }
    }

    /// The line that asks for what its cycle asks for, with what the field is.
    fn line_of(&self, asked: Asked) -> Result<String, AllocError>
        ensures { IfOk result (λ line. string_bytes line ≡ cycle_line self.now.plant.value (task_of self.now.resource asked) asked.dt self.now.field) }
    {
        let mut line = String::new(self.alloc);
        push_cycle_line(
            &mut line,
            &self.plant,
            self.task_of(asked),
            asked.dt,
            self.field.listed(),
        )?;
        Ok(line)
    }

    /// Does the line of what its cycle asks for.
    #[tactic(auto, using(live_node::specs::Steps::Growing::grows_refl))]
    fn do_cycle(&mut self, asked: Asked, out: &mut String) -> Result<(), NodeStop>
        requires few { self.old.node.state.lines < 18446744073709551615 }
        requires kept { K.last self.old.node.keeper ≡ self.old.node.state.core.incarnation }
        ensures done { OnOk result (IsDone (keeper_gives K.raise_gives self.old.node.keeper) self.old.plant.value self.old.resource (Some asked)
            (answering self.old.node.state self.new.node.state self.old.field self.new.field
            (N.noted self.old.node.notes) (N.noted self.new.node.notes) (string_bytes out.old) (string_bytes out.new))) }
        ensures stopped { IfErr result (λ why. IsUndone (keeper_gives K.raise_gives self.old.node.keeper) self.old.plant.value self.old.resource (Some asked) self.old.field self.old.node.state why
            (N.noted self.old.node.notes) (N.noted self.new.node.notes)) }
        ensures stays { Grows (N.synced self.old.node.notes) (N.synced self.new.node.notes) }
        ensures kept { OnOk result (K.last self.new.node.keeper ≡ self.new.node.state.core.incarnation) }
        ensures keeps { OnOk result (KeepsCore (K.kept_gives self.old.node.keeper) self.old.node.state.core → KeepsCore (K.kept_gives self.new.node.keeper) self.new.node.state.core) }
        ensures rest { OnErr result (KeepsCore (K.kept_gives self.old.node.keeper) self.old.node.state.core → KeepsAllButOne (K.kept_gives self.new.node.keeper) self.new.node.state.core) }
        ensures few { OnOk result (self.new.node.state.lines ≤ self.old.node.state.lines + 1) }
        ensures cycle { self.new.cycle ≡ self.old.cycle }
        ensures field { self.new.field ≡ self.old.field }
        ensures setting { IsSameSetting self.old self.new }
    {
        let line = self.line_of(asked)?;
        push_overrun(out, &self.plant, self.task_of(asked), asked.skipped)?;
        self.node.do_line(line.as_bytes(), out)
    }

    /// Makes the evaluation that its cycle asks for at a reading of the clock, in ms since the start, if it asks for one; whether
    /// it does. Its answer may be told once all that is noted is on the disk. After a stop the node is at its end.
    #[tactic(auto, using(live_node::specs::Steps::Growing::grows_refl))]
    pub fn evaluate(&mut self, reading: u64, out: &mut String) -> Result<Option<Asked>, NodeStop>
        requires few { self.old.node.state.lines < 18446744073709551615 }
        requires kept { K.last self.old.node.keeper ≡ self.old.node.state.core.incarnation }
        ensures asks { IfOk result (AsksOf self.old.cycle self.new.cycle reading) }
        ensures done { IfOk result (λ asked. IsDone (keeper_gives K.raise_gives self.old.node.keeper) self.old.plant.value self.old.resource asked
            (answering self.old.node.state self.new.node.state self.old.field self.new.field
            (N.noted self.old.node.notes) (N.noted self.new.node.notes) (string_bytes out.old) (string_bytes out.new))) }
        ensures stopped { IfErr result (λ why. StopsAsked (keeper_gives K.raise_gives self.old.node.keeper) self.old.plant.value self.old.resource self.old.cycle self.new.cycle reading self.old.field self.old.node.state why
            (N.noted self.old.node.notes) (N.noted self.new.node.notes)) }
        ensures stays { Grows (N.synced self.old.node.notes) (N.synced self.new.node.notes) }
        ensures kept { OnOk result (K.last self.new.node.keeper ≡ self.new.node.state.core.incarnation) }
        ensures keeps { OnOk result (KeepsCore (K.kept_gives self.old.node.keeper) self.old.node.state.core → KeepsCore (K.kept_gives self.new.node.keeper) self.new.node.state.core) }
        ensures rest { OnErr result (KeepsCore (K.kept_gives self.old.node.keeper) self.old.node.state.core → KeepsAllButOne (K.kept_gives self.new.node.keeper) self.new.node.state.core) }
        ensures few { OnOk result (self.new.node.state.lines ≤ self.old.node.state.lines + 1) }
        ensures field { self.new.field ≡ self.old.field }
        ensures setting { IsSameSetting self.old self.new }
    {
        match ask(&mut self.cycle, reading) {
            Some(asked) => {
                self.do_cycle(asked, out)?;
                Ok(Some(asked))
            }
            None => Ok(None),
        }
    }

    /// Before this moment, in ms since the start, its cycle asks for nothing; 18,446,744,073,709,551,615 where it asks for
    /// nothing before that.
    pub fn next_due(&self) -> u64
        ensures { AsksNothingBefore result self.now.cycle }
    {
        match &self.cycle {
            Some(cycle) => cycle.next_due(),
            None => u64::MAX,
        }
    }

    /// The field ended: what was told of it is forgotten, and `FIELD ended` written behind what is there.
    pub fn end_field(&mut self, out: &mut String) -> Result<(), AllocError>
        ensures written { OnOk result (GrowsBy out.old out.new ended_line) }
        ensures field { self.new.field ≡ [] }
        ensures node { self.new.node ≡ self.old.node }
        ensures cycle { self.new.cycle ≡ self.old.cycle }
        ensures setting { IsSameSetting self.old self.new }
    {
        self.field.clear();
        push_ended(out)
    }

    /// Brings all that is noted to the disk.
    pub fn sync(&mut self) -> Result<(), NodeStop>
        ensures noted { N.noted self.new.node.notes ≡ N.noted self.old.node.notes }
        ensures synced { OnOk result (N.synced self.new.node.notes ≡ N.noted self.new.node.notes) }
        ensures stays { Grows (N.synced self.old.node.notes) (N.synced self.new.node.notes) }
        ensures stopped { IfErr result (λ why. why ≡ ends.Note) }
        ensures state { self.new.node.state ≡ self.old.node.state }
        ensures keeper { self.new.node.keeper ≡ self.old.node.keeper }
        ensures field { self.new.field ≡ self.old.field }
        ensures cycle { self.new.cycle ≡ self.old.cycle }
        ensures setting { IsSameSetting self.old self.new }
    {
        self.node.sync()
    }

    /// The node, when it has ended.
    pub fn into_node(self) -> Node<K, N>
        ensures { result ≡ self.node }
    {
        self.node
    }
}
