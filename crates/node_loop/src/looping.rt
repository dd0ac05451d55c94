//! The loop.

ghost use Rattle.std.specs.Prelude.{◌≡◌, ◌≢◌, ◌+◌, ◌<◌, ◌≤◌, not, true, [], Some, IfOk, IfErr, OnOk, OnErr, string_bytes};
ghost use Rattle.std.specs.Io.KnownBytes.{Appends};
ghost use Rattle.text_lines.specs.Growing.{GrowsBy};
ghost use Rattle.live_node.specs.Keeping.{KeepsAllButOne, KeepsCore};
ghost use Rattle.live_node.specs.NodeAnswers.{a_keeper_gives};
ghost use Rattle.live_node.specs.Syncing.{Grows};
ghost use Rattle.field_node.specs.FieldNodes.{IsSameSetting};
ghost use Rattle.node_loop.specs.Given.{Reads, Takes};
ghost use Rattle.node_loop.specs.Stops.{LeavesUntold};
ghost use Rattle.node_loop.specs.Turns.{is_going};
ghost use Rattle.node_loop.specs.Loops.{condition_of, setting_of, RunsLoop, StopsLoop};
ghost use Rattle.node_loop.specs.Steps.Following.{goes_on, is_going_on, is_over, told_cause, Follows, HandsOn, HasTurned, IsUnwritten, MadeOf, NotMadeOf, Stops, StopsMaking};

use crate::ending::Ending;
use crate::loop_stop::LoopStop;
use crate::told::Told;
use crate::turn_source::TurnSource;
use cycle::{FieldRefusal, Origin, push_field_refused};
use field_node::FieldNode;
use keepers::Keeper;
use live_node::{LiveStop, Notes};
use std::alloc::{AllocError, Global};
use std::io::Write;
use text_lines::write_text;

/// How many turns are made together at most.
const MOST_TOGETHER: u64 = 1000;

/// How many bytes of answers wait for one another, at most, but for those of the last turn.
const MOST_WAITING: usize = 65_536;

/// How many times a loop makes turns together at most.
const TIMES: u64 = u64::MAX / (3 * MOST_TOGETHER);

/// What a loop works by: an answer, and the answers that wait.
#[derive(Drop)]
struct Room {
    answer: String,
    waiting: String,
}

/// What was looked for by the clock.
#[derive(Clone, Copy, Debug)]
enum Looked {
    /// The loop is over.
    Over,
    /// No evaluation is asked for.
    Idle,
    /// One was made.
    Evaluated,
}

impl Looked {
    /// Whether the loop is over.
    fn is_over(self) -> bool
        ensures { result ≡ is_over self }
    {
        match self {
            Looked::Over => true,
            Looked::Idle | Looked::Evaluated => false,
        }
    }
}

/// What was taken of the inputs.
#[derive(Clone, Copy, Debug)]
enum Took {
    /// Nothing waited.
    Nothing,
    /// Something, and more may follow.
    Something,
    /// The end that ends the loop.
    Last,
}

impl Took {
    /// Whether the loop goes on.
    fn goes_on(self) -> bool
        ensures { result ≡ goes_on self }
    {
        match self {
            Took::Nothing | Took::Something => true,
            Took::Last => false,
        }
    }

    /// What was taken of two inputs.
    fn and(self, other: Took) -> Took
        ensures { goes_on result ≡ goes_on other }
    {
        match (self, other) {
            (_, Took::Last) => Took::Last,
            (Took::Nothing, Took::Nothing) => Took::Nothing,
            _ => Took::Something,
        }
    }
}

/// What a turn made.
#[derive(Clone, Copy, Debug)]
enum Turned {
    /// The loop is at its end.
    Ended,
    /// Nothing.
    Idle,
    /// Answers to lines, and no evaluation.
    Answered,
    /// An evaluation.
    Evaluated,
}

impl Turned {
    /// Whether the loop goes on.
    fn goes_on(self) -> bool
        ensures { result ≡ is_going_on self }
    {
        match self {
            Turned::Ended => false,
            Turned::Idle | Turned::Answered | Turned::Evaluated => true,
        }
    }
}

/// Writes an answer, and hands it on: only where all that is noted is on the disk.
fn hand_on<K: Keeper, N: Notes, W: Write>(
    _node: &FieldNode<K, N>,
    answer: &str,
    out: &mut W,
) -> Result<(), LoopStop>
    requires synced { N.synced _node.now.node.notes ≡ N.noted _node.now.node.notes }
    ensures whole { OnOk result (Appends (W.contents out.old) (W.contents out.new) answer.now) }
    ensures part { IfErr result (IsUnwritten answer.now (W.contents out.old) (W.contents out.new)) }
{
    write_text(out, answer)?;
    match out.flush() {
        Ok(()) => Ok(()),
        Err(_) => Err(LoopStop::Live(LiveStop::Write)),
    }
}

/// Puts an answer behind those that wait. Without memory what waits is as before.
fn hold(waiting: &mut String, answer: &str) -> Result<(), AllocError>
    ensures held { OnOk result (GrowsBy waiting.old waiting.new answer.now) }
    ensures same { OnErr result (string_bytes waiting.new ≡ string_bytes waiting.old) }
    ensures some { OnErr result (answer.now ≢ []) }
{
    if answer.is_empty() {
        return Ok(());
    }
    waiting.push_str(answer)
}

/// Makes the evaluation that is asked for at a reading, if one is, and gives its answer in the place of what was in `answer`;
/// whether one is.
fn push_evaluation<K: Keeper, N: Notes>(
    node: &mut FieldNode<K, N>,
    reading: u64,
    answer: &mut String,
) -> Result<bool, LoopStop>
    requires few { node.old.node.state.lines < 18446744073709551615 }
    requires kept { K.last node.old.node.keeper ≡ node.old.node.state.core.incarnation }
    ensures made { OnOk result (MadeOf (a_keeper_gives K.last K.raise_gives) node.old node.new (Reads reading)
        (N.noted node.old.node.notes) (N.noted node.new.node.notes) (string_bytes answer.new)) }
    ensures stopped { IfErr result (NotMadeOf (a_keeper_gives K.last K.raise_gives) node.old (Reads reading) (N.noted node.old.node.notes) (N.noted node.new.node.notes)) }
    ensures stays { Grows (N.synced node.old.node.notes) (N.synced node.new.node.notes) }
    ensures kept { OnOk result (K.last node.new.node.keeper ≡ node.new.node.state.core.incarnation) }
    ensures keeps { OnOk result (KeepsCore (K.kept_gives node.old.node.keeper) node.old.node.state.core → KeepsCore (K.kept_gives node.new.node.keeper) node.new.node.state.core) }
    ensures rest { OnErr result (KeepsCore (K.kept_gives node.old.node.keeper) node.old.node.state.core → KeepsAllButOne (K.kept_gives node.new.node.keeper) node.new.node.state.core) }
    ensures few { OnOk result (node.new.node.state.lines ≤ node.old.node.state.lines + 1) }
{
    answer.clear();
    Ok(node.evaluate(reading, answer)?.is_some())
}

/// Looks at the clock, and makes the evaluation that is asked for then, if one is, and the loop isn't over; its answer waits.
#[tactic(auto, using(live_node::specs::Steps::Growing::grows_refl))]
fn look<K: Keeper, N: Notes, S: TurnSource>(
    node: &mut FieldNode<K, N>,
    ending: Ending,
    room: &mut Room,
    source: &mut S,
) -> Result<Looked, LoopStop>
    requires few { node.old.node.state.lines < 18446744073709551615 }
    requires kept { K.last node.old.node.keeper ≡ node.old.node.state.core.incarnation }
    ensures looked { IfOk result (λ looked. HasTurned (a_keeper_gives K.last K.raise_gives) ending node.old node.new
        (S.given source.old) (S.given source.new) (N.noted node.old.node.notes) (N.noted node.new.node.notes)
        (Some (string_bytes room.old.waiting)) (Some (string_bytes room.new.waiting)) (not (is_over looked))) }
    ensures stopped { IfErr result (StopsMaking (a_keeper_gives K.last K.raise_gives) ending node.old
        (S.given source.old) (S.given source.new) (N.noted node.old.node.notes) (N.noted node.new.node.notes)
        (Some (string_bytes room.old.waiting)) (Some (string_bytes room.new.waiting))) }
    ensures stays { Grows (N.synced node.old.node.notes) (N.synced node.new.node.notes) }
    ensures kept { OnOk result (K.last node.new.node.keeper ≡ node.new.node.state.core.incarnation) }
    ensures keeps { OnOk result (KeepsCore (K.kept_gives node.old.node.keeper) node.old.node.state.core → KeepsCore (K.kept_gives node.new.node.keeper) node.new.node.state.core) }
    ensures rest { OnErr result (KeepsCore (K.kept_gives node.old.node.keeper) node.old.node.state.core → KeepsAllButOne (K.kept_gives node.new.node.keeper) node.new.node.state.core) }
    ensures few { OnOk result (node.new.node.state.lines ≤ node.old.node.state.lines + 1) }
{
    let reading = source.reading()?;
    if reading >= ending.moment() {
        return Ok(Looked::Over);
    }
    let evaluated = push_evaluation(node, reading, &mut room.answer)?;
    hold(&mut room.waiting, room.answer.as_str())?;
    Ok(if evaluated {
        Looked::Evaluated
    } else {
        Looked::Idle
    })
}

/// Gives the answer to what an input told in the place of what was in `answer`.
#[tactic(auto, using(live_node::specs::Steps::Growing::grows_refl))]
fn push_answer<K: Keeper, N: Notes>(
    node: &mut FieldNode<K, N>,
    origin: Origin,
    told: &Told,
    answer: &mut String,
) -> Result<(), LoopStop>
    requires few { node.old.node.state.lines < 18446744073709551615 }
    requires kept { K.last node.old.node.keeper ≡ node.old.node.state.core.incarnation }
    ensures made { OnOk result (MadeOf (a_keeper_gives K.last K.raise_gives) node.old node.new (Takes origin told.now)
        (N.noted node.old.node.notes) (N.noted node.new.node.notes) (string_bytes answer.new)) }
    ensures stopped { IfErr result (NotMadeOf (a_keeper_gives K.last K.raise_gives) node.old (Takes origin told.now) (N.noted node.old.node.notes) (N.noted node.new.node.notes)) }
    ensures stays { Grows (N.synced node.old.node.notes) (N.synced node.new.node.notes) }
    ensures kept { OnOk result (K.last node.new.node.keeper ≡ node.new.node.state.core.incarnation) }
    ensures keeps { OnOk result (KeepsCore (K.kept_gives node.old.node.keeper) node.old.node.state.core → KeepsCore (K.kept_gives node.new.node.keeper) node.new.node.state.core) }
    ensures rest { OnErr result (KeepsCore (K.kept_gives node.old.node.keeper) node.old.node.state.core → KeepsAllButOne (K.kept_gives node.new.node.keeper) node.new.node.state.core) }
    ensures few { OnOk result (node.new.node.state.lines ≤ node.old.node.state.lines + 1) }
{
    answer.clear();
    match (told, origin) {
        (Told::Line(line), _) => Ok(node.do_line(origin, line.as_slice(), answer)?),
        (Told::TooLong, _) => Ok(push_field_refused(answer, FieldRefusal::TooLong)?),
        (Told::End | Told::Unread(_), Origin::Field) => Ok(node.end_field(answer)?),
        (Told::End, Origin::Neighbours) => Ok(()),
        (Told::Unread(fault), Origin::Neighbours) => Err(LoopStop::from(*fault)),
    }
}

/// What was taken, where an input told this.
fn taken_of(ending: Ending, origin: Origin, told: &Told) -> Took
    ensures { goes_on result ≡ is_going ending.closing (Takes origin told.now) }
{
    if told.is_end() && ending.is_closing(origin) {
        Took::Last
    } else {
        Took::Something
    }
}

/// Takes what waits first of an input, if something does; the answer to it waits.
#[tactic(auto, using(live_node::specs::Steps::Growing::grows_refl))]
fn take_one<K: Keeper, N: Notes, S: TurnSource>(
    node: &mut FieldNode<K, N>,
    ending: Ending,
    origin: Origin,
    room: &mut Room,
    source: &mut S,
) -> Result<Took, LoopStop>
    requires few { node.old.node.state.lines < 18446744073709551615 }
    requires kept { K.last node.old.node.keeper ≡ node.old.node.state.core.incarnation }
    ensures taken { IfOk result (λ took. Follows (a_keeper_gives K.last K.raise_gives) ending node.old node.new (goes_on took)
        (S.given source.old) (S.given source.new) (N.noted node.old.node.notes) (N.noted node.new.node.notes)
        (Some (string_bytes room.old.waiting)) (Some (string_bytes room.new.waiting))) }
    ensures stopped { IfErr result (StopsMaking (a_keeper_gives K.last K.raise_gives) ending node.old
        (S.given source.old) (S.given source.new) (N.noted node.old.node.notes) (N.noted node.new.node.notes)
        (Some (string_bytes room.old.waiting)) (Some (string_bytes room.new.waiting))) }
    ensures stays { Grows (N.synced node.old.node.notes) (N.synced node.new.node.notes) }
    ensures kept { OnOk result (K.last node.new.node.keeper ≡ node.new.node.state.core.incarnation) }
    ensures keeps { OnOk result (KeepsCore (K.kept_gives node.old.node.keeper) node.old.node.state.core → KeepsCore (K.kept_gives node.new.node.keeper) node.new.node.state.core) }
    ensures rest { OnErr result (KeepsCore (K.kept_gives node.old.node.keeper) node.old.node.state.core → KeepsAllButOne (K.kept_gives node.new.node.keeper) node.new.node.state.core) }
    ensures few { OnOk result (node.new.node.state.lines ≤ node.old.node.state.lines + 1) }
{
    let Some(told) = source.take(origin) else {
        return Ok(Took::Nothing);
    };
    push_answer(node, origin, &told, &mut room.answer)?;
    hold(&mut room.waiting, room.answer.as_str())?;
    Ok(taken_of(ending, origin, &told))
}

/// Takes what waits first of each input, if something does; the answers to it wait.
fn take_both<K: Keeper, N: Notes, S: TurnSource>(
    node: &mut FieldNode<K, N>,
    ending: Ending,
    room: &mut Room,
    source: &mut S,
) -> Result<Took, LoopStop>
    requires few { node.old.node.state.lines < 18446744073709551614 }
    requires kept { K.last node.old.node.keeper ≡ node.old.node.state.core.incarnation }
    ensures taken { IfOk result (λ took. Follows (a_keeper_gives K.last K.raise_gives) ending node.old node.new (goes_on took)
        (S.given source.old) (S.given source.new) (N.noted node.old.node.notes) (N.noted node.new.node.notes)
        (Some (string_bytes room.old.waiting)) (Some (string_bytes room.new.waiting))) }
    ensures stopped { IfErr result (StopsMaking (a_keeper_gives K.last K.raise_gives) ending node.old
        (S.given source.old) (S.given source.new) (N.noted node.old.node.notes) (N.noted node.new.node.notes)
        (Some (string_bytes room.old.waiting)) (Some (string_bytes room.new.waiting))) }
    ensures stays { Grows (N.synced node.old.node.notes) (N.synced node.new.node.notes) }
    ensures kept { OnOk result (K.last node.new.node.keeper ≡ node.new.node.state.core.incarnation) }
    ensures keeps { OnOk result (KeepsCore (K.kept_gives node.old.node.keeper) node.old.node.state.core → KeepsCore (K.kept_gives node.new.node.keeper) node.new.node.state.core) }
    ensures rest { OnErr result (KeepsCore (K.kept_gives node.old.node.keeper) node.old.node.state.core → KeepsAllButOne (K.kept_gives node.new.node.keeper) node.new.node.state.core) }
    ensures few { OnOk result (node.new.node.state.lines ≤ node.old.node.state.lines + 2) }
{
    let first = take_one(node, ending, Origin::Neighbours, room, source)?;
    if !first.goes_on() {
        return Ok(Took::Last);
    }
    let second = take_one(node, ending, Origin::Field, room, source)?;
    Ok(first.and(second))
}

/// What a turn made that looked for this, and took this.
fn turned_of(looked: Looked, took: Took) -> Turned
    ensures { is_going_on result ≡ goes_on took }
{
    match (looked, took) {
        (_, Took::Last) => Turned::Ended,
        (Looked::Evaluated, _) => Turned::Evaluated,
        (_, Took::Something) => Turned::Answered,
        (_, Took::Nothing) => Turned::Idle,
    }
}

/// A turn: it looks at the clock, makes an evaluation that is due, and answers a line of each input that has one; the answers
/// wait.
fn turn<K: Keeper, N: Notes, S: TurnSource>(
    node: &mut FieldNode<K, N>,
    ending: Ending,
    room: &mut Room,
    source: &mut S,
) -> Result<Turned, LoopStop>
    requires few { node.old.node.state.lines < 18446744073709551613 }
    requires kept { K.last node.old.node.keeper ≡ node.old.node.state.core.incarnation }
    ensures turned { IfOk result (λ turned. HasTurned (a_keeper_gives K.last K.raise_gives) ending node.old node.new
        (S.given source.old) (S.given source.new) (N.noted node.old.node.notes) (N.noted node.new.node.notes)
        (Some (string_bytes room.old.waiting)) (Some (string_bytes room.new.waiting)) (is_going_on turned)) }
    ensures stopped { IfErr result (StopsMaking (a_keeper_gives K.last K.raise_gives) ending node.old
        (S.given source.old) (S.given source.new) (N.noted node.old.node.notes) (N.noted node.new.node.notes)
        (Some (string_bytes room.old.waiting)) (Some (string_bytes room.new.waiting))) }
    ensures stays { Grows (N.synced node.old.node.notes) (N.synced node.new.node.notes) }
    ensures kept { OnOk result (K.last node.new.node.keeper ≡ node.new.node.state.core.incarnation) }
    ensures keeps { OnOk result (KeepsCore (K.kept_gives node.old.node.keeper) node.old.node.state.core → KeepsCore (K.kept_gives node.new.node.keeper) node.new.node.state.core) }
    ensures rest { OnErr result (KeepsCore (K.kept_gives node.old.node.keeper) node.old.node.state.core → KeepsAllButOne (K.kept_gives node.new.node.keeper) node.new.node.state.core) }
    ensures few { OnOk result (node.new.node.state.lines ≤ node.old.node.state.lines + 3) }
{
    let looked = look(node, ending, room, source)?;
    if looked.is_over() {
        return Ok(Turned::Ended);
    }
    let took = take_both(node, ending, room, source)?;
    Ok(turned_of(looked, took))
}

/// Whether another turn may be made before the answers that wait are told.
fn may_follow(turned: Turned, waiting: &str) -> bool
    ensures { result ≡ true → is_going_on turned ≡ true }
{
    match turned {
        Turned::Answered => waiting.len() < MOST_WAITING,
        Turned::Ended | Turned::Idle | Turned::Evaluated => false,
    }
}

/// Makes a turn, and more as long as they only answer lines; the answers wait. What the last one made.
fn make_together<K: Keeper, N: Notes, S: TurnSource>(
    node: &mut FieldNode<K, N>,
    ending: Ending,
    room: &mut Room,
    source: &mut S,
) -> Result<Turned, LoopStop>
    requires few { node.old.node.state.lines + 3000 ≤ 18446744073709551615 }
    requires kept { K.last node.old.node.keeper ≡ node.old.node.state.core.incarnation }
    ensures turned { IfOk result (λ turned. HasTurned (a_keeper_gives K.last K.raise_gives) ending node.old node.new
        (S.given source.old) (S.given source.new) (N.noted node.old.node.notes) (N.noted node.new.node.notes)
        (Some (string_bytes room.old.waiting)) (Some (string_bytes room.new.waiting)) (is_going_on turned)) }
    ensures stopped { IfErr result (StopsMaking (a_keeper_gives K.last K.raise_gives) ending node.old
        (S.given source.old) (S.given source.new) (N.noted node.old.node.notes) (N.noted node.new.node.notes)
        (Some (string_bytes room.old.waiting)) (Some (string_bytes room.new.waiting))) }
    ensures stays { Grows (N.synced node.old.node.notes) (N.synced node.new.node.notes) }
    ensures kept { OnOk result (K.last node.new.node.keeper ≡ node.new.node.state.core.incarnation) }
    ensures keeps { OnOk result (KeepsCore (K.kept_gives node.old.node.keeper) node.old.node.state.core → KeepsCore (K.kept_gives node.new.node.keeper) node.new.node.state.core) }
    ensures rest { OnErr result (KeepsCore (K.kept_gives node.old.node.keeper) node.old.node.state.core → KeepsAllButOne (K.kept_gives node.new.node.keeper) node.new.node.state.core) }
    ensures few { OnOk result (node.new.node.state.lines ≤ node.old.node.state.lines + 3000) }
{
    for _ in 0..MOST_TOGETHER {
        let turned = turn(node, ending, room, source)?;
        if !may_follow(turned, room.waiting.as_str()) {
            return Ok(turned);
        }
    }
    Ok(Turned::Answered)
}

/// Brings to the disk what is noted, and then writes the answers that wait for it.
fn tell<K: Keeper, N: Notes, W: Write>(
    node: &mut FieldNode<K, N>,
    waiting: &str,
    out: &mut W,
) -> Result<(), LoopStop>
    ensures told { OnOk result (HandsOn waiting.now (W.contents out.old) (W.contents out.new)) }
    ensures synced { OnOk result (N.synced node.new.node.notes ≡ N.noted node.new.node.notes) }
    ensures untold { IfErr result (λ stop. LeavesUntold stop waiting.now (N.noted node.new.node.notes) (N.synced node.new.node.notes) (W.contents out.old) (W.contents out.new)) }
    ensures noted { N.noted node.new.node.notes ≡ N.noted node.old.node.notes }
    ensures stays { Grows (N.synced node.old.node.notes) (N.synced node.new.node.notes) }
    ensures state { node.new.node.state ≡ node.old.node.state }
    ensures keeper { node.new.node.keeper ≡ node.old.node.keeper }
    ensures field { node.new.field ≡ node.old.field }
    ensures cycle { node.new.cycle ≡ node.old.cycle }
    ensures setting { IsSameSetting node.old node.new }
{
    node.sync()?;
    if waiting.is_empty() {
        return Ok(());
    }
    hand_on(node, waiting, out)
}

/// Why a loop stops: for the node's own cause, else because it couldn't tell what it made, else for this one.
fn first_cause(stop: LoopStop, told: Result<(), LoopStop>) -> LoopStop
    ensures { result ≡ told_cause stop told }
{
    match stop {
        LoopStop::Live(LiveStop::Node(_)) => stop,
        LoopStop::Live(LiveStop::Read | LiveStop::Write | LiveStop::Memory) | LoopStop::Clock =>
            match told {
                Ok(()) => stop,
                Err(untold) => untold,
            },
    }
}

/// Waits until something comes, is due or ends the loop, where nothing was made.
fn wait_behind<K: Keeper, N: Notes, S: TurnSource>(
    turned: Turned,
    node: &FieldNode<K, N>,
    ending: Ending,
    source: &mut S,
)
    ensures { S.given source.new ≡ S.given source.old }
{
    if let Turned::Idle = turned {
        source.wait(node.next_due().min(ending.moment()));
    }
}

/// Makes turns together, and tells their answers once all that is noted is on the disk; then it waits where the last one made
/// nothing. Whether the loop goes on. After a stop what was made before it is told still.
fn turn_together<K: Keeper, N: Notes, S: TurnSource, W: Write>(
    node: &mut FieldNode<K, N>,
    ending: Ending,
    room: &mut Room,
    source: &mut S,
    out: &mut W,
) -> Result<bool, LoopStop>
    requires few { node.old.node.state.lines + 3000 ≤ 18446744073709551615 }
    requires kept { K.last node.old.node.keeper ≡ node.old.node.state.core.incarnation }
    requires synced { N.synced node.old.node.notes ≡ N.noted node.old.node.notes }
    ensures turned { IfOk result (HasTurned (a_keeper_gives K.last K.raise_gives) ending node.old node.new
        (S.given source.old) (S.given source.new) (N.noted node.old.node.notes) (N.noted node.new.node.notes)
        (W.contents out.old) (W.contents out.new)) }
    ensures stopped { IfErr result (Stops (a_keeper_gives K.last K.raise_gives) ending node.old
        (S.given source.old) (S.given source.new) (N.noted node.old.node.notes) (N.noted node.new.node.notes) (N.synced node.new.node.notes)
        (W.contents out.old) (W.contents out.new)) }
    ensures synced { OnOk result (N.synced node.new.node.notes ≡ N.noted node.new.node.notes) }
    ensures kept { OnOk result (K.last node.new.node.keeper ≡ node.new.node.state.core.incarnation) }
    ensures keeps { OnOk result (KeepsCore (K.kept_gives node.old.node.keeper) node.old.node.state.core → KeepsCore (K.kept_gives node.new.node.keeper) node.new.node.state.core) }
    ensures rest { OnErr result (KeepsCore (K.kept_gives node.old.node.keeper) node.old.node.state.core → KeepsAllButOne (K.kept_gives node.new.node.keeper) node.new.node.state.core) }
    ensures few { OnOk result (node.new.node.state.lines ≤ node.old.node.state.lines + 3000) }
{
    room.waiting.clear();
    match make_together(node, ending, room, source) {
        Ok(turned) => {
            tell(node, room.waiting.as_str(), out)?;
            wait_behind(turned, node, ending, source);
            Ok(turned.goes_on())
        }
        Err(stop) => {
            let told = tell(node, room.waiting.as_str(), out);
            Err(first_cause(stop, told))
        }
    }
}

/// Writes what a node that begun writes at its start, and then makes turns, to the end: at each it makes the evaluation that
/// its cycle asks for at what the clock reads, and answers the first line that waits of each input, by that input. Turns that
/// only answer lines are made together, at most 1,000 of them, and told together, once all that they noted is on the disk.
///
/// After a stop all turns before the last one are made, and told, but those that were made together with it, where their notes
/// don't come to the disk or their answers can't be written. Of the last one nothing is written. A loop that made turns together
/// 6,148,914,691,236,517 times stops with `Clock`.
pub fn run_loop<K: Keeper, N: Notes, S: TurnSource, W: Write>(
    alloc: Global,
    node: &mut FieldNode<K, N>,
    begun: &str,
    ending: Ending,
    source: &mut S,
    out: &mut W,
) -> Result<(), LoopStop>
    requires fresh { node.old.node.state.lines ≡ 0 }
    requires kept { K.last node.old.node.keeper ≡ node.old.node.state.core.incarnation }
    requires synced { N.synced node.old.node.notes ≡ N.noted node.old.node.notes }
    ensures ok { OnOk result (RunsLoop (a_keeper_gives K.last K.raise_gives) (setting_of node.old) ending begun.now
        (condition_of node.old (N.noted node.old.node.notes)) (condition_of node.new (N.noted node.new.node.notes))
        (S.given source.old) (S.given source.new) (W.contents out.old) (W.contents out.new)) }
    ensures setting { OnOk result (IsSameSetting node.old node.new) }
    ensures stopped { IfErr result (StopsLoop (a_keeper_gives K.last K.raise_gives) (setting_of node.old) ending begun.now
        (condition_of node.old (N.noted node.old.node.notes)) (S.given source.old) (S.given source.new)
        (N.noted node.new.node.notes) (N.synced node.new.node.notes) (W.contents out.old) (W.contents out.new)) }
    ensures synced { OnOk result (N.synced node.new.node.notes ≡ N.noted node.new.node.notes) }
    ensures kept { OnOk result (K.last node.new.node.keeper ≡ node.new.node.state.core.incarnation) }
    ensures keeps { OnOk result (KeepsCore (K.kept_gives node.old.node.keeper) node.old.node.state.core → KeepsCore (K.kept_gives node.new.node.keeper) node.new.node.state.core) }
    ensures rest { OnErr result (KeepsCore (K.kept_gives node.old.node.keeper) node.old.node.state.core → KeepsAllButOne (K.kept_gives node.new.node.keeper) node.new.node.state.core) }
{
    let mut room = Room {
        answer: String::new(alloc),
        waiting: String::new(alloc),
    };
    hand_on(node, begun, out)?;
    source.start()?;
    for _ in 0..TIMES {
        if !turn_together(node, ending, &mut room, source, out)? {
            return Ok(());
        }
    }
    Err(LoopStop::Clock)
}
