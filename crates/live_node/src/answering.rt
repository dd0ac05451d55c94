//! A node reads line by line. Lines that came together are noted and done one after the other, and answered once all their
//! notes are on the disk.

ghost use Rattle.std.specs.Prelude.{◌≡◌, ℕ, ◌+◌, ◌<◌, ◌≤◌, true, IfOk, IfErr, OnOk, OnErr, List, [], Option, Some, string_bytes};
ghost use Rattle.std.specs.Io.KnownBytes.{Appends};
ghost use Rattle.text_lines.specs.Growing.{GrowsBy};
ghost use Rattle.text_lines.specs.Lines.{TakesSome};
ghost use Rattle.live_node.specs.declared.line_refusal.LineRefusal.TheVariants as refusal;
ghost use Rattle.live_node.specs.Answers.{refused_line};
ghost use Rattle.live_node.specs.Keeping.{HasNotFailed, KeepsAllButOne, KeepsCore};
ghost use Rattle.live_node.specs.LiveNode.{HasAnsweredSoFar, WritesNode};
ghost use Rattle.live_node.specs.NodeAnswers.{a_keeper_gives, keeper_gives, IsAnswered};
ghost use Rattle.live_node.specs.Stops.{LeavesUntold, NotesUnanswered, StopsNode, StopsWithin};
ghost use Rattle.live_node.specs.Syncing.{Grows};
ghost use Rattle.live_node.specs.Steps.Answering.{HasAnsweredNext, IsUnwritten};
ghost use Rattle.live_node.specs.Steps.Together.{HasAnsweredTogether, HasDone, StopsAtThem, StopsBehindDone, told_cause};

use crate::answers::push_refused;
use crate::line_refusal::LineRefusal;
use crate::lines_at_hand::LinesAtHand;
use crate::live_lines::{TakenLine, take_line};
use crate::live_stop::LiveStop;
use crate::node::Node;
use crate::node_stop::NodeStop;
use crate::notes::Notes;
use keepers::Keeper;
use std::alloc::{AllocError, Global};
use std::io::Write;
use text_lines::write_text;
use world::LineSource;

/// How many lines that came together are answered at once, at most.
const MOST_TOGETHER: u64 = 1000;

/// How many bytes of answers wait for one another, at most, but for those of the last line.
const MOST_WAITING: usize = 65_536;

/// How many times a node answers, at most.
const MOST_TIMES: u64 = u64::MAX / MOST_TOGETHER;

/// What a node reads and writes by: a line, a part of a long one, its answer, and the answers that wait.
#[derive(Drop)]
struct Room {
    line: Vec<u8>,
    piece: Vec<u8>,
    answer: String,
    waiting: String,
}

/// Writes answers, and hands them on.
pub(crate) fn hand_on<W: Write>(answers: &str, out: &mut W) -> Result<(), LiveStop>
    ensures whole { OnOk result (Appends (W.contents out.old) (W.contents out.new) answers.now) }
    ensures part { IfErr result (IsUnwritten answers.now (W.contents out.old) (W.contents out.new)) }
{
    write_text(out, answers)?;
    match out.flush() {
        Ok(()) => Ok(()),
        Err(_) => Err(LiveStop::Write),
    }
}

/// Puts an answer behind those that wait.
fn hold(waiting: &mut String, answer: &str) -> Result<(), AllocError>
    ensures held { OnOk result (GrowsBy waiting.old waiting.new answer.now) }
    ensures same { OnErr result (string_bytes waiting.new ≡ string_bytes waiting.old) }
{
    waiting.push_str(answer)
}

/// Does a line; its answer then waits behind those that do. After a stop what waits is as before.
fn do_line<K: Keeper, N: Notes>(
    node: &mut Node<K, N>,
    line: &[u8],
    answer: &mut String,
    waiting: &mut String,
) -> Result<(), NodeStop>
    requires few { node.old.state.lines < 18446744073709551615 }
    requires kept { K.last node.old.keeper ≡ node.old.state.core.incarnation }
    ensures answered { OnOk result (IsAnswered (keeper_gives K.raise_gives node.old.keeper) node.old.state node.new.state line.now
        (N.noted node.old.notes) (N.noted node.new.notes) (string_bytes waiting.old) (string_bytes waiting.new)) }
    ensures stopped { IfErr result (λ why. NotesUnanswered (keeper_gives K.raise_gives node.old.keeper) node.old.state line.now why (N.noted node.old.notes) (N.noted node.new.notes)) }
    ensures same { OnErr result (string_bytes waiting.new ≡ string_bytes waiting.old) }
    ensures stays { Grows (N.synced node.old.notes) (N.synced node.new.notes) }
    ensures kept { OnOk result (K.last node.new.keeper ≡ node.new.state.core.incarnation) }
    ensures keeps { OnOk result (KeepsCore (K.kept_gives node.old.keeper) node.old.state.core → KeepsCore (K.kept_gives node.new.keeper) node.new.state.core) }
    ensures rest { OnErr result (KeepsCore (K.kept_gives node.old.keeper) node.old.state.core → KeepsAllButOne (K.kept_gives node.new.keeper) node.new.state.core) }
{
    answer.clear();
    node.do_line(line, answer)?;
    hold(waiting, answer.as_str())?;
    Ok(())
}

/// Refuses a line that is too long; the refusal then waits. Without memory what waits is as before.
fn refuse_long(answer: &mut String, waiting: &mut String) -> Result<(), AllocError>
    ensures refused { OnOk result (GrowsBy waiting.old waiting.new (refused_line refusal.TooLong)) }
    ensures same { OnErr result (string_bytes waiting.new ≡ string_bytes waiting.old) }
{
    answer.clear();
    push_refused(answer, LineRefusal::TooLong)?;
    hold(waiting, answer.as_str())
}

/// Takes the next line, and does it; its answer then waits behind those that do. Whether more may follow. After a stop what
/// waits is as before.
#[tactic(auto, using(crate::proofs::NextAnswered::next_ended, crate::proofs::NextAnswered::lines_after))]
fn do_next<K: Keeper, N: Notes, L: LineSource, W: Write>(
    node: &mut Node<K, N>,
    room: &mut Room,
    source: &mut L,
    out: &W,
) -> Result<bool, LiveStop>
    requires few { node.old.state.lines < 18446744073709551615 }
    requires kept { K.last node.old.keeper ≡ node.old.state.core.incarnation }
    requires ready { (left : Option (List ℕ)) → TakesSome (L.left source.old) left → L.is_ready left (W.contents out.now) }
    ensures done { IfOk result (HasAnsweredNext (a_keeper_gives K.last K.raise_gives) node.old.state node.new.state
        (L.left source.old) (L.left source.new) (N.noted node.old.notes) (N.noted node.new.notes)
        (Some (string_bytes room.old.waiting)) (Some (string_bytes room.new.waiting))) }
    ensures stopped { IfErr result (StopsWithin (a_keeper_gives K.last K.raise_gives) node.old.state
        (L.left source.old) (L.left source.new) (N.noted node.old.notes) (N.noted node.new.notes)) }
    ensures waits { OnErr result (string_bytes room.new.waiting ≡ string_bytes room.old.waiting) }
    ensures stays { Grows (N.synced node.old.notes) (N.synced node.new.notes) }
    ensures kept { OnOk result (K.last node.new.keeper ≡ node.new.state.core.incarnation) }
    ensures keeps { HasNotFailed result → KeepsCore (K.kept_gives node.old.keeper) node.old.state.core → KeepsCore (K.kept_gives node.new.keeper) node.new.state.core }
    ensures rest { OnErr result (KeepsCore (K.kept_gives node.old.keeper) node.old.state.core → KeepsAllButOne (K.kept_gives node.new.keeper) node.new.state.core) }
    ensures few { OnOk result (node.new.state.lines ≤ node.old.state.lines + 1) }
{
    match take_line(source, &mut room.line, &mut room.piece, out)? {
        TakenLine::End => Ok(false),
        TakenLine::Line { fed } => {
            let line = room.line.as_slice();
            do_line(node, line, &mut room.answer, &mut room.waiting)?;
            Ok(fed)
        }
        TakenLine::TooLong { fed } => {
            refuse_long(&mut room.answer, &mut room.waiting)?;
            Ok(fed)
        }
    }
}

/// Whether the next line has come, and may be done before the answers that wait are written.
fn goes_on<L: LinesAtHand>(source: &L, waiting: &str) -> bool
    ensures { result ≡ true → L.is_at_hand source.now }
{
    source.has_line() && waiting.len() < MOST_WAITING
}

/// Takes the next line and those that have come behind it, and does them; their answers wait. Whether more may follow.
fn do_those_at_hand<K: Keeper, N: Notes, L: LineSource + LinesAtHand, W: Write>(
    node: &mut Node<K, N>,
    room: &mut Room,
    source: &mut L,
    out: &W,
) -> Result<bool, LiveStop>
    requires few { node.old.state.lines + 1000 ≤ 18446744073709551615 }
    requires kept { K.last node.old.keeper ≡ node.old.state.core.incarnation }
    requires ready { (left : Option (List ℕ)) → TakesSome (L.left source.old) left → L.is_ready left (W.contents out.now) }
    requires at_hand { (s : L) (left written : Option (List ℕ)) → L.is_at_hand s → TakesSome (L.left s) left → L.is_ready left written }
    requires none { string_bytes room.old.waiting ≡ [] }
    ensures done { IfOk result (HasDone (a_keeper_gives K.last K.raise_gives) node.old.state node.new.state
        (L.left source.old) (L.left source.new) (N.noted node.old.notes) (N.noted node.new.notes)
        (string_bytes room.new.waiting)) }
    ensures stopped { IfErr result (StopsBehindDone (a_keeper_gives K.last K.raise_gives) node.old.state
        (L.left source.old) (L.left source.new) (N.noted node.old.notes) (N.noted node.new.notes)
        (string_bytes room.new.waiting)) }
    ensures stays { Grows (N.synced node.old.notes) (N.synced node.new.notes) }
    ensures kept { OnOk result (K.last node.new.keeper ≡ node.new.state.core.incarnation) }
    ensures keeps { HasNotFailed result → KeepsCore (K.kept_gives node.old.keeper) node.old.state.core → KeepsCore (K.kept_gives node.new.keeper) node.new.state.core }
    ensures rest { OnErr result (KeepsCore (K.kept_gives node.old.keeper) node.old.state.core → KeepsAllButOne (K.kept_gives node.new.keeper) node.new.state.core) }
    ensures few { OnOk result (node.new.state.lines ≤ node.old.state.lines + 1000) }
{
    for _ in 0..MOST_TOGETHER {
        if !do_next(node, room, source, out)? {
            return Ok(false);
        }
        if !goes_on(source, room.waiting.as_str()) {
            return Ok(true);
        }
    }
    Ok(true)
}

/// Brings to the disk what is noted, and then writes the answers that wait for it.
fn tell<K: Keeper, N: Notes, W: Write>(
    node: &mut Node<K, N>,
    waiting: &str,
    out: &mut W,
) -> Result<(), LiveStop>
    ensures told { OnOk result (Appends (W.contents out.old) (W.contents out.new) waiting.now) }
    ensures synced { OnOk result (N.synced node.new.notes ≡ N.noted node.new.notes) }
    ensures untold { IfErr result (λ stop. LeavesUntold stop waiting.now (N.noted node.new.notes) (N.synced node.new.notes) (W.contents out.old) (W.contents out.new)) }
    ensures noted { N.noted node.new.notes ≡ N.noted node.old.notes }
    ensures stays { Grows (N.synced node.old.notes) (N.synced node.new.notes) }
    ensures state { node.new.state ≡ node.old.state }
    ensures keeper { node.new.keeper ≡ node.old.keeper }
{
    node.sync()?;
    hand_on(waiting, out)
}

/// Why a node stops: for its own cause, else because it couldn't tell what it did, else because it can't read.
fn first_cause(stop: LiveStop, told: Result<(), LiveStop>) -> LiveStop
    ensures { result ≡ told_cause stop told }
{
    match stop {
        LiveStop::Node(_) => stop,
        LiveStop::Read | LiveStop::Write | LiveStop::Memory => match told {
            Ok(()) => stop,
            Err(untold) => untold,
        },
    }
}

/// Takes the next line and those that have come behind it, does them, and answers them together once all that they noted is
/// on the disk. Whether more may follow. After a stop what was done before it is answered still.
fn answer_together<K: Keeper, N: Notes, L: LineSource + LinesAtHand, W: Write>(
    node: &mut Node<K, N>,
    room: &mut Room,
    source: &mut L,
    out: &mut W,
) -> Result<bool, LiveStop>
    requires few { node.old.state.lines + 1000 ≤ 18446744073709551615 }
    requires kept { K.last node.old.keeper ≡ node.old.state.core.incarnation }
    requires synced { N.synced node.old.notes ≡ N.noted node.old.notes }
    requires ready { (left : Option (List ℕ)) → TakesSome (L.left source.old) left → L.is_ready left (W.contents out.old) }
    requires at_hand { (s : L) (left written : Option (List ℕ)) → L.is_at_hand s → TakesSome (L.left s) left → L.is_ready left written }
    ensures answered { IfOk result (HasAnsweredTogether (a_keeper_gives K.last K.raise_gives) node.old.state node.new.state
        (L.left source.old) (L.left source.new) (N.noted node.old.notes) (N.noted node.new.notes)
        (W.contents out.old) (W.contents out.new)) }
    ensures stopped { IfErr result (StopsAtThem (a_keeper_gives K.last K.raise_gives) node.old.state
        (L.left source.old) (L.left source.new) (N.noted node.old.notes) (N.noted node.new.notes) (N.synced node.new.notes)
        (W.contents out.old) (W.contents out.new)) }
    ensures synced { OnOk result (N.synced node.new.notes ≡ N.noted node.new.notes) }
    ensures kept { OnOk result (K.last node.new.keeper ≡ node.new.state.core.incarnation) }
    ensures keeps { HasNotFailed result → KeepsCore (K.kept_gives node.old.keeper) node.old.state.core → KeepsCore (K.kept_gives node.new.keeper) node.new.state.core }
    ensures rest { OnErr result (KeepsCore (K.kept_gives node.old.keeper) node.old.state.core → KeepsAllButOne (K.kept_gives node.new.keeper) node.new.state.core) }
    ensures few { OnOk result (node.new.state.lines ≤ node.old.state.lines + 1000) }
{
    room.waiting.clear();
    match do_those_at_hand(node, room, source, out) {
        Ok(more) => {
            tell(node, room.waiting.as_str(), out)?;
            Ok(more)
        }
        Err(stop) => {
            let told = tell(node, room.waiting.as_str(), out);
            Err(first_cause(stop, told))
        }
    }
}

/// Writes what a node that begun writes at its start, and answers the lines of a source, to its end. Lines that came together
/// are answered together, at most 1,000 of them; the next line is taken only where all answers before are handed on, or where
/// it has come already. Nothing is answered before its note, and all notes before it, are on the disk.
///
/// After a stop all lines before the one that was read last are answered, but those that came together with it, where their
/// notes don't come to the disk or their answers can't be written. The one that was read last isn't answered, nor is it noted,
/// but: after `Node` no more than a beginning of its note is noted.
pub fn live<K: Keeper, N: Notes, L: LineSource + LinesAtHand, W: Write>(
    alloc: Global,
    node: &mut Node<K, N>,
    begun: &str,
    source: &mut L,
    out: &mut W,
) -> Result<(), LiveStop>
    requires fresh { node.old.state.lines ≡ 0 }
    requires kept { K.last node.old.keeper ≡ node.old.state.core.incarnation }
    requires synced { N.synced node.old.notes ≡ N.noted node.old.notes }
    requires turns { (left written : Option (List ℕ))
        → HasAnsweredSoFar (a_keeper_gives K.last K.raise_gives) node.old.state begun.now (L.left source.old) left (W.contents out.old) written
        → L.is_ready left written }
    requires at_hand { (s : L) (left written : Option (List ℕ)) → L.is_at_hand s → TakesSome (L.left s) left → L.is_ready left written }
    ensures ok { OnOk result (WritesNode (a_keeper_gives K.last K.raise_gives) node.old.state node.new.state begun.now
        (L.left source.old) (L.left source.new) (N.noted node.old.notes) (N.noted node.new.notes)
        (W.contents out.old) (W.contents out.new)) }
    ensures synced { OnOk result (N.synced node.new.notes ≡ N.noted node.new.notes) }
    ensures kept { OnOk result (K.last node.new.keeper ≡ node.new.state.core.incarnation) }
    ensures keeps { HasNotFailed result → KeepsCore (K.kept_gives node.old.keeper) node.old.state.core → KeepsCore (K.kept_gives node.new.keeper) node.new.state.core }
    ensures rest { OnErr result (KeepsCore (K.kept_gives node.old.keeper) node.old.state.core → KeepsAllButOne (K.kept_gives node.new.keeper) node.new.state.core) }
    ensures stopped { IfErr result (StopsNode (a_keeper_gives K.last K.raise_gives) node.old.state begun.now
        (L.left source.old) (L.left source.new) (N.noted node.old.notes) (N.noted node.new.notes) (N.synced node.new.notes)
        (W.contents out.old) (W.contents out.new)) }
{
    let mut room = Room {
        line: Vec::new(alloc),
        piece: Vec::new(alloc),
        answer: String::new(alloc),
        waiting: String::new(alloc),
    };
    hand_on(begun, out)?;
    for _ in 0..MOST_TIMES {
        if !answer_together(node, &mut room, source, out)? {
            return Ok(());
        }
    }
    Err(LiveStop::Read)
}
