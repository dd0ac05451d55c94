//! The command `node`.

ghost use Rattle.std.specs.Prelude.{◌≡◌, ◌<◌, length, IfOk, IfErr};
ghost use Rattle.live_node.specs.Keeping.{KeepsCore};
ghost use Rattle.live_node.specs.LiveNode.{WritesNode};
ghost use Rattle.live_node.specs.NodeAnswers.{a_keeper_gives};
ghost use Rattle.live_node.specs.Stops.{StopsNode};
ghost use Rattle.console.specs.NodeWords.{NamesResource};
ghost use Rattle.plc_main.specs.NodeCommand.{RunsNode, StopsRunning};

use crate::journal_head::begins_as_journal;
use crate::keeper_faults::{print_lock_fault, print_no_folder, print_resource_faults};
use crate::run_keepers::keeper_in;
use crate::running_alone::{Inputs, is_alone, run_alone};
use console::{
    FAILED, JournalFull, NodeRequest, PreparedNode, Shown, WordRefusal, prepare_node,
    print_word_refusal,
};
use further_files::{FileRow, RowFault, RowNotes, further_file, open_single};
use keepers::{Keeper, MemoryKeeper, ResourceLock};
use live_node::{LenientNotes, LinesAtHand, LiveStop, NoNotes, Node, NodeStop, Notes, live};
use node_loop::{LoopStop, NoClock, ReaderEnds};
use std::alloc::{AllocError, Global};
use std::io::{BufReader, Read, Write};
use std::rt::{Clock, Files};
use std::sync::{Arc, Wait};
use std::{fs, io};
use text_lines::resource_name;

/// Why a node isn't run to the end of its lines.
#[derive(Clone, Copy, Debug, PartialEq, Eq)]
pub enum NodeFault {
    /// What is to be its journal is another text.
    NoJournal,
    /// Its journal isn't opened.
    Journal(RowFault),
    /// It ended before.
    Stop(LoopStop),
    /// There is no thread for an input.
    Unread,
}

impl From<RowFault> for NodeFault {
    fn from(fault: RowFault) -> NodeFault {
        NodeFault::Journal(fault)
    }
}

impl From<LoopStop> for NodeFault {
    fn from(stop: LoopStop) -> NodeFault {
        NodeFault::Stop(stop)
    }
}

impl From<NoClock> for NodeFault {
    fn from(fault: NoClock) -> NodeFault {
        NodeFault::Stop(LoopStop::from(fault))
    }
}

impl From<AllocError> for NodeFault {
    fn from(fault: AllocError) -> NodeFault {
        NodeFault::Stop(LoopStop::from(fault))
    }
}

impl From<LiveStop> for NodeFault {
    fn from(stop: LiveStop) -> NodeFault {
        NodeFault::Stop(LoopStop::Live(stop))
    }
}

/// Writes what a node that begun writes at its start, and answers the lines of a reader, to its end; it answers with the
/// node as it is then, or with its notes and why it stopped.
fn run_begun<K: Keeper, N: Notes, I: Read + LinesAtHand, W: Write>(
    alloc: Global,
    node: Node<K, N>,
    begun: &str,
    input: &mut I,
    writer: &mut W,
) -> Result<Node<K, N>, (N, LiveStop)>
    requires fresh { node.state.lines ≡ 0 }
    requires kept { K.last node.keeper ≡ node.state.core.incarnation }
    requires keeps { KeepsCore (K.kept_gives node.keeper) node.state.core }
    requires synced { N.synced node.notes ≡ N.noted node.notes }
    ensures ok { IfOk result (λ last. WritesNode (a_keeper_gives K.last K.raise_gives) node.state last.state begun.now
        (I.remaining input.old) (I.remaining input.new) (N.noted node.notes) (N.noted last.notes)
        (W.contents writer.old) (W.contents writer.new)) }
    ensures kept { IfOk result (λ last. K.last last.keeper ≡ last.state.core.incarnation) }
    ensures keeps { IfOk result (λ last. KeepsCore (K.kept_gives last.keeper) last.state.core) }
    ensures synced { IfOk result (λ last. N.synced last.notes ≡ N.noted last.notes) }
    ensures stopped { IfErr result (λ e. StopsNode (a_keeper_gives K.last K.raise_gives) node.state begun.now
        (I.remaining input.old) (I.remaining input.new) (N.noted node.notes) (N.noted e.0) (N.synced e.0)
        (W.contents writer.old) (W.contents writer.new) e.1) }
{
    let mut node = node;
    match live(alloc, &mut node, begun, input, writer) {
        Ok(()) => Ok(node),
        Err(stop) => Err((node.into_notes(), stop)),
    }
}

/// Starts a node, and answers the lines of a reader, to its end; it answers with the node as it is then.
///
/// Before a stop all lines are answered but the one that was read last, and but those that came together with it, where they
/// can't be. Nothing is written of what a node writes that doesn't start. The notes come back then.
fn run_node<K: Keeper, N: Notes, I: Read + LinesAtHand, W: Write>(
    alloc: Global,
    prepared: PreparedNode,
    keeper: K,
    notes: N,
    input: &mut I,
    writer: &mut W,
) -> Result<Node<K, N>, (N, LiveStop)>
    requires { prepared.resource < length prepared.plant.value.resources }
    ensures ok { IfOk result (λ node. RunsNode K.last K.raise_gives K.kept_gives keeper prepared.plant.value prepared.resource node.state
        (I.remaining input.old) (I.remaining input.new) (N.noted notes) (N.noted node.notes)
        (W.contents writer.old) (W.contents writer.new)) }
    ensures kept { IfOk result (λ node. K.last node.keeper ≡ node.state.core.incarnation) }
    ensures keeps { IfOk result (λ node. KeepsCore (K.kept_gives node.keeper) node.state.core) }
    ensures synced { IfOk result (λ node. N.synced node.notes ≡ N.noted node.notes) }
    ensures stopped { IfErr result (λ e. StopsRunning K.last K.raise_gives K.kept_gives keeper prepared.plant.value prepared.resource
        (I.remaining input.old) (I.remaining input.new) (N.noted notes) (N.noted e.0) (N.synced e.0)
        (W.contents writer.old) (W.contents writer.new) e.1) }
{
    let PreparedNode { plant, resource } = prepared;
    let mut begun = String::new(alloc);
    match Node::begin(alloc, plant, resource, keeper, notes, &mut begun) {
        Ok(node) => run_begun(alloc, node, begun.as_str(), input, writer),
        Err((notes, stop)) => Err((notes, LiveStop::Node(stop))),
    }
}

/// Runs a node on standard input and output, line by line.
fn run_lines<R: Input + Print + AllocGlobal, K: Keeper, N: Notes>(
    rt: &R,
    prepared: PreparedNode,
    keeper: K,
    notes: N,
) -> Result<(), NodeFault>
    requires { prepared.resource < length prepared.plant.value.resources }
{
    let Ok(mut input) = BufReader::new(rt.alloc(), rt.reader()) else {
        return Err(NodeFault::from(LiveStop::Memory));
    };
    let mut writer = io::writer(rt);
    match run_node(rt.alloc(), prepared, keeper, notes, &mut input, &mut writer) {
        Ok(_node) => Ok(()),
        Err((_notes, stop)) => Err(NodeFault::from(stop)),
    }
}

/// Runs a node, line by line or by itself.
fn run_with<
    R: Clock + Input + Print + AllocGlobal + Wait,
    K: Keeper,
    N: Notes,
    S: FnOnce(Inputs, ReaderEnds) -> bool,
>(
    rt: &R,
    request: &NodeRequest<'_>,
    prepared: PreparedNode,
    keeper: K,
    notes: N,
    readers: S,
) -> Result<(), NodeFault>
    requires exists { prepared.resource < length prepared.plant.value.resources }
    requires readers { (inputs : _) → (ends : _) → S.pre readers inputs ends }
{
    if is_alone(request) {
        run_alone(rt, request, prepared, keeper, notes, readers)
    } else {
        run_lines(rt, prepared, keeper, notes)
    }
}

/// How many bytes of a file are read at most to see that it is a journal.
const MOST_OF_HEAD: u64 = 100;

/// The first bytes of a file; none of what is no file.
fn head_of(host: &HostRuntime, path: &str) -> io::Result<Vec<u8>> {
    let mut head = Vec::new(host.alloc());
    if fs::metadata(host, path)?.is_file() {
        let file = fs::open(host, path)?;
        file.take(MOST_OF_HEAD).read_to_end(&mut head)?;
    }
    Ok(head)
}

/// Whether a file is seen to be another text than a journal.
fn is_another_text(host: &HostRuntime, path: &str) -> bool {
    match head_of(host, path) {
        Ok(head) => !begins_as_journal(&head),
        Err(_) => false,
    }
}

/// Runs a node with its journal; where that can't be written, the node ends, or tells it and goes on, as is asked.
fn run_journaled<
    R: Clock + Input + Print + AllocGlobal + Wait,
    K: Keeper,
    N: Notes,
    S: FnOnce(Inputs, ReaderEnds) -> bool,
>(
    rt: &R,
    request: &NodeRequest<'_>,
    prepared: PreparedNode,
    keeper: K,
    journal: N,
    readers: S,
) -> Result<(), NodeFault>
    requires exists { prepared.resource < length prepared.plant.value.resources }
    requires readers { (inputs : _) → (ends : _) → S.pre readers inputs ends }
{
    match request.journal_full {
        JournalFull::Stop => run_with(rt, request, prepared, keeper, journal, readers),
        JournalFull::GoOn => {
            let notes = LenientNotes::new(journal, io::writer(rt));
            run_with(rt, request, prepared, keeper, notes, readers)
        }
    }
}

/// Runs a node whose journal goes on in further files where one has so many bytes.
fn run_in_row<
    R: Clock + Input + Print + AllocGlobal + Wait,
    K: Keeper,
    S: FnOnce(Inputs, ReaderEnds) -> bool,
>(
    rt: &R,
    host: &HostRuntime,
    request: &NodeRequest<'_>,
    prepared: PreparedNode,
    keeper: K,
    journal: &str,
    size: u32,
    readers: S,
) -> Result<(), NodeFault>
    requires exists { prepared.resource < length prepared.plant.value.resources }
    requires readers { (inputs : _) → (ends : _) → S.pre readers inputs ends }
{
    let (files, last) = FileRow::open(host.clone()?, journal)?;
    let name = resource_name(&prepared.plant, prepared.resource);
    let resource = String::from_str(rt.alloc(), name)?;
    let notes = RowNotes::new(rt.alloc(), files, last, resource, u64::from(size));
    run_journaled(rt, request, prepared, keeper, notes, readers)
}

/// Runs a node that notes to the journal that was asked for, if one was.
fn run_noting<
    R: Clock + Input + Print + AllocGlobal + Wait,
    K: Keeper,
    S: FnOnce(Inputs, ReaderEnds) -> bool,
>(
    rt: &R,
    host: &HostRuntime,
    request: &NodeRequest<'_>,
    prepared: PreparedNode,
    keeper: K,
    readers: S,
) -> Result<(), NodeFault>
    requires names { NamesResource prepared.plant.value request.now.resource.now prepared.resource }
    requires readers { (inputs : _) → (ends : _) → S.pre readers inputs ends }
{
    let Some(journal) = request.journal else {
        return run_with(rt, request, prepared, keeper, NoNotes, readers);
    };
    if is_another_text(host, journal) {
        return Err(NodeFault::NoJournal);
    }
    if let Some(size) = request.journal_size {
        return run_in_row(rt, host, request, prepared, keeper, journal, size, readers);
    }
    let notes = open_single(host, journal)?;
    run_journaled(rt, request, prepared, keeper, notes, readers)
}

/// Why a node ended, as it is told: where it was to go on without noting, it stopped since it couldn't tell that.
fn told_stop(request: &NodeRequest<'_>, stop: LoopStop) -> LoopStop {
    let is_note = stop == LoopStop::Live(LiveStop::Node(NodeStop::Note));
    if is_note && request.journal_full == JournalFull::GoOn {
        LoopStop::Live(LiveStop::Write)
    } else {
        stop
    }
}

/// Tells how a node ended; the status.
fn tell_node<R: Eprint>(
    rt: &R,
    request: &NodeRequest<'_>,
    ran: Result<(), NodeFault>,
) -> io::Result<u8> {
    match ran {
        Ok(()) => return Ok(0),
        Err(NodeFault::Stop(stop)) => {
            let stop = told_stop(request, stop);
            eprintln!(rt; "plc: {stop}")?;
        }
        Err(NodeFault::Unread) => eprintln!(rt; "plc: there is no thread for an input")?,
        Err(NodeFault::NoJournal) => {
            let journal = Shown(request.journal.unwrap_or(""));
            eprintln!(rt; "plc: {journal}: this is no journal")?;
        }
        Err(NodeFault::Journal(fault)) => {
            let journal = Shown(request.journal.unwrap_or(""));
            eprintln!(rt; "plc: {journal}: {fault}")?;
        }
    }
    Ok(FAILED)
}

/// Runs a node whose incarnation and retained variables are kept in a folder; the status.
fn run_kept<
    R: Clock + Input + Print + Eprint + AllocGlobal + Wait,
    S: FnOnce(Inputs, ReaderEnds) -> bool,
>(
    rt: &R,
    host: &HostRuntime,
    request: &NodeRequest<'_>,
    prepared: PreparedNode,
    folder: &str,
    readers: S,
) -> io::Result<u8>
    requires names { NamesResource prepared.plant.value request.now.resource.now prepared.resource }
    requires readers { (inputs : _) → (ends : _) → S.pre readers inputs ends }
{
    let resource = prepared.resource;
    let plant = Arc::try_clone(&prepared.plant)?;
    let name = resource_name(&plant, resource);
    let _lock = match ResourceLock::take(host, rt.alloc(), folder, name) {
        Ok(lock) => lock,
        Err(fault) => return print_lock_fault(rt, folder, fault),
    };
    let keeper = keeper_in(rt.alloc(), host, &plant, resource, folder)?;
    let ran = run_noting(rt, host, request, prepared, keeper, readers);
    let status = tell_node(rt, request, ran)?;
    if let Err(NodeFault::Stop(LoopStop::Live(LiveStop::Node(NodeStop::Keeper(_))))) = ran {
        if !print_no_folder(rt, host, folder)? {
            let keeper = keeper_in(rt.alloc(), host, &plant, resource, folder)?;
            print_resource_faults(rt, host, &plant, resource, folder, &keeper)?;
        }
    }
    Ok(status)
}

/// Where standard input is found.
const INPUT: &str = "/dev/stdin";

/// The further file of its journal that a node reads as its field or by standard input.
fn further_read(host: &HostRuntime, request: &NodeRequest<'_>) -> io::Result<Option<String>> {
    let (Some(journal), Some(_)) = (request.journal, request.journal_size) else {
        return Ok(None);
    };
    if let Some(field) = request.field {
        if let Some(further) = further_file(host, journal, field)? {
            return Ok(Some(further));
        }
    }
    further_file(host, journal, INPUT)
}

/// Reads what a node needs, and runs it, unless it reads its own journal; the status.
pub(crate) fn answer_node<
    R: Files + Clock + Input + Print + Eprint + AllocGlobal + Wait,
    S: FnOnce(Inputs, ReaderEnds) -> bool,
>(rt: &R, host: &HostRuntime, request: &NodeRequest<'_>, readers: S) -> io::Result<u8>
    requires { (inputs : _) → (ends : _) → S.pre readers inputs ends }
{
    if let Ok(Some(further)) = further_read(host, request) {
        let (path, option) = (further.as_str(), "--journal");
        return print_word_refusal(rt, WordRefusal::WrittenOver { path, option });
    }
    let prepared = match prepare_node(rt, request)? {
        Ok(prepared) => prepared,
        Err(status) => return Ok(status),
    };
    match request.state {
        Some(folder) => run_kept(rt, host, request, prepared, folder, readers),
        None => {
            let keeper = MemoryKeeper::new(rt.alloc(), 0);
            let ran = run_noting(rt, host, request, prepared, keeper, readers);
            tell_node(rt, request, ran)
        }
    }
}
