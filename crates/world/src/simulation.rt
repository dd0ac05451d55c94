//! A schedule is done line by line.

ghost use Rattle.std.specs.Prelude.{◌≡◌, ◌<◌, [], IfErr, IfOk, OnErr, OnOk, length, replicate};
ghost use Rattle.words.specs.Lines.{without_last};
ghost use Rattle.evaluation.specs.InputTexts.{words_of};
ghost use Rattle.world.specs.Simulated.{from_one, WritesRun, HasRun, EndsEarly};
ghost use Rattle.world.specs.Steps.ReadingLines.{texts};
ghost use Rattle.world.specs.Steps.Simulating.{HasDone, HasStopped};

use crate::event_line::tell;
use crate::line_fault::LineFault;
use crate::lines::{is_idle, without_last};
use crate::openings::initial_openings;
use crate::plant_world::World;
use crate::read_line::read_event;
use crate::sim_fault::SimFault;
use evaluation::push_words;
use plant::Plant;
use std::alloc::{AllocError, Global};
use std::io::Write;
use std::sync::Arc;
use text_lines::write_text;

/// The first incarnations: 1 for each resource.
fn ones(alloc: Global, resources: usize) -> Result<Vec<u32>, AllocError>
    ensures { IfOk result (λ first. first.items ≡ replicate resources 1) }
{
    vec![in alloc; 1u32; resources]
}

/// A plant before its first event, all first incarnations 1, of which nothing was kept.
fn open(alloc: Global, plant: Arc<Plant>, max_number: u32) -> Result<World, AllocError>
    ensures { IfOk result (λ w. w ≡ record { setting = from_one plant.value max_number; events = []; log = [] }) }
{
    let first = ones(alloc, plant.resources())?;
    let opening = initial_openings(alloc, &plant)?;
    World::new(
        alloc,
        plant,
        first.as_slice(),
        opening.as_slice(),
        max_number,
    )
}

/// The text without the line feed at its end, which begins no further line.
fn without_feed(schedule: &str) -> &str
    ensures { result.now ≡ without_last 10 schedule.now }
{
    match schedule.strip_suffix('\n') {
        Some(front) => front,
        None => schedule,
    }
}

/// How many bytes a text has. So many lines, and one, it has at most: their number fits 64 bits.
fn bytes_in(schedule: &str) -> usize
    ensures { result ≡ length schedule.now }
{
    schedule.len()
}

/// What stands when a schedule is done: the world, and how many events there were.
#[derive(Drop)]
pub struct Simulated {
    pub world: World,
    pub events: u64,
}

/// What stands while a schedule is done: the world, how many events there were, and room for the line of one.
#[derive(Drop)]
struct Simulation {
    world: World,
    events: u64,
    line: String,
}

impl Simulation {
    /// What stands at the end.
    fn ended(self) -> Simulated
        ensures world { result.world ≡ self.world }
        ensures events { result.events ≡ self.events }
    {
        Simulated {
            world: self.world,
            events: self.events,
        }
    }

    /// Does the event that the words of a line spell, and writes its line.
    fn do_words<W: Write>(
        &mut self,
        alloc: Global,
        words: &[&[u8]],
        out: &mut W,
    ) -> Result<(), LineFault>
        requires { self.old.events < 18446744073709551615 }
        ensures ok { OnOk result
            (HasDone self.old.world self.new.world self.old.events self.new.events (texts words.now)
            (W.contents out.old) (W.contents out.new)) }
        ensures fault { IfErr result
            (HasStopped self.old.world self.new.world self.old.events (texts words.now)
            (W.contents out.old) (W.contents out.new)) }
    {
        if is_idle(words) {
            return Ok(());
        }
        let number = self.events + 1;
        let event = read_event(alloc, self.world.plant(), number, words)?;
        tell(alloc, &mut self.world, number, &event, &mut self.line)?;
        write_text(out, self.line.as_str())?;
        self.events = number;
        Ok(())
    }

    /// Does a line. Its words take the place of those in `words`.
    fn do_line<'a, W: Write>(
        &mut self,
        alloc: Global,
        words: &mut Vec<&'a [u8]>,
        text: &'a str,
        out: &mut W,
    ) -> Result<(), LineFault>
        requires { self.old.events < 18446744073709551615 }
        ensures ok { OnOk result
            (HasDone self.old.world self.new.world self.old.events self.new.events (words_of (without_last 13 text.now))
            (W.contents out.old) (W.contents out.new)) }
        ensures fault { IfErr result
            (HasStopped self.old.world self.new.world self.old.events (words_of (without_last 13 text.now))
            (W.contents out.old) (W.contents out.new)) }
    {
        words.clear();
        push_words(words, without_last(b'\r', text.as_bytes()))?;
        self.do_words(alloc, words.as_slice(), out)
    }
}

/// Does the events of a schedule one after the other and writes a line for each, before it reads the next one. All
/// first incarnations are 1, all retained variables open with FALSE, 0 or T#0ms, and an event's ticket is its number,
/// from 1; refused events count, blank lines and comments don't. Each task makes evaluations of numbers up to
/// `max_number` in an incarnation.
///
/// `Syntax` is the first line, counted from 1, that is no event, comment or blank; the lines of the events before it
/// are written. After `Write` what went out is a beginning of the text, after `Memory` the lines of some first events.
pub fn simulate<W: Write>(
    alloc: Global,
    plant: Arc<Plant>,
    schedule: &str,
    max_number: u32,
    out: &mut W,
) -> Result<(), SimFault>
    ensures ok { OnOk result (WritesRun plant.value max_number schedule.now (W.contents out.old) (W.contents out.new)) }
    ensures fault { IfErr result
        (EndsEarly plant.value max_number schedule.now (W.contents out.old) (W.contents out.new)) }
{
    simulate_world(alloc, plant, schedule, max_number, out)?;
    Ok(())
}

/// Does the events of a schedule as `simulate` does; what stands at the end.
pub fn simulate_world<W: Write>(
    alloc: Global,
    plant: Arc<Plant>,
    schedule: &str,
    max_number: u32,
    out: &mut W,
) -> Result<Simulated, SimFault>
    ensures ok { IfOk result
        (HasRun plant.value max_number schedule.now (W.contents out.old) (W.contents out.new)) }
    ensures fault { IfErr result
        (EndsEarly plant.value max_number schedule.now (W.contents out.old) (W.contents out.new)) }
{
    let _bytes = bytes_in(schedule);
    let world = open(alloc, plant, max_number)?;
    let mut simulation = Simulation {
        world,
        events: 0,
        line: String::new(alloc),
    };
    let mut words = Vec::new(alloc);
    let mut number = 0;
    for text in without_feed(schedule).split('\n') {
        number += 1;
        match simulation.do_line(alloc, &mut words, text, out) {
            Ok(()) => {}
            Err(LineFault::Syntax) => return Err(SimFault::Syntax { line: number }),
            Err(LineFault::Write) => return Err(SimFault::Write),
            Err(LineFault::Memory) => return Err(SimFault::Memory),
        }
    }
    Ok(simulation.ended())
}
