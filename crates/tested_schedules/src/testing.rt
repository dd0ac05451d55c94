//! A schedule with EXPECT lines is done line by line.

ghost use Rattle.std.specs.Prelude.{◌≡◌, ◌<◌, [], true, false, codes, IfErr, IfOk, OnOk, length, string_bytes};
ghost use Rattle.words.specs.Chars.{same_word};
ghost use Rattle.words.specs.Lines.{without_last};
ghost use Rattle.evaluation.specs.InputTexts.{words_of};
ghost use Rattle.world.specs.Simulated.{from_one};
ghost use Rattle.world.specs.Steps.ReadingLines.{texts};
ghost use Rattle.world.specs.Steps.Telling.{IsTold};
ghost use Rattle.tested_schedules.specs.Expectations.{is_expectation};
ghost use Rattle.tested_schedules.specs.Tested.{EndsEarly, HasTested};
ghost use Rattle.tested_schedules.specs.Steps.Testing.{AreIncarnations, HasDone, HasStopped, state_of};

use crate::answer_lines::{have_unmet, push_answers};
use crate::answering::answer_words;
use crate::restarted::{first_incarnations, note_done};
use crate::tested::Tested;
use evaluation::push_words;
use plant::Plant;
use std::alloc::{AllocError, Global};
use std::io::Write;
use std::sync::Arc;
use text_lines::write_text;
use world::{
    Event, LineFault, SimFault, Simulated, World, WorldFault, initial_openings, is_idle, push_done,
    push_refused, read_event, without_last,
};

/// Whether it is the word that an EXPECT line begins with, in either case.
fn is_keyword(word: &[u8]) -> bool
    ensures { result ≡ same_word word.now (codes "EXPECT") }
{
    word.eq_ignore_ascii_case(b"EXPECT")
}

/// Whether these are the words of an EXPECT line.
fn is_expectation(words: &[&[u8]]) -> bool
    ensures { result ≡ is_expectation (texts words.now) }
{
    match words {
        [] => false,
        [first, ..] => is_keyword(first),
    }
}

/// What stands while a schedule is done: the world, the present incarnation of each resource, how many events there
/// were, whether an expectation was unmet, and room for what is written of a line.
#[derive(Drop)]
pub(crate) struct Testing {
    pub(crate) world: World,
    pub(crate) incarnations: Vec<u32>,
    pub(crate) events: u64,
    pub(crate) has_unmet: bool,
    pub(crate) line: String,
}

impl Testing {
    /// A plant before its first event, all first incarnations 1, of which nothing was kept.
    pub(crate) fn open(
        alloc: Global,
        plant: Arc<Plant>,
        max_number: u32,
    ) -> Result<Testing, AllocError>
        ensures world { IfOk result (λ t. t.world ≡ record { setting = from_one plant.value max_number; events = []; log = [] }) }
        ensures known { IfOk result (λ t. AreIncarnations t.world t.incarnations.items) }
        ensures none { IfOk result (λ t. (t.events ≡ 0) × (t.has_unmet ≡ false)) }
    {
        let incarnations = first_incarnations(alloc, plant.resources())?;
        let opening = initial_openings(alloc, &plant)?;
        let world = World::new(
            alloc,
            plant,
            incarnations.as_slice(),
            opening.as_slice(),
            max_number,
        )?;
        Ok(Testing {
            world,
            incarnations,
            events: 0,
            has_unmet: false,
            line: String::new(alloc),
        })
    }

    /// What stands at the end.
    pub(crate) fn ended(self) -> Tested
        ensures world { result.ended.world ≡ self.world }
        ensures events { result.ended.events ≡ self.events }
        ensures unmet { result.has_unmet ≡ self.has_unmet }
    {
        Tested {
            ended: Simulated {
                world: self.world,
                events: self.events,
            },
            has_unmet: self.has_unmet,
        }
    }

    /// Does the event of this number, and writes its line in the place of what was in `line`.
    fn tell(&mut self, alloc: Global, number: u64, event: &Event) -> Result<(), AllocError>
        requires known { AreIncarnations self.old.world self.old.incarnations.items }
        ensures told { OnOk result (IsTold self.old.world self.new.world number event.now (string_bytes self.new.line)) }
        ensures known { OnOk result (AreIncarnations self.new.world self.new.incarnations.items) }
        ensures events { self.new.events ≡ self.old.events }
        ensures unmet { self.new.has_unmet ≡ self.old.has_unmet }
    {
        self.line.clear();
        match self.world.step(alloc, event) {
            Ok(done) => {
                note_done(&mut self.incarnations, event, done);
                let log = self.world.log();
                push_done(&mut self.line, self.world.plant(), log, event, done)
            }
            Err(WorldFault::Memory) => Err(AllocError),
            Err(cause) => {
                let _log = self.world.log();
                push_refused(&mut self.line, number, cause)
            }
        }
    }

    /// Does the event that the words of a line spell, and writes its line; nothing for a blank line or a comment.
    fn do_event<W: Write>(
        &mut self,
        alloc: Global,
        words: &[&[u8]],
        out: &mut W,
    ) -> Result<(), LineFault>
        requires few { self.old.events < 18446744073709551615 }
        requires known { AreIncarnations self.old.world self.old.incarnations.items }
        requires event { is_expectation (texts words.now) ≡ false }
        ensures ok { OnOk result (HasDone (state_of self.old) (state_of self.new) (texts words.now)
            (W.contents out.old) (W.contents out.new)) }
        ensures fault { IfErr result (HasStopped (state_of self.old) (state_of self.new) (texts words.now)
            (W.contents out.old) (W.contents out.new)) }
        ensures known { OnOk result (AreIncarnations self.new.world self.new.incarnations.items) }
    {
        if is_idle(words) {
            return Ok(());
        }
        let number = self.events + 1;
        let event = read_event(alloc, self.world.plant(), number, words)?;
        self.tell(alloc, number, &event)?;
        self.events = number;
        write_text(out, self.line.as_str())?;
        Ok(())
    }

    /// Writes the answers to what the words behind the keyword expect.
    fn do_expectations<W: Write>(
        &mut self,
        alloc: Global,
        words: &[&[u8]],
        out: &mut W,
    ) -> Result<(), LineFault>
        requires known { AreIncarnations self.old.world self.old.incarnations.items }
        requires expects { is_expectation (texts words.now) ≡ true }
        ensures ok { OnOk result (HasDone (state_of self.old) (state_of self.new) (texts words.now)
            (W.contents out.old) (W.contents out.new)) }
        ensures fault { IfErr result (HasStopped (state_of self.old) (state_of self.new) (texts words.now)
            (W.contents out.old) (W.contents out.new)) }
        ensures known { OnOk result (AreIncarnations self.new.world self.new.incarnations.items) }
    {
        let answers = answer_words(alloc, &self.world, &self.incarnations, &words[1..])?;
        self.line.clear();
        push_answers(&mut self.line, self.world.plant(), &answers)?;
        self.has_unmet = have_unmet(self.has_unmet, &answers);
        write_text(out, self.line.as_str())?;
        Ok(())
    }

    /// Does a line of these words.
    pub(crate) fn do_words<W: Write>(
        &mut self,
        alloc: Global,
        words: &[&[u8]],
        out: &mut W,
    ) -> Result<(), LineFault>
        requires few { self.old.events < 18446744073709551615 }
        requires known { AreIncarnations self.old.world self.old.incarnations.items }
        ensures ok { OnOk result (HasDone (state_of self.old) (state_of self.new) (texts words.now)
            (W.contents out.old) (W.contents out.new)) }
        ensures fault { IfErr result (HasStopped (state_of self.old) (state_of self.new) (texts words.now)
            (W.contents out.old) (W.contents out.new)) }
        ensures known { OnOk result (AreIncarnations self.new.world self.new.incarnations.items) }
    {
        if is_expectation(words) {
            self.do_expectations(alloc, words, out)
        } else {
            self.do_event(alloc, words, out)
        }
    }

    /// Does a line. Its words take the place of those in `words`.
    fn do_line<'a, W: Write>(
        &mut self,
        alloc: Global,
        words: &mut Vec<&'a [u8]>,
        text: &'a str,
        out: &mut W,
    ) -> Result<(), LineFault>
        requires few { self.old.events < 18446744073709551615 }
        requires known { AreIncarnations self.old.world self.old.incarnations.items }
        ensures ok { OnOk result (HasDone (state_of self.old) (state_of self.new)
            (words_of (without_last 13 text.now)) (W.contents out.old) (W.contents out.new)) }
        ensures fault { IfErr result (HasStopped (state_of self.old) (state_of self.new)
            (words_of (without_last 13 text.now)) (W.contents out.old) (W.contents out.new)) }
        ensures known { OnOk result (AreIncarnations self.new.world self.new.incarnations.items) }
    {
        words.clear();
        push_words(words, without_last(b'\r', text.as_bytes()))?;
        self.do_words(alloc, words.as_slice(), out)
    }
}

/// The text without the line feed at its end, which begins no further line.
fn lines_in(schedule: &str) -> &str
    ensures { result.now ≡ without_last 10 schedule.now }
{
    match schedule.strip_suffix('\n') {
        Some(front) => front,
        None => schedule,
    }
}

/// How many bytes a text has. So many lines, and one, it has at most: their number fits 64 bits.
fn size_of(schedule: &str) -> usize
    ensures { result ≡ length schedule.now }
{
    schedule.len()
}

/// Does the events of a schedule as `simulate` of `world` does, and answers its EXPECT lines between them: for each word
/// `R.P.V=VALUE` behind `EXPECT` a line, `EXPECT R.P.V=VALUE met`, or `unmet` and what was found, by what the task's last
/// evaluation in its resource's present incarnation gave, FALSE, 0 or T#0ms before the first. An EXPECT line is no event
/// and has no number.
///
/// `Syntax` is the first line, counted from 1, that is no event, EXPECT line, comment or blank; the lines of those before
/// it are written. After `Write` what went out is a beginning of the text, after `Memory` the text of some first lines.
pub fn test_schedule<W: Write>(
    alloc: Global,
    plant: Arc<Plant>,
    schedule: &str,
    max_number: u32,
    out: &mut W,
) -> Result<Tested, SimFault>
    ensures ok { IfOk result (HasTested plant.value max_number schedule.now (W.contents out.old) (W.contents out.new)) }
    ensures fault { IfErr result
        (EndsEarly plant.value max_number schedule.now (W.contents out.old) (W.contents out.new)) }
{
    let _bytes = size_of(schedule);
    let mut testing = Testing::open(alloc, plant, max_number)?;
    let mut words = Vec::new(alloc);
    let mut number = 0;
    for text in lines_in(schedule).split('\n') {
        number += 1;
        match testing.do_line(alloc, &mut words, text, out) {
            Ok(()) => {}
            Err(LineFault::Syntax) => return Err(SimFault::Syntax { line: number }),
            Err(LineFault::Write) => return Err(SimFault::Write),
            Err(LineFault::Memory) => return Err(SimFault::Memory),
        }
    }
    Ok(testing.ended())
}
