//! What expectations find.

ghost use Rattle.std.specs.Prelude.{◌≡◌, ◌≢◌, ◌==◌, ◌&&◌, IfErr, IfOk, reverse, slice_get};
ghost use Rattle.std.specs.Option.{option_copied};
ghost use Rattle.evaluation.specs.Last.{same_task};
ghost use Rattle.world.specs.Step.{history_at};
ghost use Rattle.world.specs.Steps.ReadingLines.{texts};
ghost use Rattle.world.specs.declared.line_fault.LineFault.TheVariants.{Syntax, Write};
ghost use Rattle.tested_schedules.specs.declared.expectation.Expectation.{Expectation as Expected};
ghost use Rattle.tested_schedules.specs.Expectations.{IsAnswer, IsExpectation, IsUnexpected, found_in, last_in};
ghost use Rattle.tested_schedules.specs.Steps.Testing.{AreIncarnations, HasAnswers};

use crate::answer::Answer;
use crate::expectation::Expectation;
use crate::finding::find_expectation;
use declared_names::{first_value, kind_of};
use evaluation::Frame;
use std::alloc::Global;
use std_blocks::Value;
use task_codes::TaskRef;
use world::{LineFault, World};

/// Whether it is an evaluation of a task in an incarnation of its resource.
fn is_of(frame: &Frame, task: TaskRef, incarnation: u32) -> bool
    ensures { result ≡ (same_task frame.now.name.task task && frame.now.name.incarnation == incarnation) }
{
    let name = frame.evaluation().name();
    name.task.resource == task.resource
        && name.task.task == task.task
        && name.incarnation == incarnation
}

/// The last evaluation of a task in an incarnation of its resource.
fn last_of(log: &[Frame], task: TaskRef, incarnation: u32) -> Option<&Frame>
    ensures { option_copied result ≡ last_in incarnation task (reverse log.now) }
{
    log.iter()
        .rev()
        .find(|frame| is_of(frame, task, incarnation))
}

/// What an evaluation gave to an output.
fn given_by(frame: &Frame, place: usize) -> Option<Value>
    ensures { result ≡ slice_get frame.now.outputs place }
{
    frame.evaluation().outputs().values().get(place).copied()
}

/// What an output is: what its task's last evaluation in the present incarnation gave, else its initial value.
fn value_of(log: &[Frame], expectation: Expectation, incarnation: u32) -> Value
    ensures { result ≡ found_in incarnation (reverse log.now) expectation }
{
    let initial = first_value(kind_of(expectation.value));
    match last_of(log, expectation.task, incarnation) {
        Some(frame) => given_by(frame, expectation.place).unwrap_or(initial),
        None => initial,
    }
}

/// The answer to what a word expects.
fn answer_word(
    alloc: Global,
    world: &World,
    incarnations: &[u32],
    word: &[u8],
) -> Result<Answer, LineFault>
    requires known { AreIncarnations world.now incarnations.now }
    ensures ok { IfOk result (IsAnswer world.now.setting (history_at world.now) (reverse world.now.log) word.now) }
    ensures early { IfErr result (λ f. f ≢ Write) }
    ensures fault { IfErr result (λ f. f ≡ Syntax → (x : Expected) → IsExpectation world.now.setting.plant word.now x → ⊥) }
{
    let Some(expectation) = find_expectation(alloc, world.plant(), word)? else {
        return Err(LineFault::Syntax);
    };
    let incarnation = incarnations[expectation.task.resource];
    let found = value_of(world.log(), expectation, incarnation);
    Ok(Answer {
        expectation,
        found,
        is_met: expectation.value.same(&found),
    })
}

/// The answers to what words expect, by what stands now.
pub fn answer_words(
    alloc: Global,
    world: &World,
    incarnations: &[u32],
    words: &[&[u8]],
) -> Result<Vec<Answer>, LineFault>
    requires known { AreIncarnations world.now incarnations.now }
    ensures ok { IfOk result (λ answers. HasAnswers world.now (texts words.now) answers.items) }
    ensures early { IfErr result (λ f. f ≢ Write) }
    ensures fault { IfErr result (λ f. f ≡ Syntax → IsUnexpected world.now.setting.plant (texts words.now)) }
{
    if words.is_empty() {
        return Err(LineFault::Syntax);
    }
    let _log = world.log();
    let mut answers = Vec::new(alloc);
    for word in words {
        let answer = answer_word(alloc, world, incarnations, word)?;
        if answers.push(answer).is_err() {
            return Err(LineFault::Memory);
        }
    }
    Ok(answers)
}
