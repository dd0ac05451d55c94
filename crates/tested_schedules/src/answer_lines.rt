//! The lines of answers.

ghost use Rattle.std.specs.Prelude.{◌≡◌, ◌||◌, OnOk};
ghost use Rattle.std.specs.List.{flat_map};
ghost use Rattle.text_lines.specs.Growing.{GrowsBy};
ghost use Rattle.tested_schedules.specs.Expectations.{answer_line, verdict_text};
ghost use Rattle.tested_schedules.specs.TestedText.{are_unmet};

use crate::answer::Answer;
use crate::output_names::push_output;
use plant::Plant;
use std::alloc::AllocError;
use text_lines::push_value;

/// Writes `met`, or `unmet` and what was found, behind a line.
fn push_verdict(line: &mut String, answer: &Answer) -> Result<(), AllocError>
    ensures { OnOk result (GrowsBy line.old line.new (verdict_text answer.now)) }
{
    if answer.is_met {
        return line.push_str("met");
    }
    line.push_str("unmet ")?;
    push_value(line, answer.found)
}

/// Writes `EXPECT R.P.V=VALUE met` behind a text.
fn push_answer(text: &mut String, plant: &Plant, answer: &Answer) -> Result<(), AllocError>
    ensures { OnOk result (GrowsBy text.old text.new (answer_line plant.now answer.now)) }
{
    let expectation = answer.expectation;
    text.push_str("EXPECT ")?;
    push_output(text, plant, expectation.task, expectation.place)?;
    text.push_str("=")?;
    push_value(text, expectation.value)?;
    text.push_str(" ")?;
    push_verdict(text, answer)?;
    text.push_str("\n")
}

/// Writes a line for each answer behind a text.
pub fn push_answers(text: &mut String, plant: &Plant, answers: &[Answer]) -> Result<(), AllocError>
    ensures { OnOk result (GrowsBy text.old text.new (flat_map (answer_line plant.now) answers.now)) }
{
    for answer in answers {
        push_answer(text, plant, answer)?;
    }
    Ok(())
}

/// Whether one of these answers is unmet.
fn are_unmet(answers: &[Answer]) -> bool
    ensures { result ≡ are_unmet answers.now }
{
    answers.iter().any(|answer| !answer.is_met)
}

/// Whether one of these answers is unmet, or one was before.
pub fn have_unmet(before: bool, answers: &[Answer]) -> bool
    ensures { result ≡ (before || are_unmet answers.now) }
{
    before || are_unmet(answers)
}
