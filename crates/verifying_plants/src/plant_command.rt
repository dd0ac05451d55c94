ghost use Rattle.std.specs.Prelude.{◌≡◌, IfOk, IfErr, string_bytes};
ghost use Rattle.task_codes.specs.CodeValue.{lists_of};
ghost use Rattle.text_commands.specs.CheckText.{IsPlantOf};
ghost use Rattle.verifying_plants.specs.Questions.{IsAsked, question_of};
ghost use Rattle.verifying_plants.specs.Summaries.{IsSummary};
ghost use Rattle.verifying_plants.specs.VerifyPlant.{ExplainsAnswer, WritesAnswer};
ghost use Rattle.verifying_plants.specs.Steps.Answering.{AreVerdicts, IsPrepared, IsTold, IsToldAnswer, RefusesPreparing};

use crate::claim_words::{read_claims, read_given};
use crate::plant_question::PlantQuestion;
use crate::premise_texts::push_premise_line;
use crate::range_words::read_ranges;
use crate::summary::summary_of;
use crate::verdict_texts::{counted_of, verdict_texts};
use crate::verify_plant_fault::VerifyPlantFault;
use crate::zero_words::zero_words;
use plant::Plant;
use plant_claims::{Limits, Output, PlantOutcome, Question, verify_plant};
use std::alloc::{AllocError, Global};
use std::io::Write;
use std::sync::Arc;
use text_commands::read_plant;
use text_lines::{Progress, write_text};
use verifying::Summary;

/// What is asked of a plant, and the outputs of each claim.
#[derive(Drop)]
struct Prepared {
    question: Question,
    claims: Vec<Vec<Output>>,
}

/// Reads the words, a plant, and the names in the question about it.
fn prepare(
    alloc: Global,
    text: &str,
    asked: &PlantQuestion<'_>,
) -> Result<Prepared, VerifyPlantFault>
    ensures ok { IfOk result (λ p. IsPrepared text.now (question_of asked.now) p.question (lists_of p.claims.items)) }
    ensures err { IfErr result (RefusesPreparing text.now (question_of asked.now)) }
{
    let ranges = read_ranges(alloc, asked.words)?;
    let plant = read_plant(alloc, text)?;
    let claims = read_claims(alloc, &plant, asked.claims)?;
    let given = read_given(alloc, &plant, asked.given)?;
    let question = Question {
        plant: Arc::new(alloc, plant)?,
        dt: asked.dt,
        ranges,
        given,
        restarts: asked.restarts,
    };
    Ok(Prepared { question, claims })
}

fn plant_of(question: &Question) -> &Plant
    ensures { result.now ≡ question.now.plant }
{
    &question.plant
}

/// The text of the verdicts on claims, and what comes of them.
fn tell(
    alloc: Global,
    most_states: u32,
    claims: &[Vec<Output>],
    outcome: &PlantOutcome,
) -> Result<(String, Summary), AllocError>
    requires { AreVerdicts outcome.now.question claims.now outcome.now.verdicts.items }
    ensures text { IfOk result (λ r. IsTold outcome.now.question most_states (lists_of claims.now) outcome.now.verdicts.items (string_bytes r.0)) }
    ensures summary { IfOk result (λ r. IsSummary outcome.now.verdicts.items r.1) }
{
    let question = &outcome.question;
    let counted = counted_of(outcome);
    let verdicts = outcome.verdicts.as_slice();
    let mut text = verdict_texts(
        alloc,
        plant_of(question),
        most_states,
        counted,
        claims,
        verdicts,
    )?;
    let zeros = zero_words(alloc, question, claims)?;
    push_premise_line(alloc, &mut text, question, &zeros)?;
    Ok((text, summary_of(verdicts)))
}

/// The text of the verdicts on the claims about a plant, and what comes of all.
fn answer_text<P: Progress>(
    alloc: Global,
    text: &str,
    asked: &PlantQuestion<'_>,
    progress: &mut P,
) -> Result<(String, Summary), VerifyPlantFault>
    ensures ok { IfOk result (λ r. IsToldAnswer text.now (question_of asked.now) (string_bytes r.0) r.1) }
    ensures err { IfErr result (RefusesPreparing text.now (question_of asked.now)) }
{
    let Prepared { question, claims } = prepare(alloc, text, asked)?;
    let limits = Limits {
        states: asked.most_states as usize,
        waiting: asked.most_waiting as usize,
    };
    let outcome = verify_plant(alloc, question, &claims, limits, progress)?;
    let told = tell(alloc, asked.most_states, &claims, &outcome)?;
    Ok(told)
}

/// Tells of each claim about a plant whether its outputs are ever on together, whatever its network, its field and restarts
/// do, and what comes of all. How far the search is is told meanwhile.
///
/// All refusals but `Command(Write)` come before anything is written. After `Command(Write)` what went out is a prefix, and
/// not all.
pub fn verify_plant_text<W: Write, P: Progress>(
    alloc: Global,
    text: &str,
    asked: &PlantQuestion<'_>,
    writer: &mut W,
    progress: &mut P,
) -> Result<Summary, VerifyPlantFault>
    ensures ok { IfOk result
        (WritesAnswer text.now (question_of asked.now) (W.contents writer.old) (W.contents writer.new)) }
    ensures fault { IfErr result
        (ExplainsAnswer text.now (question_of asked.now) (W.contents writer.old) (W.contents writer.new)) }
{
    let (answer, summary) = answer_text(alloc, text, asked, progress)?;
    write_text(writer, answer.as_str())?;
    Ok(summary)
}
