ghost use Rattle.std.specs.Prelude.{◌≡◌, ◌↔◌, IfErr, IfOk, IsTrue, Any, string_bytes};
ghost use Rattle.text_commands.specs.Sources.{source_of};
ghost use Rattle.verifying.specs.Preparing.{RefusesPreparing};
ghost use Rattle.verifying.specs.Questions.{question_of};
ghost use Rattle.verifying.specs.Summaries.{Sums};
ghost use Rattle.certified_claims.specs.CertifiedAnswers.{ExplainsCertified, IsCertifiedAnswer, IsFailure, IsOpen, WritesCertified};

use crate::certificate_lines::certificates_text;
use crate::claims::certify_claims;
use crate::meeting::meeting_of;
use crate::verdict::{CertifiedVerdict, Scope};
use crate::verdict_lines::{Told, verdict_texts};
use std::alloc::Global;
use std::io::Write;
use text_commands::LadderSource;
use text_lines::write_text;
use verifying::{Question, Summary, VerifyFault, prepare, push_premise_line};

fn is_failure(verdict: &CertifiedVerdict) -> bool
    ensures { IsTrue result ↔ IsFailure verdict.now }
{
    matches!(verdict, CertifiedVerdict::Fails(_))
}

fn is_open(verdict: &CertifiedVerdict) -> bool
    ensures { IsTrue result ↔ IsOpen verdict.now }
{
    matches!(verdict, CertifiedVerdict::Undecided(_))
}

fn has_failure(verdicts: &[CertifiedVerdict]) -> bool
    ensures { IsTrue result ↔ Any IsFailure verdicts.now }
{
    verdicts.iter().any(|verdict| is_failure(verdict))
}

fn has_open(verdicts: &[CertifiedVerdict]) -> bool
    ensures { IsTrue result ↔ Any IsOpen verdicts.now }
{
    verdicts.iter().any(|verdict| is_open(verdict))
}

/// What comes of these verdicts together.
fn summary_of(verdicts: &[CertifiedVerdict]) -> Summary
    ensures { Sums IsFailure IsOpen verdicts.now result }
{
    Summary::of(has_failure(verdicts), has_open(verdicts))
}

/// What is told of claims: the text of the verdicts, the certificates, and what comes of all.
#[derive(Debug, Drop)]
pub struct CertifiedAnswer {
    pub text: String,
    pub certificates: String,
    pub summary: Summary,
}

/// The text of the verdicts on the claims about a ladder, the certificates, and what comes of all.
fn certified_answer(
    alloc: Global,
    source: LadderSource<'_>,
    question: &Question<'_>,
    effort: u64,
) -> Result<CertifiedAnswer, VerifyFault>
    ensures ok { IfOk result (λ a. IsCertifiedAnswer (source_of source.entry) (question_of question.now)
        (string_bytes a.text) (string_bytes a.certificates) a.summary) }
    ensures err { IfErr result (RefusesPreparing (source_of source.entry) (question_of question.now)) }
{
    let prepared = prepare(alloc, source, question)?;
    let verdicts = certify_claims(alloc, &prepared, effort)?;
    let meeting = meeting_of(alloc, &prepared, effort)?;
    let told = Told {
        setup: &prepared.whole,
        file: question.file,
        scope: Scope {
            needed: prepared.needed,
            networks: prepared.networks,
            meeting,
        },
    };
    let mut text = verdict_texts(alloc, &told, question.claims, &verdicts)?;
    push_premise_line(alloc, &mut text, &prepared.whole, &prepared.constants)?;
    let ladder = prepared.searched().ladder();
    let certificates = certificates_text(alloc, ladder, question.claims, &verdicts)?;
    Ok(CertifiedAnswer {
        text,
        certificates,
        summary: summary_of(&verdicts),
    })
}

/// Tells of each claim about the ladder of a source whether it holds, whatever the free inputs do and, if this is asked, before
/// whatever scans it restarts, as far as a search by induction with at most so many queries for each claim finds out; and gives
/// the certificates of those that hold, and what comes of all.
///
/// `Command(Text)`, `Command(Word)`, `Command(Memory)`, `Claim`, `Given`, `Held` and `NoTime` come before anything is written;
/// `TooManyInputs` never does. After `Command(Write)` what went out is a prefix, and not all.
pub fn certify_text<W: Write>(
    alloc: Global,
    source: LadderSource<'_>,
    question: &Question<'_>,
    effort: u64,
    writer: &mut W,
) -> Result<CertifiedAnswer, VerifyFault>
    ensures ok { IfOk result (λ a. WritesCertified (source_of source.entry) (question_of question.now)
        (W.contents writer.old) (W.contents writer.new) (string_bytes a.certificates) a.summary) }
    ensures fault { IfErr result
        (ExplainsCertified (source_of source.entry) (question_of question.now) (W.contents writer.old) (W.contents writer.new)) }
{
    let answer = certified_answer(alloc, source, question, effort)?;
    write_text(writer, answer.text.as_str())?;
    Ok(answer)
}
