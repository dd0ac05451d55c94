ghost use Rattle.std.specs.Prelude.{◌≡◌, ◌++◌, IfOk, OnOk, fold, string_bytes};
ghost use Rattle.std.specs.List.{flat_map};
ghost use Rattle.guidance.specs.Explaining.{all_kinds, and_part, explained, head_text, is_called, kind_line, remark, remark_lines, remark_text, shown_lines, told_on, told_text, topic_line, topic_text};
ghost use Rattle.guidance.specs.Topics.{told};
ghost use Rattle.guidance.specs.Steps.Explained.{and_occasion, and_remark, and_topic};

use crate::advice::{Advice, Layer};
use crate::remarks::{OCCASIONS, Occasion};
use crate::topic::{TOPICS, Topic};
use std::alloc::{AllocError, Global};
use std::fmt::Write;

/// Whether two names are the same, in whatever case.
fn is_called(name: &str, kind: &str) -> bool
    ensures { result ≡ is_called name.now kind.now }
{
    name.eq_ignore_ascii_case(kind)
}

/// Writes the lines of a text, each behind two blanks.
fn push_lines(text: &mut String, example: &str) -> Result<(), AllocError>
    ensures { OnOk result (string_bytes text.new ≡ string_bytes text.old ++ shown_lines example.now) }
{
    for line in example.lines() {
        write!(text, "  {line}\n")?;
    }
    Ok(())
}

/// A kind, where it is met, and what is wrong.
fn head_text(alloc: Global, kind: &str, layer: Layer, sentence: &str) -> Result<String, AllocError>
    ensures { IfOk result (λ text. string_bytes text ≡ head_text kind.now layer sentence.now) }
{
    let (place, heading) = (layer.text(), layer.heading());
    let text = format!(in alloc; "{kind} {place}:\n{sentence}\n\n{heading}:\n\n")?;
    Ok(text)
}

/// The advice on a kind, with an example.
#[tactic(auto, unfolding(crate::specs::Explaining::told_text))]
fn advice_text(alloc: Global, advice: Advice) -> Result<String, AllocError>
    ensures { IfOk result (λ text. string_bytes text
        ≡ told_text advice.kind.now advice.layer (told advice.sentence.now advice.example.now advice.mended.now)) }
{
    let mut text = head_text(alloc, advice.kind, advice.layer, advice.sentence)?;
    push_lines(&mut text, advice.example)?;
    text.push_str("\nMended:\n\n")?;
    push_lines(&mut text, advice.mended)?;
    Ok(text)
}

/// What is told of one kind of fault or warning.
fn topic_text(alloc: Global, topic: Topic) -> Result<String, AllocError>
    ensures { IfOk result (λ text. string_bytes text ≡ topic_text topic) }
{
    advice_text(alloc, topic.advice())
}

/// What is told of a kind of what happens.
fn remark_text(
    alloc: Global,
    occasion: Occasion,
    kind: &str,
    sentence: &str,
) -> Result<String, AllocError>
    ensures { IfOk result (λ text. string_bytes text ≡ remark_text occasion (remark kind.now sentence.now)) }
{
    let place = occasion.text();
    let text = format!(in alloc; "{kind} {place}:\n{sentence}\n")?;
    Ok(text)
}

/// Writes a part behind what was told before and an empty line.
fn push_part(text: &mut String, part: &str) -> Result<(), AllocError>
    ensures { OnOk result (string_bytes text.new ≡ and_part (string_bytes text.old) part.now) }
{
    if !text.is_empty() {
        text.push_str("\n")?;
    }
    text.push_str(part)
}

/// Writes what is told of a kind, if it has this name.
fn push_topic(text: &mut String, alloc: Global, topic: Topic, kind: &str) -> Result<(), AllocError>
    ensures { OnOk result (string_bytes text.new ≡ and_topic kind.now (string_bytes text.old) topic) }
{
    if !is_called(topic.advice().kind, kind) {
        return Ok(());
    }
    let part = topic_text(alloc, topic)?;
    push_part(text, part.as_str())
}

/// Writes what is told of a kind of what happens, if it has this name.
fn push_remark(
    text: &mut String,
    alloc: Global,
    occasion: Occasion,
    kind: &str,
    sentence: &str,
    name: &str,
) -> Result<(), AllocError>
    ensures { OnOk result (string_bytes text.new
        ≡ and_remark occasion name.now (string_bytes text.old) (remark kind.now sentence.now)) }
{
    if !is_called(kind, name) {
        return Ok(());
    }
    let part = remark_text(alloc, occasion, kind, sentence)?;
    push_part(text, part.as_str())
}

/// Writes what is told of the kinds of this name on an occasion.
fn push_remarks(
    text: &mut String,
    alloc: Global,
    occasion: Occasion,
    name: &str,
) -> Result<(), AllocError>
    ensures { OnOk result (string_bytes text.new ≡ fold and_part (string_bytes text.old) (told_on name.now occasion)) }
{
    for (kind, sentence) in occasion.remarks() {
        push_remark(text, alloc, occasion, kind, sentence, name)?;
    }
    Ok(())
}

/// Writes a line for a kind, with where it is met.
fn push_kind(text: &mut String, kind: &str, place: &str) -> Result<(), AllocError>
    ensures { OnOk result (string_bytes text.new ≡ string_bytes text.old ++ kind_line kind.now place.now) }
{
    write!(text, "{kind} {place}\n")
}

/// Writes the line of a kind of fault or warning.
fn push_topic_kind(text: &mut String, topic: Topic) -> Result<(), AllocError>
    ensures { OnOk result (string_bytes text.new ≡ string_bytes text.old ++ topic_line topic) }
{
    let advice = topic.advice();
    push_kind(text, advice.kind, advice.layer.text())
}

/// Writes a line for each kind on an occasion.
fn push_kinds(text: &mut String, occasion: Occasion) -> Result<(), AllocError>
    ensures { OnOk result (string_bytes text.new
        ≡ string_bytes text.old ++ remark_lines occasion) }
{
    for (kind, _) in occasion.remarks() {
        push_kind(text, kind, occasion.text())?;
    }
    Ok(())
}

/// Writes what is told of those of these faults and warnings that have this name.
fn push_topics(
    text: &mut String,
    alloc: Global,
    topics: &[Topic],
    name: &str,
) -> Result<(), AllocError>
    ensures { OnOk result (string_bytes text.new ≡ fold (and_topic name.now) (string_bytes text.old) topics.now) }
{
    for topic in topics {
        push_topic(text, alloc, *topic, name)?;
    }
    Ok(())
}

/// Writes what is told of the kinds of this name on these occasions.
fn push_occasions(
    text: &mut String,
    alloc: Global,
    occasions: &[Occasion],
    name: &str,
) -> Result<(), AllocError>
    ensures { OnOk result (string_bytes text.new ≡ fold (and_occasion name.now) (string_bytes text.old) occasions.now) }
{
    for occasion in occasions {
        push_remarks(text, alloc, *occasion, name)?;
    }
    Ok(())
}

/// What is told of the kinds of this name, in whatever case: of faults of texts layer by layer, of warnings, then of what
/// happens. It is empty where there is none.
pub fn explain(alloc: Global, kind: &str) -> Result<String, AllocError>
    ensures { IfOk result (λ text. string_bytes text ≡ explained kind.now) }
{
    let mut text = String::new(alloc);
    push_topics(&mut text, alloc, &TOPICS, kind)?;
    push_occasions(&mut text, alloc, &OCCASIONS, kind)?;
    Ok(text)
}

/// Writes a line for each of these kinds of fault or warning.
fn push_topic_kinds(text: &mut String, topics: &[Topic]) -> Result<(), AllocError>
    ensures { OnOk result (string_bytes text.new ≡ string_bytes text.old ++ flat_map topic_line topics.now) }
{
    for topic in topics {
        push_topic_kind(text, *topic)?;
    }
    Ok(())
}

/// Writes a line for each kind on these occasions.
fn push_occasion_kinds(text: &mut String, occasions: &[Occasion]) -> Result<(), AllocError>
    ensures { OnOk result (string_bytes text.new ≡ string_bytes text.old ++ flat_map remark_lines occasions.now) }
{
    for occasion in occasions {
        push_kinds(text, *occasion)?;
    }
    Ok(())
}

/// All kinds, a line for each with where it is met.
pub fn kinds(alloc: Global) -> Result<String, AllocError>
    ensures { IfOk result (λ text. string_bytes text ≡ all_kinds) }
{
    let mut text = String::new(alloc);
    push_topic_kinds(&mut text, &TOPICS)?;
    push_occasion_kinds(&mut text, &OCCASIONS)?;
    Ok(text)
}
