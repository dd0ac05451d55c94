ghost use Rattle.std.specs.Prelude.{◌≡◌, IfOk, IfErr, OnOk, length, string_bytes};
ghost use Rattle.std.specs.List.{AllByRecursion, flat_map, zip};
ghost use Rattle.std.specs.Option.{option_map};
ghost use Rattle.text_lines.specs.Growing.{GrowsBy};
ghost use Rattle.text_lines.specs.ReadParts.{IsInRange};
ghost use Rattle.evaluation.specs.Retained.{Suits};
ghost use Rattle.keepers.specs.KeptRetained.{program_name, variable_name, before_value, line_text, retained_text};
ghost use Rattle.keepers.specs.Steps.Reading.{line_end, longest, longest_of, IsValueOf, IsLonger, IsLineRead, IsReadFault, IsWithin};

use declared_names::Kind;
use std::alloc::{AllocError, Global};
use std_blocks::Value;
use task_codes::{RetainedVariable, TaskCode};
use text_lines::{are_same, behind, push_value, value_of};

/// Why no values are read.
#[derive(Clone, Copy, Debug, PartialEq, Eq)]
pub(crate) enum ReadFault {
    /// The line at this place, counted from 0, isn't that of the retained variable there; behind all lines there is more.
    Departs(usize),
    /// There was no memory left.
    Memory,
}

impl From<AllocError> for ReadFault {
    ghost use Rattle.keepers.specs.declared.retained_text.ReadFault.TheVariants.{Memory};

    ghost from_gives = { λ _ fault. fault ≡ Memory };

    fn from(_fault: AllocError) -> ReadFault {
        ReadFault::Memory
    }
}

fn program_name(code: &TaskCode, variable: RetainedVariable) -> &str
    ensures { result.now ≡ program_name code.now variable }
{
    match code.program_name(variable.program) {
        Some(name) => name,
        None => "",
    }
}

fn variable_name(code: &TaskCode, variable: RetainedVariable) -> &str
    ensures { result.now ≡ variable_name code.now variable }
{
    let Some(ladder) = code.ladder(variable.program) else {
        return "";
    };
    match ladder.declarations().entry(variable.place) {
        Some((name, _)) => name,
        None => "",
    }
}

/// What stands before the value of a retained variable, as `H.M=`.
pub fn before_value(
    alloc: Global,
    code: &TaskCode,
    variable: RetainedVariable,
) -> Result<String, AllocError>
    ensures { IfOk result (λ text. string_bytes text ≡ before_value code.now variable) }
{
    let mut text = String::new(alloc);
    text.push_str(program_name(code, variable))?;
    text.push_str(".")?;
    text.push_str(variable_name(code, variable))?;
    text.push_str("=")?;
    Ok(text)
}

/// Writes the line of a retained variable and its value, as `H.M=1`, behind a text.
fn push_line(
    alloc: Global,
    text: &mut String,
    code: &TaskCode,
    variable: RetainedVariable,
    value: Value,
) -> Result<(), AllocError>
    ensures { OnOk result (GrowsBy text.old text.new (line_text code.now (variable, value))) }
{
    let before = before_value(alloc, code, variable)?;
    text.push_str(before.as_str())?;
    push_value(text, value)?;
    text.push_str("\n")
}

/// Writes the lines of retained variables and their values behind a text.
fn push_lines(
    alloc: Global,
    text: &mut String,
    code: &TaskCode,
    variables: &[RetainedVariable],
    values: &[Value],
) -> Result<(), AllocError>
    requires { length values.now ≡ length variables.now }
    ensures { OnOk result (GrowsBy text.old text.new (flat_map (line_text code.now) (zip variables.now values.now))) }
{
    for k in 0..variables.len() {
        push_line(alloc, text, code, variables[k], values[k])?;
    }
    Ok(())
}

/// The text in which the values of a task's retained variables are kept.
pub(crate) fn retained_text(
    alloc: Global,
    code: &TaskCode,
    values: &[Value],
) -> Result<String, AllocError>
    requires { length values.now ≡ length code.now.retained }
    ensures { IfOk result (λ text. string_bytes text ≡ retained_text code.now values.now) }
{
    let mut text = String::new(alloc);
    push_lines(alloc, &mut text, code, code.retained(), values)?;
    Ok(text)
}

/// No value of a kind has a longer text.
fn longest_value(kind: Kind) -> Value
    ensures { result ≡ longest kind }
{
    match kind {
        Kind::Bool => Value::Bool(true),
        Kind::Int => Value::Int(i16::MIN),
        Kind::Time => Value::Time(u32::MAX),
    }
}

/// The longest values of retained variables.
fn longest_values(alloc: Global, variables: &[RetainedVariable]) -> Result<Vec<Value>, AllocError>
    ensures { IfOk result (λ values. values.items ≡ longest_of variables.now) }
{
    variables
        .iter()
        .map(|variable| longest_value(variable.kind))
        .collect(alloc)
}

/// One more byte than the longest text has that is kept of a code.
#[tactic(auto, using(crate::proofs::RetainedTexts::longest_many, crate::proofs::RetainedTexts::longer_than))]
pub(crate) fn most_bytes(alloc: Global, code: &TaskCode) -> Result<usize, AllocError>
    ensures { IfOk result (IsLonger code.now) }
{
    let longest = longest_values(alloc, code.retained())?;
    let text = retained_text(alloc, code, longest.as_slice())?;
    Ok(text.len() + 1)
}

/// The value of a kind that a word is the text of.
fn read_value(alloc: Global, kind: Kind, word: &[u8]) -> Result<Option<Value>, AllocError>
    ensures { IfOk result (IsValueOf kind word.now) }
{
    let Some(value) = value_of(kind, word) else {
        return Ok(None);
    };
    let mut text = String::new(alloc);
    push_value(&mut text, value)?;
    if are_same(text.as_bytes(), word) {
        Ok(Some(value))
    } else {
        Ok(None)
    }
}

/// Where the first line feed stands.
fn line_end(text: &[u8]) -> Option<usize>
    ensures { result ≡ line_end text.now }
{
    text.iter().position(|c| *c == b'\n')
}

/// The value in the line with which a text begins, if it is that of this variable, and what stands behind the line.
#[tactic(auto, using(crate::proofs::ReadTexts::no_name, crate::proofs::ReadTexts::no_feed, crate::proofs::ReadTexts::no_value_there, crate::proofs::ReadTexts::one_value_read))]
fn read_line<'a>(
    alloc: Global,
    code: &TaskCode,
    variable: RetainedVariable,
    text: &'a [u8],
) -> Result<Option<(Value, &'a [u8])>, AllocError>
    ensures { IfOk result (λ found. IsLineRead code.now variable text.now (option_map (λ l. (l.0, l.1.now)) found)) }
{
    let before = before_value(alloc, code, variable)?;
    let Some(behind) = behind(text, before.as_bytes()) else {
        return Ok(None);
    };
    let Some(end) = line_end(behind) else {
        return Ok(None);
    };
    match read_value(alloc, variable.kind, &behind[..end])? {
        Some(value) => Ok(Some((value, &behind[end + 1..]))),
        None => Ok(None),
    }
}

/// Reads the lines of a code's retained variables, which are all that a text has.
#[tactic(auto, using(crate::proofs::ReadTexts::read_suits, crate::proofs::ReadTexts::read_text, crate::proofs::ReadTexts::read_behind))]
fn read_lines(
    alloc: Global,
    code: &TaskCode,
    variables: &[RetainedVariable],
    text: &[u8],
) -> Result<Vec<Value>, ReadFault>
    requires { variables.now ≡ code.now.retained }
    ensures suits { IfOk result (λ values. Suits code.now values.items) }
    ensures in_range { IfOk result (λ values. AllByRecursion IsInRange values.items) }
    ensures text { IfOk result (λ values. text.now ≡ retained_text code.now values.items) }
    ensures fault { IfErr result (IsReadFault code.now text.now) }
    ensures within { IfErr result (IsWithin code.now) }
{
    let mut values = Vec::new(alloc);
    let mut rest = text;
    for k in 0..variables.len() {
        let Some((value, behind)) = read_line(alloc, code, variables[k], rest)? else {
            return Err(ReadFault::Departs(k));
        };
        let Ok(()) = values.push(value) else {
            return Err(ReadFault::Memory);
        };
        rest = behind;
    }
    if rest.is_empty() {
        Ok(values)
    } else {
        Err(ReadFault::Departs(variables.len()))
    }
}

/// The values of the retained variables of a code whose text this is.
pub(crate) fn read_values(
    alloc: Global,
    code: &TaskCode,
    text: &[u8],
) -> Result<Vec<Value>, ReadFault>
    ensures suits { IfOk result (λ values. Suits code.now values.items) }
    ensures in_range { IfOk result (λ values. AllByRecursion IsInRange values.items) }
    ensures text { IfOk result (λ values. text.now ≡ retained_text code.now values.items) }
    ensures fault { IfErr result (IsReadFault code.now text.now) }
    ensures within { IfErr result (IsWithin code.now) }
{
    read_lines(alloc, code, code.retained(), text)
}
