//! The values of a task's outputs.

ghost use Rattle.std.specs.Prelude.{◌≡◌, ◌++◌, IfOk, IfSome, Some, codes, map, slice_get};
ghost use Rattle.std.specs.List.{AllByRecursion, AllZip};
ghost use Rattle.std.specs.Option.{option_map};
ghost use Rattle.declared_names.specs.Kinds.{kind_of};
ghost use Rattle.task_codes.specs.declared.task_output.TaskOutput.{TaskOutput};
ghost use Rattle.task_codes.specs.CodeValue.{image_kinds};
ghost use Rattle.text_lines.specs.LineParts.{value_text};
ghost use Rattle.text_lines.specs.Lists.{give_text};
ghost use Rattle.text_lines.specs.ReadParts.{IsInRange, IsBehind};
ghost use Rattle.text_lines.specs.Steps.Reading.{output_name, blank_give, blank_gives, AreGivesRead, IsGivenOf, IsOfKind, IsRead};

use crate::beginnings::behind;
use crate::behind_parts::behind_three;
use crate::first_words::value_at;
use declared_names::Kind;
use std::alloc::{AllocError, Global};
use std_blocks::Value;
use task_codes::TaskCode;

/// What stands behind an output's name, as `A.N`; None too where there is no such output.
fn behind_output<'a>(text: &'a [u8], code: &TaskCode, output: usize) -> Option<&'a [u8]>
    ensures { (o : TaskOutput) → slice_get code.now.outputs output ≡ Some o
        → IsBehind text.now (output_name code.now o) (option_map (λ rest. rest.now) result) }
{
    let Some((instance, name)) = code.output_name(output) else {
        return None;
    };
    behind_three(text, instance.as_bytes(), b".", name.as_bytes())
}

/// The value behind `=`.
fn value_behind(text: &[u8], kind: Kind) -> Option<(Value, &[u8])>
    ensures kind { IfSome result (λ r. IsOfKind kind r.0) }
    ensures read { IsRead (λ v. codes "=" ++ value_text v) (IsOfKind kind) 32 text.now (option_map (λ r. (r.0, r.1.now)) result) }
{
    match behind(text, b"=") {
        Some(rest) => value_at(rest, kind),
        None => None,
    }
}

/// The value of an output, where a text begins with its name and that, as `A.N=1`, and the rest.
fn output_at<'a>(
    text: &'a [u8],
    code: &TaskCode,
    output: usize,
    kind: Kind,
) -> Option<(Value, &'a [u8])>
    ensures kind { IfSome result (λ r. IsOfKind kind r.0) }
    ensures read { (o : TaskOutput) → slice_get code.now.outputs output ≡ Some o
        → IsRead (λ v. give_text code.now (o, v)) (IsOfKind kind) 32 text.now (option_map (λ found. (found.0, found.1.now)) result) }
{
    match behind_output(text, code, output) {
        Some(rest) => value_behind(rest, kind),
        None => None,
    }
}

/// The same behind a blank.
fn give_at<'a>(
    text: &'a [u8],
    code: &TaskCode,
    output: usize,
    kind: Kind,
) -> Option<(Value, &'a [u8])>
    ensures kind { IfSome result (λ r. IsOfKind kind r.0) }
    ensures read { (o : TaskOutput) → slice_get code.now.outputs output ≡ Some o
        → IsRead (λ v. blank_give code.now (o, v)) (IsOfKind kind) 32 text.now (option_map (λ found. (found.0, found.1.now)) result) }
{
    match behind(text, b" ") {
        Some(rest) => output_at(rest, code, output, kind),
        None => None,
    }
}

/// The kind of an output; BOOL where there is none.
fn output_kind(code: &TaskCode, output: usize) -> Kind
    ensures { (o : TaskOutput) → slice_get code.now.outputs output ≡ Some o → result ≡ o.kind }
{
    match code.output(output) {
        Some(found) => found.kind,
        None => Kind::Bool,
    }
}

/// The values of all outputs, where a text begins with them, and the rest.
fn gives_at<'a>(
    alloc: Global,
    text: &'a [u8],
    code: &TaskCode,
) -> Result<Option<(Vec<Value>, &'a [u8])>, AllocError>
    ensures kinds { IfOk result (λ found. IfSome found (λ r. map kind_of r.0.items ≡ image_kinds code.now)) }
    ensures in_range { IfOk result (λ found. IfSome found (λ r. AllByRecursion IsInRange r.0.items)) }
    ensures read { IfOk result (λ found. IsRead (blank_gives code.now) (AllZip IsGivenOf code.now.outputs) 32 text.now
        (option_map (λ r. (r.0.items, r.1.now)) found)) }
{
    let mut values = Vec::new(alloc);
    let mut rest = text;
    for output in 0..code.outputs() {
        let Some((value, behind)) = give_at(rest, code, output, output_kind(code, output)) else {
            return Ok(None);
        };
        values.push(value)?;
        rest = behind;
    }
    Ok(Some((values, rest)))
}

/// The values of all outputs behind ` GIVES`, which a text ends with.
pub(crate) fn gives_behind(
    alloc: Global,
    text: &[u8],
    code: &TaskCode,
) -> Result<Option<Vec<Value>>, AllocError>
    ensures kinds { IfOk result (λ found. IfSome found (λ values. map kind_of values.items ≡ image_kinds code.now)) }
    ensures in_range { IfOk result (λ found. IfSome found (λ values. AllByRecursion IsInRange values.items)) }
    ensures read { IfOk result (λ found. AreGivesRead code.now text.now (option_map (λ values. values.items) found)) }
{
    let Some(rest) = behind(text, b" GIVES") else {
        return Ok(None);
    };
    match gives_at(alloc, rest, code)? {
        Some((values, _)) => Ok(Some(values)),
        None => Ok(None),
    }
}
