//! The warnings of a drawing.

ghost use Rattle.std.specs.Prelude.{◌≡◌, IfOk, OnOk, map};
ghost use Rattle.std.specs.List.Sorted.{IsPermutation, IsSortedBy};
ghost use Rattle.warnings.specs.NeverRead.{found_in_a_program, AreProgramWarnings};
ghost use Rattle.warnings.specs.Found.{is_told_before};
ghost use Rattle.warnings.specs.OfDrawing.{found, AreWarnings};

use crate::elements::elements_of;
use crate::mistyped::mistyped;
use crate::never_read::never_read;
use crate::overwritten::doubles;
use crate::presets::presets;
use crate::warning::Warning;
use declared_names::Declarations;
use network::{Element, Graph};
use std::alloc::{AllocError, Global};

/// Puts warnings in order by line and then column.
fn sort_warnings(warnings: &mut Vec<Warning>) -> Result<(), AllocError>
    ensures permutation { IsPermutation warnings.old.items warnings.new.items }
    ensures sorted { OnOk result (IsSortedBy is_told_before warnings.new.items) }
{
    warnings.sort_by_key(|warning: &Warning| (warning.line, warning.column))?;
    Ok(())
}

/// All that is warned of in the drawing of a program, kind after kind.
#[tactic(auto, unfolding(crate::specs::NeverRead::found_in_a_program))]
fn found_in_a_program(
    alloc: Global,
    dt: u32,
    first_line: u64,
    declarations: &Declarations,
    elements: &[&Element],
) -> Result<Vec<Warning>, AllocError>
    ensures { IfOk result (λ found. found.items ≡ found_in_a_program dt first_line declarations.now (map (λ e. e.now) elements.now)) }
{
    let mut warnings = doubles(alloc, first_line, elements)?;
    let mut more = never_read(alloc, first_line, declarations, elements)?;
    let mut timers = presets(alloc, dt, first_line, elements)?;
    warnings.append(&mut more)?;
    warnings.append(&mut timers)?;
    Ok(warnings)
}

/// All that is warned of, kind after kind.
#[tactic(auto, unfolding(crate::specs::OfDrawing::found))]
fn found(
    alloc: Global,
    dt: u32,
    first_line: u64,
    elements: &[&Element],
) -> Result<Vec<Warning>, AllocError>
    ensures { IfOk result (λ found_here. found_here.items ≡ found dt first_line (map (λ e. e.now) elements.now)) }
{
    let mut warnings = doubles(alloc, first_line, elements)?;
    let mut more = mistyped(alloc, first_line, elements)?;
    let mut last = presets(alloc, dt, first_line, elements)?;
    warnings.append(&mut more)?;
    warnings.append(&mut last)?;
    Ok(warnings)
}

/// What is warned of in a drawing, by line and then column: each coil that a later one overwrites in the same scan, each
/// contact with a name that is most likely mistyped, and, with `dt` milliseconds from each scan to the next, each duration of
/// a timer that ends between two scans; none of these where `dt` is 0.
pub fn warnings_of_a_drawing(
    alloc: Global,
    dt: u32,
    graph: &Graph,
) -> Result<Vec<Warning>, AllocError>
    ensures { IfOk result (λ warnings. AreWarnings dt graph.now warnings.items) }
{
    let elements = elements_of(alloc, graph)?;
    let mut warnings = found(alloc, dt, graph.first_line(), &elements)?;
    sort_warnings(&mut warnings)?;
    Ok(warnings)
}

/// What is warned of in the drawing of a program with these declarations, by line and then column: each coil that a later
/// one overwrites in the same evaluation, each place where a variable is stored into that nothing reads and that is
/// neither an input nor an output, and, with `dt` milliseconds from each evaluation to the next, each duration of a timer that
/// ends between two of them; none of these where `dt` is 0.
pub fn warnings_of_a_program(
    alloc: Global,
    dt: u32,
    graph: &Graph,
    declarations: &Declarations,
) -> Result<Vec<Warning>, AllocError>
    ensures { IfOk result (λ warnings. AreProgramWarnings dt graph.now declarations.now warnings.items) }
{
    let elements = elements_of(alloc, graph)?;
    let mut warnings = found_in_a_program(alloc, dt, graph.first_line(), declarations, &elements)?;
    sort_warnings(&mut warnings)?;
    Ok(warnings)
}
