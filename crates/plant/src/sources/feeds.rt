//! The binds of instances, each with its input and its source found by name.

ghost use Rattle.std.specs.Prelude.{◌≡◌, ◌≢◌, All, IfOk, OnErr, IfErr};
ghost use Rattle.std.specs.List.{AllZip, flat_map};
ghost use Rattle.task_codes.specs.CodeValue.{lists_of};
ghost use Rattle.plant.specs.SourceFaults.{value_line, lines_at};
ghost use Rattle.plant.specs.declared.sources.source_fault.SourceFault.TheVariants.{Memory};
ghost use Rattle.plant.specs.Steps.Drafts.{seen, drafted, IsValue, HasNoValue, IsOriginOf, HasNoOrigin, IsFeedOf, IsTypeKnown, AreDraftsApart};
ghost use Rattle.plant.specs.Steps.FedUses.{IsUseFed, AreUsesFed};
ghost use Rattle.plant.specs.Steps.SourceFaults.{IsValueMissing, IsOriginMissing, IsUnknownOn, TellsOfBind, TellsOfBinds, TellsOfUse, TellsOfUses};
ghost use Rattle.plant_grammar.specs.Lawful.{binds_of, uses_of};
ghost use Rattle.plant_grammar.specs.Steps.ReadParts.{FindsInput};

use crate::named::find_named;
use crate::program_type::{ProgramType, type_named};
use crate::sources::draft::uses_of;
use crate::sources::fed_use::FedUse;
use crate::sources::feed::{Feed, Origin};
use crate::sources::lookup::{find_instance, find_output};
use crate::sources::resource_draft::ResourceDraft;
use crate::sources::source_fault::SourceFault;
use declared_names::{Declarations, Declared, Kind, kind_of_space};
use plant_grammar::{Bind, Name, Resource, SourceLines, SourceName, Use};
use std::alloc::Global;
use task_codes::TaskRef;

/// The value of a task's image that names on these lines mean, and its kind.
fn find_value(
    drafts: &[ResourceDraft],
    resource: &Name,
    instance: &Name,
    output: &Name,
    lines: SourceLines,
) -> Result<(TaskRef, usize, Kind), SourceFault>
    ensures ok { IfOk result (IsValue (drafted drafts.now) resource.now instance.now output.now) }
    ensures refused { OnErr result (AreDraftsApart drafts.now → HasNoValue (drafted drafts.now) resource.now instance.now output.now) }
    ensures missing { IfErr result (IsUnknownOn (λ line. IsValueMissing (drafted drafts.now) resource.now instance.now lines line)) }
{
    let Some(position) = find_named(drafts, resource.as_str()) else {
        return Err(SourceFault::Unknown(lines.resource));
    };
    let tasks = drafts[position].tasks();
    let Some((task, program)) = find_instance(tasks, instance.as_str()) else {
        return Err(SourceFault::Unknown(lines.instance));
    };
    let Some((place, kind)) = find_output(&tasks[task], program, output.as_str()) else {
        return Err(SourceFault::Unknown(lines.output));
    };
    let found = TaskRef {
        resource: position,
        task,
    };
    Ok((found, place, kind))
}

/// What a source on these lines means, and the kind of its values.
fn find_origin(
    drafts: &[ResourceDraft],
    source: &SourceName,
    lines: SourceLines,
) -> Result<(Origin, Kind), SourceFault>
    ensures ok { IfOk result (λ x. IsOriginOf (drafted drafts.now) source.now x.0 x.1) }
    ensures refused { OnErr result (AreDraftsApart drafts.now → HasNoOrigin (drafted drafts.now) source.now) }
    ensures missing { IfErr result (IsUnknownOn (λ line. IsOriginMissing (drafted drafts.now) source.now lines line)) }
{
    match source {
        SourceName::Field(address) => Ok((Origin::Field(*address), kind_of_space(address.space))),
        SourceName::Output {
            resource,
            instance,
            output,
        } => {
            let (task, output, kind) = find_value(drafts, resource, instance, output, lines)?;
            Ok((Origin::Output { task, output }, kind))
        }
    }
}

/// The place of an input, and its kind. `None`: the name is no input's.
fn find_input(declarations: &Declarations, name: &str) -> Option<(usize, Kind)>
    ensures { FindsInput declarations.now name.now result }
{
    let place = declarations.position(name)?;
    match declarations.entry(place) {
        Some((_, Declared::Input(kind))) => Some((place, kind)),
        _ => None,
    }
}

/// The line on which a source of another kind than its input is refused.
fn source_line(source: &SourceName, lines: SourceLines) -> u64
    ensures { result ≡ value_line source.now lines }
{
    match source {
        SourceName::Field(_) => lines.resource,
        SourceName::Output { .. } => lines.output,
    }
}

/// The lines of the source of a bind, by its place; 0 where none are kept.
fn lines_at(lines: &[SourceLines], place: usize) -> SourceLines
    ensures { result ≡ lines_at lines.now place }
{
    match lines.get(place) {
        Some(found) => *found,
        None => SourceLines {
            resource: 0,
            instance: 0,
            output: 0,
        },
    }
}

/// A bind with its names resolved, its source on these lines.
fn feed(
    drafts: &[ResourceDraft],
    declarations: &Declarations,
    bind: &Bind,
    lines: SourceLines,
) -> Result<Feed, SourceFault>
    ensures ok { IfOk result (IsFeedOf (drafted drafts.now) declarations.now bind.now) }
    ensures why { IfErr result (λ e. AreDraftsApart drafts.now → TellsOfBind (drafted drafts.now) declarations.now e bind.now lines) }
{
    let Some((place, kind)) = find_input(declarations, bind.input.as_str()) else {
        return Err(SourceFault::Unknown(lines.resource));
    };
    let (origin, given) = find_origin(drafts, &bind.source, lines)?;
    if given != kind {
        return Err(SourceFault::WrongKind(source_line(&bind.source, lines)));
    }
    Ok(Feed {
        place,
        kind,
        origin,
    })
}

/// The binds of an instance; none where it has no parentheses.
fn binds_of(run: &Use) -> &[Bind]
    ensures { result.now ≡ binds_of run.now }
{
    match &run.binds {
        Some(binds) => binds.as_slice(),
        None => &[],
    }
}

/// Binds with their names resolved, their sources on these lines.
fn feeds(
    alloc: Global,
    drafts: &[ResourceDraft],
    declarations: &Declarations,
    binds: &[Bind],
    lines: &[SourceLines],
) -> Result<Vec<Feed>, SourceFault>
    ensures ok { IfOk result (λ fs. AllZip (IsFeedOf (drafted drafts.now) declarations.now) binds.now fs.items) }
    ensures why { IfErr result (λ e. e ≢ Memory → AreDraftsApart drafts.now → TellsOfBinds (drafted drafts.now) declarations.now binds.now lines.now e) }
{
    let mut feeds = Vec::new(alloc);
    for (i, bind) in binds.iter().enumerate() {
        let found = feed(drafts, declarations, bind, lines_at(lines, i))?;
        feeds.push(found)?;
    }
    Ok(feeds)
}

/// An instance with its binds resolved.
fn fed_use<'a>(
    alloc: Global,
    drafts: &[ResourceDraft],
    types: &[ProgramType],
    run: &'a Use,
) -> Result<FedUse<'a>, SourceFault>
    requires { IsTypeKnown types.now run.now }
    ensures ok { IfOk result (IsUseFed (drafted drafts.now) types.now run.now) }
    ensures why { IfErr result (λ e. e ≢ Memory → AreDraftsApart drafts.now → TellsOfUse (drafted drafts.now) types.now run.now e) }
{
    let Some(found) = type_named(types, &run.program) else {
        unreachable!()
    };
    let declarations = found.ladder().declarations();
    let feeds = feeds(
        alloc,
        drafts,
        declarations,
        binds_of(run),
        run.lines.as_slice(),
    )?;
    Ok(FedUse::new(run, feeds))
}

/// Instances with their binds resolved.
fn fed_uses<'a>(
    alloc: Global,
    drafts: &[ResourceDraft],
    types: &[ProgramType],
    runs: &[&'a Use],
) -> Result<Vec<FedUse<'a>>, SourceFault>
    requires { All (IsTypeKnown types.now) (seen runs.now) }
    ensures ok { IfOk result (λ us. AllZip (IsUseFed (drafted drafts.now) types.now) (seen runs.now) us.items) }
    ensures why { IfErr result (λ e. e ≢ Memory → AreDraftsApart drafts.now → TellsOfUses (drafted drafts.now) types.now (seen runs.now) e) }
{
    let mut fed = Vec::new(alloc);
    for run in runs {
        fed.push(fed_use(alloc, drafts, types, run)?)?;
    }
    Ok(fed)
}

/// The instances of a resource with their binds resolved, in order of declaration.
fn fed_resource<'a>(
    alloc: Global,
    drafts: &[ResourceDraft],
    types: &[ProgramType],
    resource: &'a Resource,
) -> Result<Vec<FedUse<'a>>, SourceFault>
    requires { All (IsTypeKnown types.now) (uses_of resource.now) }
    ensures ok { IfOk result (λ us. AllZip (IsUseFed (drafted drafts.now) types.now) (uses_of resource.now) us.items) }
    ensures why { IfErr result (λ e. e ≢ Memory → AreDraftsApart drafts.now → TellsOfUses (drafted drafts.now) types.now (uses_of resource.now) e) }
{
    let runs = uses_of(alloc, resource)?;
    fed_uses(alloc, drafts, types, runs.as_slice())
}

/// The instances of each resource with their binds resolved. The first fault is answered, in order of the text.
pub fn fed_resources<'a>(
    alloc: Global,
    drafts: &[ResourceDraft],
    types: &[ProgramType],
    resources: &'a [Resource],
) -> Result<Vec<Vec<FedUse<'a>>>, SourceFault>
    requires { All (IsTypeKnown types.now) (flat_map uses_of resources.now) }
    ensures ok { IfOk result (λ fs. AllZip (AreUsesFed (drafted drafts.now) types.now) resources.now (lists_of fs.items)) }
    ensures why { IfErr result (λ e. e ≢ Memory → AreDraftsApart drafts.now → TellsOfUses (drafted drafts.now) types.now (flat_map uses_of resources.now) e) }
{
    let mut fed = Vec::new(alloc);
    for resource in resources {
        fed.push(fed_resource(alloc, drafts, types, resource)?)?;
    }
    Ok(fed)
}
