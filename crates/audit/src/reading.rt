//! The runs of each resource in order.

ghost use Rattle.std.specs.Prelude.{◌≡◌, ℕ, [], IfOk, OnOk, Some, length, slice_get};
ghost use Rattle.std.specs.Global.{Vec};
ghost use Rattle.audit.specs.Readings.{AreInOrder, lines_of_resource, HaveRuns, AreReadings};
ghost use Rattle.audit.specs.declared.line.Line.{Line as RunLine};

use crate::journal_file::JournalFile;
use crate::line::{Line, Place};
use crate::run::Run;
use crate::runs::runs_in;
use plant::Plant;
use std::alloc::{AllocError, Global};

/// What was read of journals.
#[derive(Drop)]
pub struct Readings {
    /// For each resource of the plant the lines of its runs, the runs by rising incarnation of their STARTs.
    pub resources: Vec<Vec<Line>>,
    /// The first line of each file that has no START.
    pub without_start: Vec<Place>,
}

/// An empty list for each resource.
fn no_lines(alloc: Global, resources: usize) -> Result<Vec<Vec<Line>>, AllocError>
    ensures many { IfOk result (λ all. length all.items ≡ resources) }
    ensures none { IfOk result (λ all. (n : ℕ) (lines : Vec RunLine) → slice_get all.items n ≡ Some lines → lines.items ≡ []) }
{
    let mut all = Vec::with_capacity(alloc, resources)?;
    for _resource in 0..resources {
        all.push(Vec::new(alloc))?;
    }
    Ok(all)
}

/// The lines of the runs of each resource, in the order of the runs.
fn by_resource(alloc: Global, plant: &Plant, runs: Vec<Run>) -> Result<Vec<Vec<Line>>, AllocError>
    ensures many { IfOk result (λ rs. length rs.items ≡ length plant.now.resources) }
    ensures each { IfOk result (λ rs. (n : ℕ) (lines : Vec RunLine) → slice_get rs.items n ≡ Some lines → lines.items ≡ lines_of_resource runs.items n) }
{
    let mut resources = no_lines(alloc, plant.resources())?;
    for run in runs {
        let Run {
            resource,
            mut lines,
            ..
        } = run;
        if resource < resources.len() {
            resources[resource].append(&mut lines)?;
        }
    }
    Ok(resources)
}

/// The runs of all files, and the first lines of those without a START.
fn all_runs(
    alloc: Global,
    plant: &Plant,
    files: &[JournalFile],
) -> Result<(Vec<Run>, Vec<Place>), AllocError>
    ensures { IfOk result (λ r. HaveRuns plant.now files.now (length files.now) r.0.items r.1.items) }
{
    let mut runs = Vec::new(alloc);
    let mut without_start = Vec::new(alloc);
    for file in 0..files.len() {
        let mut found = runs_in(alloc, plant, file, files[file].text.as_slice())?;
        if found.is_empty() {
            without_start.push(Place { file, line: 1 })?;
        }
        runs.append(&mut found)?;
    }
    Ok((runs, without_start))
}

/// Sorts runs by their incarnations. Those of one incarnation stay as they stand.
fn sort(runs: &mut Vec<Run>) -> Result<(), AllocError>
    ensures { OnOk result (AreInOrder runs.old.items runs.new.items) }
{
    runs.sort_by_key(|run| run.incarnation)?;
    Ok(())
}

/// What the journals of a plant's nodes tell of each resource.
pub(crate) fn read_journals(
    alloc: Global,
    plant: &Plant,
    files: &[JournalFile],
) -> Result<Readings, AllocError>
    ensures many { IfOk result (λ r. length r.resources.items ≡ length plant.now.resources) }
    ensures read { IfOk result (AreReadings plant.now files.now) }
{
    let (mut runs, without_start) = all_runs(alloc, plant, files)?;
    sort(&mut runs)?;
    Ok(Readings {
        resources: by_resource(alloc, plant, runs)?,
        without_start,
    })
}
