ghost use Rattle.std.specs.Prelude.{◌≡◌, IfOk, None, Some, if◌then◌else◌, string_bytes};
ghost use Rattle.std.specs.Option.{option_map};
ghost use Rattle.traces.specs.Times.{time_of};
ghost use Rattle.traces.specs.ValueChanges.{dump_of};
ghost use Rattle.traces.specs.Diagram.{diagram_of};
ghost use Rattle.traces.specs.Wanted.{AreTexts, is_nothing};

use crate::diagram::diagram_text;
use crate::times::Times;
use crate::track::Track;
use crate::value_changes::change_dump;
use std::alloc::{AllocError, Global};

/// What is wanted of a trace: a value change dump; a diagram under a title.
#[derive(Clone, Copy, Debug)]
pub struct Wanted<'a> {
    pub dump: bool,
    pub diagram: Option<&'a str>,
}

impl Wanted<'_> {
    /// Whether nothing is wanted.
    pub fn is_nothing(&self) -> bool
        ensures { result ≡ is_nothing self.now }
    {
        !self.dump && self.diagram.is_none()
    }
}

/// The texts of a trace that were wanted.
#[derive(Debug, Drop)]
pub struct TraceTexts {
    pub dump: Option<String>,
    pub diagram: Option<String>,
}

impl TraceTexts {
    /// No texts, which are all where nothing is wanted.
    pub const fn none() -> TraceTexts
        ensures dump { result.dump ≡ None }
        ensures diagram { result.diagram ≡ None }
    {
        TraceTexts {
            dump: None,
            diagram: None,
        }
    }
}

fn wanted_dump(
    alloc: Global,
    wanted: bool,
    times: Times<'_>,
    moments: u32,
    tracks: &[Track],
) -> Result<Option<String>, AllocError>
    ensures { IfOk result (λ dump. option_map (λ t. string_bytes t) dump
        ≡ (if wanted then Some (dump_of (time_of times.entry) moments tracks.now) else None)) }
{
    if !wanted {
        return Ok(None);
    }
    let dump = change_dump(alloc, times, moments, tracks)?;
    Ok(Some(dump))
}

fn wanted_diagram(
    alloc: Global,
    title: Option<&str>,
    times: Times<'_>,
    moments: u32,
    tracks: &[Track],
) -> Result<Option<String>, AllocError>
    ensures { IfOk result (λ diagram. option_map (λ t. string_bytes t) diagram
        ≡ option_map (λ title. diagram_of title.now (time_of times.entry) moments tracks.now) title.entry) }
{
    let Some(title) = title else {
        return Ok(None);
    };
    let diagram = diagram_text(alloc, title, times, moments, tracks)?;
    Ok(Some(diagram))
}

/// The texts that are wanted of variables over so many moments that begin at these times.
pub fn trace_texts(
    alloc: Global,
    wanted: Wanted<'_>,
    times: Times<'_>,
    moments: u32,
    tracks: &[Track],
) -> Result<TraceTexts, AllocError>
    ensures { IfOk result (AreTexts wanted.entry (time_of times.entry) moments tracks.now) }
{
    Ok(TraceTexts {
        dump: wanted_dump(alloc, wanted.dump, times, moments, tracks)?,
        diagram: wanted_diagram(alloc, wanted.diagram, times, moments, tracks)?,
    })
}
