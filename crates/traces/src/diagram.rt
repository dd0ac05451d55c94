ghost use Rattle.std.specs.Prelude.{◌≡◌, ◌<◌, ◌^◌, [], IfOk, OnOk, length, slice_get, string_bytes};
ghost use Rattle.std.specs.List.{flat_map};
ghost use Rattle.std.specs.Option.{option_map_or};
ghost use Rattle.text_lines.specs.Growing.{GrowsBy};
ghost use Rattle.traces.specs.Times.{time_of};
ghost use Rattle.traces.specs.Diagram.{diagram_of, marks, row_text, rows_of, segment_text};

use crate::diagram_parts::{push_head, push_mark_at, push_row_head, push_segment, y_of};
use crate::label::label_of;
use crate::scale::Scale;
use crate::segments::{Segment, segments_of};
use crate::times::Times;
use crate::track::Track;
use std::alloc::{AllocError, Global};

fn push_marks(
    text: &mut String,
    scale: Scale,
    bottom: u64,
    times: Times<'_>,
    moments: u32,
) -> Result<(), AllocError>
    ensures { OnOk result (GrowsBy text.old text.new (marks scale bottom (time_of times.entry) moments)) }
{
    for moment in 0..moments {
        push_mark_at(text, scale, bottom, times, moment)?;
    }
    Ok(())
}

fn push_segments(
    text: &mut String,
    alloc: Global,
    scale: Scale,
    row: u32,
    segments: &[Segment],
) -> Result<(), AllocError>
    ensures { OnOk result (GrowsBy text.old text.new (flat_map (segment_text scale row) segments.now)) }
{
    for segment in segments {
        push_segment(text, alloc, scale, row, *segment)?;
    }
    Ok(())
}

/// Writes the row of a variable.
fn push_row(
    text: &mut String,
    alloc: Global,
    scale: Scale,
    row: u32,
    track: &Track,
) -> Result<(), AllocError>
    ensures { OnOk result (GrowsBy text.old text.new (row_text scale row track.now)) }
{
    let label = label_of(alloc, track)?;
    let segments = segments_of(alloc, track.values())?;
    push_row_head(text, y_of(row) + 17, label.as_str())?;
    push_segments(text, alloc, scale, row, &segments)?;
    text.push_str("</g>\n")
}

fn push_row_at(
    text: &mut String,
    alloc: Global,
    scale: Scale,
    row: u32,
    tracks: &[Track],
) -> Result<(), AllocError>
    ensures { OnOk result (GrowsBy text.old text.new
        (option_map_or (row_text scale row) (slice_get tracks.now row) [])) }
{
    match tracks.get(row as usize) {
        Some(track) => push_row(text, alloc, scale, row, track),
        None => Ok(()),
    }
}

fn push_rows(
    text: &mut String,
    alloc: Global,
    scale: Scale,
    rows: u32,
    tracks: &[Track],
) -> Result<(), AllocError>
    ensures { OnOk result (GrowsBy text.old text.new (rows_of scale tracks.now rows)) }
{
    for row in 0..rows {
        push_row_at(text, alloc, scale, row, tracks)?;
    }
    Ok(())
}

/// How many variables there are, as a number of 32 bits. More don't fit into memory.
fn rows_in(tracks: &[Track]) -> Result<u32, AllocError>
    ensures { IfOk result (λ rows. rows ≡ length tracks.now) }
{
    match u32::try_from(tracks.len()) {
        Ok(rows) => Ok(rows),
        Err(_) => Err(AllocError),
    }
}

/// The timing diagram of variables over so many moments that begin at these times, as an SVG document with a title.
pub fn diagram_text(
    alloc: Global,
    title: &str,
    times: Times<'_>,
    moments: u32,
    tracks: &[Track],
) -> Result<String, AllocError>
    ensures { IfOk result (λ text. string_bytes text ≡ diagram_of title.now (time_of times.entry) moments tracks.now) }
{
    let rows = rows_in(tracks)?;
    let scale = Scale::of(alloc, tracks, moments)?;
    let bottom = y_of(rows);
    let mut text = String::new(alloc);
    push_head(&mut text, scale.x(moments) + 100, bottom + 10, title)?;
    push_marks(&mut text, scale, bottom, times, moments)?;
    push_rows(&mut text, alloc, scale, rows, tracks)?;
    text.push_str("</svg>\n")?;
    Ok(text)
}
