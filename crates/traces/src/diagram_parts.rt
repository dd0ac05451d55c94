ghost use Rattle.std.specs.Prelude.{◌≡◌, ◌<◌, ◌^◌, OnOk};
ghost use Rattle.text_lines.specs.Growing.{GrowsBy};
ghost use Rattle.traces.specs.Times.{time_of};
ghost use Rattle.traces.specs.Diagram.{band_text, corner, drawn_value, high_text, head_text, low_text, lower_side, extent_text, mark_at, mark_label, mark_line, mark_place, mark_text, mark_time, row_head, row_name, row_title, segment_text, shown_text, sides, size_text, style_text, svg_text, title_text, upper_side, value_band, y_of};

use crate::escaped::push_escaped;
use crate::scale::Scale;
use crate::segments::Segment;
use crate::times::Times;
use std::alloc::{AllocError, Global};
use std::fmt::Write;
use std_blocks::Value;
use text_lines::push_value;

/// Where a row begins, from above.
pub fn y_of(row: u32) -> u64
    ensures place { result ≡ y_of row }
    ensures small { result < 2 ^ 48 }
{
    30 + 26 * u64::from(row)
}

fn push_svg(text: &mut String) -> Result<(), AllocError>
    ensures { OnOk result (GrowsBy text.old text.new svg_text) }
{
    write!(text, "<svg xmlns='http://www.w3.org/2000/svg'")
}

fn push_extent(text: &mut String, width: u64, height: u64) -> Result<(), AllocError>
    ensures { OnOk result (GrowsBy text.old text.new (extent_text width height)) }
{
    write!(text, " width='{width}' height='{height}'>\n<title>")
}

fn push_size(text: &mut String, width: u64, height: u64) -> Result<(), AllocError>
    ensures { OnOk result (GrowsBy text.old text.new (size_text width height)) }
{
    push_svg(text)?;
    push_extent(text, width, height)
}

/// Writes what signs of a diagram look like.
fn push_style(text: &mut String) -> Result<(), AllocError>
    ensures { OnOk result (GrowsBy text.old text.new style_text) }
{
    write!(
        text,
        "</title>\n<style>text{{font:12px monospace}}path{{fill:none;stroke:#2a7d2a}}.h{{fill:#cfe8cf}}.b{{fill:#e3ebf8;stroke:#3b5f9e}}.g{{stroke:#dcdcdc}}.s{{fill:#707070}}</style>\n<rect width='100%' height='100%' fill='#fff'/>\n"
    )
}

/// Begins the document.
pub fn push_head(text: &mut String, width: u64, height: u64, title: &str) -> Result<(), AllocError>
    ensures { OnOk result (GrowsBy text.old text.new (head_text width height title.now)) }
{
    push_size(text, width, height)?;
    push_escaped(text, title)?;
    push_style(text)
}

fn push_mark_line(text: &mut String, x: u64, bottom: u64) -> Result<(), AllocError>
    ensures { OnOk result (GrowsBy text.old text.new (mark_line x bottom)) }
{
    write!(text, "<path class='g' d='M{x} 22V{bottom}'/>")
}

fn push_mark_place(text: &mut String, x: u64) -> Result<(), AllocError>
    ensures { OnOk result (GrowsBy text.old text.new (mark_place x)) }
{
    write!(text, "<text class='s' x='{x}'")
}

fn push_mark_label(text: &mut String, time: u64) -> Result<(), AllocError>
    ensures { OnOk result (GrowsBy text.old text.new (mark_label time)) }
{
    write!(text, " y='16'>{time} ms</text>\n")
}

fn push_mark_time(text: &mut String, x: u64, time: u64) -> Result<(), AllocError>
    ensures { OnOk result (GrowsBy text.old text.new (mark_time x time)) }
{
    push_mark_place(text, x)?;
    push_mark_label(text, time)
}

fn push_mark(text: &mut String, x: u64, bottom: u64, time: u64) -> Result<(), AllocError>
    ensures { OnOk result (GrowsBy text.old text.new (mark_text x bottom time)) }
{
    push_mark_line(text, x, bottom)?;
    push_mark_time(text, x, time)
}

/// A path begins.
fn push_corner(text: &mut String, x: u64, y: u64) -> Result<(), AllocError>
    ensures { OnOk result (GrowsBy text.old text.new (corner x y)) }
{
    write!(text, "M{x} {y}")
}

fn push_sides(text: &mut String, high: u64, to: u64, low: u64) -> Result<(), AllocError>
    ensures { OnOk result (GrowsBy text.old text.new (sides high to low)) }
{
    write!(text, "V{high}H{to}V{low}")
}

fn push_upper_side(text: &mut String, slant: u8, to: u64) -> Result<(), AllocError>
    ensures { OnOk result (GrowsBy text.old text.new (upper_side slant to)) }
{
    write!(text, "l{slant} -9H{to}")
}

fn push_lower_side(text: &mut String, slant: u8, from: u64) -> Result<(), AllocError>
    ensures { OnOk result (GrowsBy text.old text.new (lower_side slant from)) }
{
    write!(text, "l{slant} 9l-{slant} 9H{from}")
}

/// Ends a band, which tells its value.
fn push_title(text: &mut String, shown: &str) -> Result<(), AllocError>
    ensures { OnOk result (GrowsBy text.old text.new (title_text shown.now)) }
{
    write!(text, "Z'><title>{shown}</title></path>\n")
}

fn push_row_title(text: &mut String, label: &str) -> Result<(), AllocError>
    ensures { OnOk result (GrowsBy text.old text.new (row_title label.now)) }
{
    text.push_str("<g><title>")?;
    push_escaped(text, label)?;
    text.push_str("</title>\n")
}

fn push_row_name(text: &mut String, base: u64, label: &str) -> Result<(), AllocError>
    ensures { OnOk result (GrowsBy text.old text.new (row_name base label.now)) }
{
    write!(text, "<text x='8' y='{base}'>")?;
    push_escaped(text, label)?;
    text.push_str("</text>\n")
}

/// Begins a row with the name of its variable.
pub fn push_row_head(text: &mut String, base: u64, label: &str) -> Result<(), AllocError>
    ensures { OnOk result (GrowsBy text.old text.new (row_head base label.now)) }
{
    push_row_title(text, label)?;
    push_row_name(text, base, label)
}

/// Writes the mark of a moment, if it has one.
pub fn push_mark_at(
    text: &mut String,
    scale: Scale,
    bottom: u64,
    times: Times<'_>,
    moment: u32,
) -> Result<(), AllocError>
    ensures { OnOk result (GrowsBy text.old text.new (mark_at scale bottom (time_of times.entry) moment)) }
{
    if moment % scale.mark_every() != 0 {
        return Ok(());
    }
    push_mark(text, scale.x(moment), bottom, times.time_of(moment))
}

/// Writes a BOOL that is on.
fn push_high(text: &mut String, from: u64, to: u64, y: u64) -> Result<(), AllocError>
    requires { y < 2 ^ 48 }
    ensures { OnOk result (GrowsBy text.old text.new (high_text from to y)) }
{
    text.push_str("<path class='h' d='")?;
    push_corner(text, from, y + 22)?;
    push_sides(text, y + 4, to, y + 22)?;
    text.push_str("'/>\n")
}

/// Writes a BOOL that is off.
fn push_low(text: &mut String, from: u64, to: u64, y: u64) -> Result<(), AllocError>
    requires { y < 2 ^ 48 }
    ensures { OnOk result (GrowsBy text.old text.new (low_text from to y)) }
{
    let low = y + 22;
    write!(text, "<path d='M{from} {low}H{to}'/>\n")
}

/// Writes the band of a value.
fn push_band(
    text: &mut String,
    slant: u8,
    from: u64,
    to: u64,
    y: u64,
    shown: &str,
) -> Result<(), AllocError>
    requires from { from < 2 ^ 48 }
    requires y { y < 2 ^ 48 }
    ensures { OnOk result (GrowsBy text.old text.new (band_text slant from to y shown.now)) }
{
    text.push_str("<path class='b' d='")?;
    push_corner(text, from, y + 13)?;
    push_upper_side(text, slant, to.saturating_sub(u64::from(slant)))?;
    push_lower_side(text, slant, from + u64::from(slant))?;
    push_title(text, shown)
}

/// Writes a value into its band, where it has room.
fn push_shown(text: &mut String, from: u64, to: u64, y: u64, shown: &str) -> Result<(), AllocError>
    requires from { from < 2 ^ 48 }
    requires y { y < 2 ^ 48 }
    ensures { OnOk result (GrowsBy text.old text.new (shown_text from to y shown.now)) }
{
    let room = to.saturating_sub(from + 12) / 7;
    if shown.len() as u64 > room {
        return Ok(());
    }
    let (x, base) = (from + 6, y + 17);
    write!(text, "<text x='{x}' y='{base}'>")?;
    text.push_str(shown)?;
    text.push_str("</text>\n")
}

/// Writes a number or time.
fn push_value_band(
    text: &mut String,
    alloc: Global,
    scale: Scale,
    from: u64,
    to: u64,
    y: u64,
    value: Value,
) -> Result<(), AllocError>
    requires from { from < 2 ^ 48 }
    requires y { y < 2 ^ 48 }
    ensures { OnOk result (GrowsBy text.old text.new (value_band scale from to y value)) }
{
    let mut shown = String::new(alloc);
    push_value(&mut shown, value)?;
    push_band(text, scale.slant(), from, to, y, shown.as_str())?;
    push_shown(text, from, to, y, shown.as_str())
}

fn push_drawn(
    text: &mut String,
    alloc: Global,
    scale: Scale,
    from: u64,
    to: u64,
    y: u64,
    value: Value,
) -> Result<(), AllocError>
    requires from { from < 2 ^ 48 }
    requires y { y < 2 ^ 48 }
    ensures { OnOk result (GrowsBy text.old text.new (drawn_value scale from to y value)) }
{
    match value {
        Value::Bool(true) => push_high(text, from, to, y),
        Value::Bool(false) => push_low(text, from, to, y),
        Value::Int(_) | Value::Time(_) => {
            push_value_band(text, alloc, scale, from, to, y, value)
        }
    }
}

/// Writes where a variable keeps a value.
pub fn push_segment(
    text: &mut String,
    alloc: Global,
    scale: Scale,
    row: u32,
    segment: Segment,
) -> Result<(), AllocError>
    ensures { OnOk result (GrowsBy text.old text.new (segment_text scale row segment)) }
{
    let (from, to) = (scale.x(segment.from), scale.x(segment.to));
    push_drawn(text, alloc, scale, from, to, y_of(row), segment.value)
}
