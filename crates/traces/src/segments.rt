ghost use Rattle.std.specs.Prelude.{◌≡◌, ◌+◌, ◌++◌, IfOk, OnOk};
ghost use Rattle.traces.specs.Segments.{ended, segments_from, segments_of, start};

use crate::value_changes::is_same;
use std::alloc::{AllocError, Global};
use std_blocks::Value;

/// A variable has a value from one moment up to another one.
#[derive(Clone, Copy, Debug)]
pub struct Segment {
    pub from: u32,
    pub to: u32,
    pub value: Value,
}

/// Adds a stretch that ends where the next value is another one.
fn push_ended(
    segments: &mut Vec<Segment>,
    from: u32,
    to: u32,
    value: Value,
    next: Value,
) -> Result<(), AllocError>
    ensures { OnOk result (segments.new.items ≡ segments.old.items ++ ended from to value next) }
{
    if is_same(value, next) {
        return Ok(());
    }
    segments.push(Segment { from, to, value })?;
    Ok(())
}

/// Since when a variable has the next value.
fn start(from: u32, to: u32, value: Value, next: Value) -> u32
    ensures { result ≡ start from to value next }
{
    if is_same(value, next) { from } else { to }
}

fn one_more(moment: u32) -> Result<u32, AllocError>
    ensures { IfOk result (λ next. next ≡ moment + 1) }
{
    if moment == u32::MAX {
        return Err(AllocError);
    }
    Ok(moment + 1)
}

/// Adds the stretches of a value and of those behind it.
fn push_segments(
    segments: &mut Vec<Segment>,
    first: Value,
    rest: &[Value],
) -> Result<(), AllocError>
    ensures { OnOk result (segments.new.items ≡ segments.old.items ++ segments_from 0 first 1 rest.now) }
{
    let mut from = 0;
    let mut to = 1u32;
    let mut value = first;
    for next in rest {
        push_ended(segments, from, to, value, *next)?;
        from = start(from, to, value, *next);
        value = *next;
        to = one_more(to)?;
    }
    segments.push(Segment { from, to, value })?;
    Ok(())
}

/// The longest stretches of moments in which a variable keeps its value.
pub fn segments_of(alloc: Global, values: &[Value]) -> Result<Vec<Segment>, AllocError>
    ensures { IfOk result (λ segments. segments.items ≡ segments_of values.now) }
{
    let mut segments = Vec::new(alloc);
    let Some((first, rest)) = values.split_first() else {
        return Ok(segments);
    };
    push_segments(&mut segments, *first, rest)?;
    Ok(segments)
}
