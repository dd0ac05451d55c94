ghost use Rattle.std.specs.Prelude.{◌≡◌, ◌-◌, ◌<◌, ◌≤◌, ℕ, List, IfOk, MatchOption, length, slice_get, slice_index, unwrap_or};
ghost use Rattle.std.specs.List.{slice_split, AllZip};
ghost use Rattle.std.specs.List.Sorted.{IsNonDecreasing};
ghost use Rattle.text_commands.specs.Rows.{texts};
ghost use Rattle.text_commands.specs.Series.{ItemValue, AreItems, IsItem, given_by, is_comma};
ghost use Rattle.text_commands.specs.Steps.Series.{AreEnds};

use crate::item::{Item, MOST_VALUES, read_item};
use declared_names::Kind;
use std::alloc::{AllocError, Global};
use std::marker::Model;
use std_blocks::Value;

/// The items of a word, and how many values there are up to the end of each: at most 1,000,000 in all.
#[derive(Debug, Drop)]
pub struct Items<'a> {
    items: Vec<Item<'a>>,
    ends: Vec<usize>,
}

impl<'a> Model for Items<'a> {
    ghost use Rattle.std.specs.Prelude.{List};
    ghost use Rattle.text_commands.specs.Series.{ItemValue};
    ghost use Rattle.text_commands.specs.Steps.Series.{AreEnds};

    ghost Value = { List ItemValue };

    ghost view = { λ i. i.items.items };

    ghost invariant = { λ i. AreEnds i.items.items i.ends.items };
}

/// The last of these ends; 0, where there is none.
fn last_end(ends: &[usize]) -> usize
    ensures { result ≡ unwrap_or (slice_get ends.now (length ends.now - 1)) 0 }
{
    ends.last().copied().unwrap_or(0)
}

/// How many of these ends are up to a place.
fn ends_up_to(ends: &[usize], place: usize) -> usize
    requires { IsNonDecreasing ends.now }
    ensures within { result ≤ length ends.now }
    ensures before { (k : ℕ) → k < result → slice_index ends.now k ≤ place }
    ensures behind { (k : ℕ) → result ≤ k → k < length ends.now → place < slice_index ends.now k }
{
    ends.partition_point(|end| *end <= place)
}

/// The value that items with these ends give at a place, counted from 0.
fn value_in(items: &[Item<'_>], ends: &[usize], place: usize) -> Option<Value>
    requires { AreEnds items.now ends.now }
    ensures { result ≡ slice_get (given_by items.now) place }
{
    let number = ends_up_to(ends, place);
    let item = items.get(number)?;
    let begin = last_end(&ends[..number]);
    item.value(place - begin)
}

impl<'a> Items<'a> {
    /// How many values they give: at most 1,000,000.
    pub fn len(&self) -> usize
        ensures { result ≡ length (given_by self.now) }
    {
        last_end(&self.ends)
    }

    /// The value that they give at a place, counted from 0.
    pub fn value(&self, place: usize) -> Option<Value>
        ensures { result ≡ slice_get (given_by self.now) place }
    {
        value_in(&self.items, &self.ends, place)
    }
}

/// What stands between the commas of a text.
pub(crate) fn parts_of(alloc: Global, text: &str) -> Result<Vec<&str>, AllocError>
    ensures { IfOk result (λ parts. texts parts.items ≡ slice_split is_comma text.now) }
{
    let mut parts = Vec::new(alloc);
    for part in text.split(',') {
        parts.push(part)?;
    }
    Ok(parts)
}

/// The items that the parts are, if each is one of the kind.
fn items_of<'a>(
    alloc: Global,
    kind: Kind,
    parts: &[&'a str],
) -> Result<Option<Vec<Item<'a>>>, AllocError>
    ensures { IfOk result (λ read. MatchOption read ((items : List ItemValue) → AllZip (IsItem kind) (texts parts.now) items → ⊥)
        (λ items. AllZip (IsItem kind) (texts parts.now) items.items)) }
{
    let mut items = Vec::new(alloc);
    for part in parts {
        let Some(item) = read_item(kind, part) else {
            return Ok(None);
        };
        items.push(item)?;
    }
    Ok(Some(items))
}

/// How many values items give up to the end of each, if they give at most 1,000,000 in all.
fn ends_of(alloc: Global, items: &[Item<'_>]) -> Result<Option<Vec<usize>>, AllocError>
    ensures { IfOk result (λ read. MatchOption read (length (given_by items.now) ≤ 1000000 → ⊥)
        (λ ends. AreEnds items.now ends.items)) }
{
    let most = MOST_VALUES as usize;
    let mut ends = Vec::new(alloc);
    let mut end = 0;
    for item in items {
        end += item.len();
        if end > most {
            return Ok(None);
        }
        ends.push(end)?;
    }
    Ok(Some(ends))
}

/// The items of VALUES, if each is one of the kind, and they give at most 1,000,000 values.
pub fn read_items<'a>(
    alloc: Global,
    kind: Kind,
    text: &'a str,
) -> Result<Option<Items<'a>>, AllocError>
    ensures { IfOk result (λ read. MatchOption read ((items : List ItemValue) → AreItems kind text.now items → ⊥)
        (AreItems kind text.now)) }
{
    let parts = parts_of(alloc, text)?;
    let Some(items) = items_of(alloc, kind, &parts)? else {
        return Ok(None);
    };
    let Some(ends) = ends_of(alloc, &items)? else {
        return Ok(None);
    };
    Ok(Some(Items { items, ends }))
}
