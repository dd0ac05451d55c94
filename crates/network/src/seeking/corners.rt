ghost use Rattle.std.specs.Prelude.{◌≡◌, ℕ, Some, IfOk, OnOk, IsTrue, IsSomeAnd, ◌↔◌, string_bytes, length};
ghost use Rattle.std.specs.BTreeMap.{get_by_text};
ghost use Rattle.std.specs.Str.{str_to_ascii_lowercase};
ghost use Rattle.network.specs.Links.{place};
ghost use Rattle.network.specs.Networks.{PrecedesByRow};
ghost use Rattle.network.specs.Steps.Corners.{AreFirstCorners, IsEarlierCorner, TakesBox, HasEarlier};

use crate::seeking::first_place::is_before;
use drawings::{DrawnBox, Place};
use std::alloc::{AllocError, Global};
use std::collections::BTreeMap;

/// The first corner of the boxes of each name, by the name in small letters.
pub type Corners = BTreeMap<String, Place>;

/// The top left corner of a box.
pub fn corner_of(drawn: &DrawnBox) -> Place
    ensures { result ≡ place drawn.now.top drawn.now.left }
{
    Place {
        row: drawn.top,
        column: drawn.left,
    }
}

/// A box's name in small letters.
fn key_of(alloc: Global, drawn: &DrawnBox) -> Result<String, AllocError>
    ensures { IfOk result (λ key. string_bytes key ≡ str_to_ascii_lowercase drawn.now.instance) }
{
    let mut key = String::from_str(alloc, drawn.instance.as_str())?;
    key.make_ascii_lowercase();
    Ok(key)
}

/// The earlier of a corner that may be known and another one.
fn earlier(known: Option<Place>, corner: Place) -> Place
    ensures { IsEarlierCorner known corner result }
{
    match known {
        Some(first) if is_before(first, corner) => first,
        _ => corner,
    }
}

/// The first corner that is known for a name in small letters.
fn known_corner(corners: &Corners, key: &str) -> Option<Place>
    ensures { result ≡ get_by_text corners.now key.now }
{
    corners.get(key).copied()
}

/// Takes a box's corner for its name, unless an earlier one is there.
fn take_corner(alloc: Global, corners: &mut Corners, drawn: &DrawnBox) -> Result<(), AllocError>
    ensures { OnOk result (TakesBox corners.old drawn.now corners.new) }
{
    let key = key_of(alloc, drawn)?;
    let known = known_corner(corners, key.as_str());
    let first = earlier(known, corner_of(drawn));
    corners.insert(key, first)?;
    Ok(())
}

/// The first corners of the boxes.
pub fn corners_of(alloc: Global, boxes: &[DrawnBox]) -> Result<Corners, AllocError>
    ensures { IfOk result (λ corners. AreFirstCorners boxes.now corners (length boxes.now)) }
{
    let mut corners = BTreeMap::new(alloc);
    for drawn in boxes {
        take_corner(alloc, &mut corners, drawn)?;
    }
    Ok(corners)
}

/// Whether an earlier corner is known for the box's name.
pub fn is_twice(alloc: Global, corners: &Corners, drawn: &DrawnBox) -> Result<bool, AllocError>
    ensures { IfOk result (λ twice. IsTrue twice ↔ HasEarlier corners.now drawn.now) }
{
    let key = key_of(alloc, drawn)?;
    let known = known_corner(corners, key.as_str());
    let corner = corner_of(drawn);
    Ok(known.is_some_and(|first| is_before(first, corner)))
}
