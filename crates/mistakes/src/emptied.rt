//! Texts of which some rows are emptied.

ghost use Rattle.std.specs.Prelude.{◌≡◌, ◌++◌, take, drop, map, codes, OnOk, IfOk, string_bytes};
ghost use Rattle.std.specs.List.{join_by};
ghost use Rattle.mistakes.specs.Emptied.{bare_rail, emptied, is_rail, rows_left, without_rows};

use slips::sign_at;
use std::alloc::{AllocError, Global};

fn is_rail(sign: u8) -> bool
    ensures { result ≡ is_rail sign }
{
    sign == b'|' || sign == b'+'
}

/// What is left of a row that is emptied: its rail, if it has one.
fn emptied<'a>(row: &str, rail: usize, bare: &'a str) -> &'a str
    ensures { result.now ≡ emptied rail bare.now row.now }
{
    if is_rail(sign_at(row, rail)) {
        bare
    } else {
        ""
    }
}

/// A rail alone.
fn bare_rail(alloc: Global, rail: usize) -> Result<String, AllocError>
    ensures { IfOk result (λ bare. string_bytes bare ≡ bare_rail rail) }
{
    let mut bare = " ".repeat(alloc, rail)?;
    bare.push_str("|")?;
    Ok(bare)
}

/// The first rows.
fn front<'a, 'b>(rows: &'a [&'b str], count: usize) -> &'a [&'b str]
    ensures { result.now ≡ take count rows.now }
{
    &rows[..count.min(rows.len())]
}

/// The rows behind the first.
fn behind<'a, 'b>(rows: &'a [&'b str], count: usize) -> &'a [&'b str]
    ensures { result.now ≡ drop count rows.now }
{
    &rows[count.min(rows.len())..]
}

fn push_rows<'a>(left: &mut Vec<&'a str>, rows: &[&'a str]) -> Result<(), AllocError>
    ensures { OnOk result (map (λ row. row.now) left.new.items ≡ map (λ row. row.now) left.old.items ++ map (λ row. row.now) rows.now) }
{
    for row in rows {
        left.push(*row)?;
    }
    Ok(())
}

fn push_emptied<'a>(
    left: &mut Vec<&'a str>,
    rows: &[&str],
    rail: usize,
    bare: &'a str,
) -> Result<(), AllocError>
    ensures { OnOk result (map (λ row. row.now) left.new.items ≡ map (λ row. row.now) left.old.items ++ map (λ row. emptied rail bare.now row.now) rows.now) }
{
    for row in rows {
        left.push(emptied(row, rail, bare))?;
    }
    Ok(())
}

/// The rows, of which so many are emptied, behind so many that stay.
fn rows_left<'a>(
    alloc: Global,
    rows: &[&'a str],
    first: usize,
    count: usize,
    rail: usize,
    bare: &'a str,
) -> Result<Vec<&'a str>, AllocError>
    ensures { IfOk result (λ left. map (λ row. row.now) left.items ≡ rows_left first count rail bare.now (map (λ row. row.now) rows.now)) }
{
    let mut left = Vec::new(alloc);
    let rest = behind(rows, first);
    push_rows(&mut left, front(rows, first))?;
    push_emptied(&mut left, front(rest, count), rail, bare)?;
    push_rows(&mut left, behind(rest, count))?;
    Ok(left)
}

/// The text of rows, of which so many are emptied, behind so many that stay.
pub fn without_rows(
    alloc: Global,
    rows: &[&str],
    first: usize,
    count: usize,
    rail: usize,
) -> Result<String, AllocError>
    ensures { IfOk result (λ text. string_bytes text ≡ without_rows first count rail (map (λ row. row.now) rows.now)) }
{
    let bare = bare_rail(alloc, rail)?;
    rows_left(alloc, rows, first, count, rail, bare.as_str())?.join(alloc, "\n")
}
