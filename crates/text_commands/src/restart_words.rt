ghost use Rattle.std.specs.Prelude.{◌≡◌, ℕ, List, IfOk, MatchOption};
ghost use Rattle.std.specs.List.{AllZip, flat_map, slice_split};
ghost use Rattle.text_commands.specs.Rows.{texts};
ghost use Rattle.text_commands.specs.Series.{IsCount, is_comma};
ghost use Rattle.text_commands.specs.Restarts.{AreRestarts};

use crate::item::count_of;
use crate::items::parts_of;
use std::alloc::{AllocError, Global};

/// What stands between the commas of words.
fn parts_of_words<'a>(alloc: Global, words: &[&'a str]) -> Result<Vec<&'a str>, AllocError>
    ensures { IfOk result (λ parts. texts parts.items ≡ flat_map (slice_split is_comma) (texts words.now)) }
{
    let mut parts = Vec::new(alloc);
    for word in words {
        let more = parts_of(alloc, word)?;
        parts.extend_from_slice(&more)?;
    }
    Ok(parts)
}

/// The scans that the parts are, if each is one.
fn scans_of(alloc: Global, parts: &[&str]) -> Result<Option<Vec<usize>>, AllocError>
    ensures { IfOk result (λ read. MatchOption read ((scans : List ℕ) → AllZip IsCount (texts parts.now) scans → ⊥)
        (λ scans. AllZip IsCount (texts parts.now) scans.items)) }
{
    let mut scans = Vec::new(alloc);
    for part in parts {
        let Some(scan) = count_of(part.as_bytes()) else {
            return Ok(None);
        };
        scans.push(scan)?;
    }
    Ok(Some(scans))
}

/// The scans before which a ladder restarts, counted from 1, as words K[,K..] give them, if each K is a number of
/// digits alone from 1 to 1,000,000.
pub fn read_restarts(alloc: Global, words: &[&str]) -> Result<Option<Vec<usize>>, AllocError>
    ensures { IfOk result (λ read. MatchOption read ((restarts : List ℕ) → AreRestarts (texts words.now) restarts → ⊥)
        (λ restarts. AreRestarts (texts words.now) restarts.items)) }
{
    let parts = parts_of_words(alloc, words)?;
    scans_of(alloc, &parts)
}
