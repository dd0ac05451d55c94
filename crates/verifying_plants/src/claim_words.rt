//! The names behind `--never` and `--given`.

ghost use Rattle.std.specs.Prelude.{◌≡◌, IfOk, IfErr, map};
ghost use Rattle.std.specs.List.{AllZip};
ghost use Rattle.task_codes.specs.CodeValue.{lists_of};
ghost use Rattle.text_commands.specs.Rows.{texts};
ghost use Rattle.verifying_plants.specs.Names.{IsNamed, IsClaimWord, names_in};
ghost use Rattle.verifying_plants.specs.Steps.Reading.{IsUnnamed, RefusesClaims, RefusesGiven};

use crate::output_names::find_output;
use crate::verify_plant_fault::{NameFault, VerifyPlantFault};
use plant::Plant;
use plant_claims::Output;
use std::alloc::{AllocError, Global};

/// The names in a word, parted by commas.
fn parts_of<'a>(alloc: Global, word: &'a str) -> Result<Vec<&'a [u8]>, AllocError>
    ensures { IfOk result (λ parts. map (λ p. p.now) parts.items ≡ names_in word.now) }
{
    let mut parts = Vec::new(alloc);
    for part in word.as_bytes().split(|c| *c == b',') {
        parts.push(part)?;
    }
    Ok(parts)
}

/// The outputs of these names; the place of the first name that isn't a BOOL output's.
fn read_names(
    alloc: Global,
    plant: &Plant,
    names: &[&[u8]],
) -> Result<Result<Vec<Output>, usize>, AllocError>
    ensures ok { IfOk result (λ read. IfOk read (λ outputs. AllZip (IsNamed plant.now) (map (λ n. n.now) names.now) outputs.items)) }
    ensures err { IfOk result (λ read. IfErr read (IsUnnamed plant.now (map (λ n. n.now) names.now))) }
{
    let mut outputs = Vec::new(alloc);
    for (place, name) in names.iter().enumerate() {
        match find_output(alloc, plant, name)? {
            Some(output) => outputs.push(output)?,
            None => return Ok(Err(place)),
        }
    }
    Ok(Ok(outputs))
}

/// The outputs of a claim; the place of its first name that isn't a BOOL output's.
fn read_claim(
    alloc: Global,
    plant: &Plant,
    word: &str,
) -> Result<Result<Vec<Output>, usize>, AllocError>
    ensures ok { IfOk result (λ read. IfOk read (λ claim. IsClaimWord plant.now word.now claim.items)) }
    ensures err { IfOk result (λ read. IfErr read (IsUnnamed plant.now (names_in word.now))) }
{
    let parts = parts_of(alloc, word)?;
    read_names(alloc, plant, &parts)
}

/// The outputs of each claim.
pub(crate) fn read_claims(
    alloc: Global,
    plant: &Plant,
    words: &[&str],
) -> Result<Vec<Vec<Output>>, VerifyPlantFault>
    ensures ok { IfOk result (λ claims. AllZip (IsClaimWord plant.now) (texts words.now) (lists_of claims.items)) }
    ensures err { IfErr result (RefusesClaims plant.now (texts words.now)) }
{
    let mut claims = Vec::new(alloc);
    for (number, word) in words.iter().enumerate() {
        match read_claim(alloc, plant, word)? {
            Ok(claim) => claims.push(claim)?,
            Err(part) => return Err(VerifyPlantFault::Claim(NameFault { number, part })),
        }
    }
    Ok(claims)
}

/// The outputs that are given.
pub(crate) fn read_given(
    alloc: Global,
    plant: &Plant,
    words: &[&str],
) -> Result<Vec<Output>, VerifyPlantFault>
    ensures ok { IfOk result (λ given. AllZip (IsNamed plant.now) (texts words.now) given.items) }
    ensures err { IfErr result (RefusesGiven plant.now (texts words.now)) }
{
    let mut given = Vec::new(alloc);
    for (number, word) in words.iter().enumerate() {
        match find_output(alloc, plant, word.as_bytes())? {
            Some(output) => given.push(output)?,
            None => return Err(VerifyPlantFault::Given(NameFault { number, part: 0 })),
        }
    }
    Ok(given)
}
