ghost use Rattle.std.specs.Prelude.{◌≡◌, ◌+◌, ◌++◌, IfOk, IfSome, IsTrue, OnOk};
ghost use Rattle.scan_steps.specs.Steps.Contacts.{rows_over};
ghost use Rattle.power_flow.specs.Steps.Fused.{contacts_in, single, singles};

use scan_steps::{
    BoundContact, Negated, PairPlaces, PairRows, Series, Step, VariableContact, pair_of,
};
use std::alloc::{AllocError, Global};

/// A row that is turned off, and then rows that are joined.
fn off_upright(row: u8, first: u8, lowest: u8) -> Step
    ensures { single result ≡ single (Step.Off row) ++ single (Step.Upright first lowest) }
{
    if lowest > first && lowest - first == 1 {
        if row == lowest {
            return Step::Down(first);
        }
        if row == first {
            return Step::Up(first);
        }
    }
    Step::OffUpright(row, first, lowest)
}

/// A row that is turned on, and then a contact in it, if that is one of a variable.
fn rail_contact(row: u8, contact: &BoundContact) -> Option<Step>
    ensures { IfSome result (λ s. single s ≡ single (Step.Rail row) ++ single (Step.Contact contact.now)) }
{
    let variable = contact.as_variable()?;
    if variable.row != row {
        return None;
    }
    Some(Step::RailContact(variable))
}

/// Two contacts, if they are a pair.
fn contact_pair(first: &BoundContact, second: &BoundContact) -> Option<Step>
    ensures { IfSome result (λ s. single s ≡ single (Step.Contact first.now) ++ single (Step.Contact second.now)) }
{
    let (rows, places) = pair_of(first, second)?;
    Some(Step::Pair(rows, places))
}

/// Rows that are joined, and then a pair of contacts, if they are the pair's rows.
fn joined_pair(first: u8, lowest: u8, rows: PairRows, places: PairPlaces) -> Option<Step>
    ensures { IfSome result (λ s. single s ≡ single (Step.Upright first lowest) ++ single (Step.Pair rows places)) }
{
    if first != rows.first || lowest != rows.second {
        return None;
    }
    Some(Step::JoinedPair(rows, places))
}

/// Whether the contacts of a pair are plain and stand in the first and the lowest row, with this row alone between them.
fn are_over(row: u8, first: u8, lowest: u8, rows: &PairRows) -> bool
    ensures { IsTrue result → (row ≡ first + 1) × (lowest ≡ first + 2) × (rows.now ≡ rows_over first) }
{
    let plain = matches!(rows.negated, Negated::Neither);
    let joined = rows.first == first && rows.second == lowest;
    plain && joined && first.checked_add(1) == Some(row) && first.checked_add(2) == Some(lowest)
}

/// A row that is turned off, rows that are joined, and then a pair of contacts, if those are plain and stand right above and below the row.
fn pair_over(row: u8, first: u8, lowest: u8, rows: PairRows, places: PairPlaces) -> Option<Step>
    ensures { IfSome result (λ s. single s ≡ single (Step.OffUpright row first lowest) ++ single (Step.Pair rows places)) }
{
    if !are_over(row, first, lowest, &rows) {
        return None;
    }
    Some(Step::PairOver(first, places))
}

/// The step that stands for both, if there is one.
fn both(last: &Step, step: &Step) -> Option<Step>
    ensures { IfSome result (λ s. single s ≡ single last.now ++ single step.now) }
{
    match (last, step) {
        (Step::Off(row), Step::Upright(first, lowest)) => Some(off_upright(*row, *first, *lowest)),
        (Step::Rail(row), Step::Contact(contact)) => rail_contact(*row, contact),
        (Step::Contact(first), Step::Contact(second)) => contact_pair(first, second),
        (Step::Upright(first, lowest), Step::Pair(rows, places)) => joined_pair(
            *first, *lowest, *rows, *places,
        ),
        (Step::OffUpright(row, first, lowest), Step::Pair(rows, places)) => pair_over(
            *row, *first, *lowest, *rows, *places,
        ),
        (Step::Box(number), Step::Coil(row, coil)) => Some(Step::BoxCoil(*number, *row, *coil)),
        _ => None,
    }
}

/// Adds two steps, as one where a step stands for both.
fn push_both(steps: &mut Vec<Step>, last: Step, step: Step) -> Result<(), AllocError>
    ensures { OnOk result (singles steps.new.items ≡ (singles steps.old.items ++ single last) ++ single step) }
{
    match both(&last, &step) {
        Some(one) => steps.push(one)?,
        None => {
            steps.push(last)?;
            steps.push(step)?;
        }
    }
    Ok(())
}

/// Whether a step may stand for the last of these and one more, as seen by their kinds.
fn may_fuse(steps: &[Step], step: &Step) -> bool {
    let Some(last) = steps.last() else {
        return false;
    };
    matches!(
        (last, step),
        (Step::Off(_), Step::Upright(_, _))
            | (Step::Rail(_), Step::Contact(_))
            | (Step::Contact(_), Step::Contact(_))
            | (
                Step::Upright(_, _) | Step::OffUpright(_, _, _),
                Step::Pair(_, _)
            )
            | (Step::Box(_), Step::Coil(_, _))
    )
}

/// Adds a step, to the last one where a step stands for both.
fn push_fused(steps: &mut Vec<Step>, step: Step) -> Result<(), AllocError>
    ensures { OnOk result (singles steps.new.items ≡ singles steps.old.items ++ single step) }
{
    if !may_fuse(steps, &step) {
        steps.push(step)?;
        return Ok(());
    }
    match steps.pop() {
        Some(last) => push_both(steps, last, step),
        None => {
            steps.push(step)?;
            Ok(())
        }
    }
}

/// These steps, with one step in place of two where it stands for both.
fn fewer(alloc: Global, steps: Vec<Step>) -> Result<Vec<Step>, AllocError>
    ensures { IfOk result (λ fewer. singles fewer.items ≡ singles steps.items) }
{
    let mut fewer = Vec::with_capacity(alloc, steps.len())?;
    for step in steps {
        push_fused(&mut fewer, step)?;
    }
    Ok(fewer)
}

/// The contacts of these steps, if they are contacts of variables in one row.
fn contacts_of(
    alloc: Global,
    steps: &[Step],
    row: u8,
) -> Result<Option<Vec<VariableContact>>, AllocError>
    ensures { IfOk result (λ found. IfSome found (λ contacts. contacts_in row contacts.items ≡ singles steps.now)) }
{
    let mut contacts = Vec::with_capacity(alloc, steps.len())?;
    for step in steps {
        let Step::Contact(contact) = step else {
            return Ok(None);
        };
        let Some(variable) = contact.as_variable() else {
            return Ok(None);
        };
        if row != variable.row {
            return Ok(None);
        }
        contacts.push(variable)?;
    }
    Ok(Some(contacts))
}

/// The row of a step at the left rail.
fn rail_row(step: &Step) -> Option<u8>
    ensures { IfSome result (λ row. step.now ≡ Step.Rail row) }
{
    match step {
        Step::Rail(row) => Some(*row),
        _ => None,
    }
}

/// The row and the number of a coil.
fn coil_link(step: &Step) -> Option<(u8, u32)>
    ensures { IfSome result (λ link. step.now ≡ Step.Coil link.0 link.1) }
{
    match step {
        Step::Coil(row, number) => Some((*row, *number)),
        _ => None,
    }
}

/// One step in place of all, if these are those of a rung.
fn rung_of(alloc: Global, steps: &[Step]) -> Result<Option<Step>, AllocError>
    ensures { IfOk result (λ found. IfSome found (λ rung. single rung ≡ singles steps.now)) }
{
    let Some((first, behind)) = steps.split_first() else {
        return Ok(None);
    };
    let Some((last, between)) = behind.split_last() else {
        return Ok(None);
    };
    let Some(row) = rail_row(first) else {
        return Ok(None);
    };
    let Some(link) = coil_link(last) else {
        return Ok(None);
    };
    if link.0 != row {
        return Ok(None);
    }
    match contacts_of(alloc, between, row)? {
        Some(contacts) => Ok(Some(Step::Rung(row, link.1, Series::new(alloc, contacts)?))),
        None => Ok(None),
    }
}

/// These steps, with one step in place of two where it stands for both, and once more where such a step and the one before have one.
fn fused_twice(alloc: Global, steps: Vec<Step>) -> Result<Vec<Step>, AllocError>
    ensures { IfOk result (λ fewer. singles fewer.items ≡ singles steps.items) }
{
    let once = fewer(alloc, steps)?;
    fewer(alloc, once)
}

/// One step in place of several, where it stands for them.
pub fn fused(alloc: Global, steps: Vec<Step>) -> Result<Vec<Step>, AllocError>
    ensures { IfOk result (λ fewer. singles fewer.items ≡ singles steps.items) }
{
    match rung_of(alloc, &steps)? {
        Some(rung) => {
            let mut fewer = Vec::with_capacity(alloc, 1)?;
            fewer.push(rung)?;
            Ok(fewer)
        }
        None => fused_twice(alloc, steps),
    }
}
