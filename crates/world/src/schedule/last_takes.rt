//! What a resource took last of each producer.

ghost use Rattle.std.specs.Prelude.{◌≡◌, OnOk, if◌then◌else◌};
ghost use Rattle.std.specs.List.{find};
ghost use Rattle.std.specs.Option.{option_copied};
ghost use Rattle.task_codes.specs.declared.task_ref.TaskRef.{TaskRef as Task};
ghost use Rattle.evaluation.specs.Last.{same_task};
ghost use Rattle.world.specs.Steps.Tables.{is_of_producer, told_by, told_in, told_with, taken_in_incarnation};

use evaluation::Take;
use std::alloc::AllocError;
use task_codes::TaskRef;

/// What a resource took last of a producer, and in which of its incarnations.
#[derive(Clone, Copy)]
pub struct LastTake {
    pub producer: TaskRef,
    pub incarnation: u32,
    pub from: Option<(u32, u32)>,
}

fn find_row(rows: &[LastTake], producer: TaskRef) -> Option<&LastTake>
    ensures { option_copied result ≡ find (is_of_producer producer) rows.now }
{
    rows.iter().find(|row| row.producer == producer)
}

/// What was taken last of a producer, if that was in this incarnation.
pub fn taken_in(rows: &[LastTake], producer: TaskRef, incarnation: u32) -> Option<(u32, u32)>
    ensures { result ≡ taken_in_incarnation incarnation (told_in rows.now producer) }
{
    match find_row(rows, producer) {
        None => None,
        Some(row) => {
            if row.incarnation == incarnation {
                row.from
            } else {
                None
            }
        }
    }
}

/// Notes a row in the place of its producer's.
fn note_row(rows: &mut Vec<LastTake>, row: LastTake) -> Result<(), AllocError>
    ensures { OnOk result ((q : Task) → told_in rows.new.items q
        ≡ (if same_task row.producer q then told_by row else told_in rows.old.items q)) }
{
    for i in 0..rows.len() {
        if rows[i].producer == row.producer {
            rows[i] = row;
            return Ok(());
        }
    }
    rows.push(row)?;
    Ok(())
}

/// Notes what was taken in this incarnation. Of two takes of a producer the first counts.
pub fn note_takes(
    rows: &mut Vec<LastTake>,
    incarnation: u32,
    takes: &[Take],
) -> Result<(), AllocError>
    ensures { OnOk result ((q : Task) → told_in rows.new.items q ≡ told_with incarnation takes.now q (told_in rows.old.items q)) }
{
    let count = takes.len();
    for i in 0..count {
        let take = &takes[count - 1 - i];
        note_row(
            rows,
            LastTake {
                producer: take.producer,
                incarnation,
                from: take.from,
            },
        )?;
    }
    Ok(())
}
