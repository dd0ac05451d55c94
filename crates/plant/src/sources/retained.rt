//! The retained variables of programs, in the order of a task's list.

ghost use Rattle.std.specs.Prelude.{◌≡◌, ◌++◌, IfOk, OnOk};
ghost use Rattle.task_codes.specs.CodeValue.{retained_at, retained_in, retained_of};

use declared_names::{Declarations, Declared};
use std::alloc::{AllocError, Global};
use task_codes::{ProgramInstance, RetainedVariable};

/// Adds the variable of a program at a place, if it is a local.
fn push_place(
    retained: &mut Vec<RetainedVariable>,
    program: usize,
    declarations: &Declarations,
    place: usize,
) -> Result<(), AllocError>
    ensures { OnOk result (retained.new.items ≡ retained.old.items ++ retained_at program declarations.now place) }
{
    match declarations.declared_at(place) {
        Some(Declared::Local(kind)) => {
            retained.push(RetainedVariable {
                program,
                place,
                kind,
            })?;
            Ok(())
        }
        _ => Ok(()),
    }
}

/// Adds the retained variables of one program.
fn push_program(
    retained: &mut Vec<RetainedVariable>,
    position: usize,
    program: &ProgramInstance,
) -> Result<(), AllocError>
    ensures { OnOk result (retained.new.items ≡ retained.old.items ++ retained_in position program.now) }
{
    for place in program.retained() {
        push_place(retained, position, program.ladder().declarations(), *place)?;
    }
    Ok(())
}

/// The retained variables of programs: of one after the other, each in order of declaration.
pub fn retained_of(
    alloc: Global,
    programs: &[ProgramInstance],
) -> Result<Vec<RetainedVariable>, AllocError>
    ensures { IfOk result (λ vs. vs.items ≡ retained_of programs.now) }
{
    let mut retained = Vec::new(alloc);
    for (i, program) in programs.iter().enumerate() {
        push_program(&mut retained, i, program)?;
    }
    Ok(retained)
}
