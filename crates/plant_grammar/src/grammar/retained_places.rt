//! Which variables of a program are retained.

ghost use Rattle.std.specs.Prelude.{◌≡◌, ◌++◌, IfOk, OnOk, map};
ghost use Rattle.plant_grammar.specs.Lawful.{list_variables};
ghost use Rattle.plant_grammar.specs.Retained.{block_sections, sections, place_if_retained, retained_places};

use crate::grammar::tree::{NameList, Program, Section, VarBlock};
use std::alloc::{AllocError, Global};

/// Adds the section for each name of a list.
fn push_list(
    sections: &mut Vec<Section>,
    section: Section,
    list: &NameList,
) -> Result<(), AllocError>
    ensures { OnOk result (sections.new.items ≡ sections.old.items ++ map (λ v. section) (list_variables section list.now)) }
{
    for _ in &list.names {
        sections.push(section)?;
    }
    Ok(())
}

/// Adds the section of each variable of a block.
fn push_block(sections: &mut Vec<Section>, block: &VarBlock) -> Result<(), AllocError>
    ensures { OnOk result (sections.new.items ≡ sections.old.items ++ block_sections block.now) }
{
    for list in &block.lists {
        push_list(sections, block.section, list)?;
    }
    Ok(())
}

/// The section of each variable, in order of declaration.
fn sections(alloc: Global, program: &Program) -> Result<Vec<Section>, AllocError>
    ensures { IfOk result (λ ss. ss.items ≡ sections program.now) }
{
    let mut sections = Vec::new(alloc);
    for block in &program.blocks {
        push_block(&mut sections, block)?;
    }
    Ok(sections)
}

/// Adds the place if the section is VAR RETAIN.
fn push_place(places: &mut Vec<usize>, place: usize, section: Section) -> Result<(), AllocError>
    ensures { OnOk result (places.new.items ≡ places.old.items ++ place_if_retained place section) }
{
    match section {
        Section::Retained => {
            places.push(place)?;
            Ok(())
        }
        _ => Ok(()),
    }
}

/// The places of the variables of a program that outlive a restart, in order of declaration: those of its blocks VAR RETAIN (IEC 61131-3, 2.4.2).
pub fn retained_places(alloc: Global, program: &Program) -> Result<Vec<usize>, AllocError>
    ensures { IfOk result (λ places. places.items ≡ retained_places program.now) }
{
    let mut places = Vec::new(alloc);
    let of_variables = sections(alloc, program)?;
    for (place, section) in of_variables.iter().enumerate() {
        push_place(&mut places, place, *section)?;
    }
    Ok(places)
}
