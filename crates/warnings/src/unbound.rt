//! Inputs of instances that aren't bound.

ghost use Rattle.std.specs.Prelude.{◌≡◌, ◌++◌, IfOk, OnOk, ℕ, List, map};
ghost use Rattle.std.specs.List.{flat_map};
ghost use Rattle.plant_grammar.specs.Lawful.{variables};
ghost use Rattle.warnings.specs.Unbound.{is_input, is_among_binds, is_bound, names_in, unbound_at, unbound_in, unbound_of, unbound_of_item, all_unbound};

use declared_names::{Declarations, Declared};
use plant_grammar::{Bind, Item, Name, ProgramText, Resource, Use};
use std::alloc::{AllocError, Global};
use thiserror::Error;
use words::Text;

/// An input of an instance of a program that isn't bound: it keeps its first value, FALSE or 0.
#[derive(Debug, Drop, Error)]
#[error("{line}: UnboundInput")]
pub struct UnboundInput {
    /// The number of the line on which the instance is named.
    pub line: u64,
    pub resource: Text,
    pub instance: Text,
    pub input: Text,
}

impl UnboundInput {
    ghost use Rattle.std.specs.Prelude.{string_bytes};
    ghost use Rattle.warnings.specs.Sentences.{unbound_sentence};
    ghost use Rattle.warnings.specs.Unbound.{names_in};

    /// What is most likely not meant, and what to write instead.
    pub fn sentence(&self, alloc: Global) -> Result<String, AllocError>
        ensures { IfOk result (λ told. string_bytes told ≡ unbound_sentence (names_in self.now)) }
    {
        let mut told = String::from_str(alloc, self.resource.as_str())?;
        told.push_str(".")?;
        told.push_str(self.instance.as_str())?;
        told.push_str(" doesn't bind its input ")?;
        told.push_str(self.input.as_str())?;
        told.push_str(
            ", which so keeps its first value, FALSE or 0. Bind it, or take it out of VAR_INPUT.",
        )?;
        Ok(told)
    }
}

fn is_input(declared: Declared) -> bool
    ensures { result ≡ is_input declared }
{
    match declared {
        Declared::Input(_) => true,
        Declared::Output(_) | Declared::Local(_) | Declared::Instance(_) => false,
    }
}

fn is_among(binds: &[Bind], name: &str) -> bool
    ensures { result ≡ is_among_binds binds.now name.now }
{
    binds
        .iter()
        .any(|bind| bind.input.as_str().eq_ignore_ascii_case(name))
}

/// Whether an instance binds an input.
fn is_bound(used: &Use, name: &str) -> bool
    ensures { result ≡ is_bound used.now name.now }
{
    match &used.binds {
        None => false,
        Some(binds) => is_among(binds, name),
    }
}

/// Adds a variable of an instance's program, if it is an input that isn't bound.
fn push_unbound(
    found: &mut Vec<UnboundInput>,
    resource: &Name,
    used: &Use,
    name: &str,
    declared: Declared,
) -> Result<(), AllocError>
    ensures { OnOk result (map names_in found.new.items ≡ map names_in found.old.items ++ unbound_at resource.now used.now (record { name = name.now; declared = declared })) }
{
    let alloc = *found.allocator();
    if is_input(declared) && !is_bound(used, name) {
        found.push(UnboundInput {
            line: used.instance.line(),
            resource: resource.try_text(alloc)?,
            instance: used.instance.try_text(alloc)?,
            input: Text::new(alloc, name)?,
        })?;
    }
    Ok(())
}

/// Adds the inputs of these that an instance doesn't bind.
fn push_all_unbound(
    found: &mut Vec<UnboundInput>,
    resource: &Name,
    used: &Use,
    declarations: &Declarations,
) -> Result<(), AllocError>
    ensures { OnOk result (map names_in found.new.items ≡ map names_in found.old.items ++ flat_map (unbound_at resource.now used.now) declarations.now) }
{
    for place in 0..declarations.len() {
        if let Some((name, declared)) = declarations.entry(place) {
            push_unbound(found, resource, used, name, declared)?;
        }
    }
    Ok(())
}

/// Adds the inputs that an instance doesn't bind, if it is one of this program.
fn push_unbound_in(
    found: &mut Vec<UnboundInput>,
    resource: &Name,
    used: &Use,
    text: &ProgramText,
) -> Result<(), AllocError>
    ensures { OnOk result (map names_in found.new.items ≡ map names_in found.old.items ++ unbound_in resource.now used.now text.now) }
{
    if text.program().name.is_same(&used.program) {
        push_all_unbound(found, resource, used, text.declarations())?;
    }
    Ok(())
}

/// Adds the inputs that an instance doesn't bind.
fn push_unbound_of(
    found: &mut Vec<UnboundInput>,
    texts: &[ProgramText],
    resource: &Name,
    used: &Use,
) -> Result<(), AllocError>
    ensures { OnOk result (map names_in found.new.items ≡ map names_in found.old.items ++ unbound_of texts.now resource.now used.now) }
{
    for text in texts {
        push_unbound_in(found, resource, used, text)?;
    }
    Ok(())
}

fn push_unbound_of_item(
    found: &mut Vec<UnboundInput>,
    texts: &[ProgramText],
    resource: &Name,
    item: &Item,
) -> Result<(), AllocError>
    ensures { OnOk result (map names_in found.new.items ≡ map names_in found.old.items ++ unbound_of_item texts.now resource.now item.now) }
{
    match item {
        Item::Task(_) => Ok(()),
        Item::Use(used) => push_unbound_of(found, texts, resource, used),
    }
}

fn push_unbound_of_items(
    found: &mut Vec<UnboundInput>,
    texts: &[ProgramText],
    resource: &Name,
    items: &[Item],
) -> Result<(), AllocError>
    ensures { OnOk result (map names_in found.new.items ≡ map names_in found.old.items ++ flat_map (unbound_of_item texts.now resource.now) items.now) }
{
    for item in items {
        push_unbound_of_item(found, texts, resource, item)?;
    }
    Ok(())
}

/// The inputs of instances that aren't bound, in the order of the plant's text.
pub fn unbound_inputs(
    alloc: Global,
    texts: &[ProgramText],
    resources: &[Resource],
) -> Result<Vec<UnboundInput>, AllocError>
    ensures { IfOk result (λ found. map names_in found.items ≡ all_unbound texts.now resources.now) }
{
    let mut found = Vec::new(alloc);
    for resource in resources {
        push_unbound_of_items(&mut found, texts, &resource.name, &resource.items)?;
    }
    Ok(found)
}
