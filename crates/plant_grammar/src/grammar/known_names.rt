//! Whether a name is declared already, without regard to case.

ghost use Rattle.std.specs.Prelude.{◌≡◌, ◌≢◌, ◌↔◌, IsTrue, IsFalse, Any, OnOk, IfErr, length};
ghost use Rattle.plant_grammar.specs.WordFaults.{IsGrammarFault};
ghost use Rattle.plant_grammar.specs.declared.grammar_fault.GrammarFaultKind.TheVariants.{NameTwice, Syntax, TooMany};
ghost use Rattle.std.specs.List.{flat_map, find};
ghost use Rattle.std.specs.Option.{option_map};
ghost use Rattle.plant_grammar.specs.Steps.NamesRead.{TellsOfName};
ghost use Rattle.plant_grammar.specs.Kinds.{input_kind_of};
ghost use Rattle.plant_grammar.specs.Steps.ReadParts.{is_task_line, NamesInstance};
ghost use Rattle.plant_grammar.specs.Steps.Reading.{programs_of};
ghost use Rattle.plant_grammar.specs.Names.{is_named};
ghost use Rattle.plant_grammar.specs.Lawful.{variables, task_of, use_of};

use crate::grammar::name::Name;
use crate::grammar::program_text::ProgramText;
use crate::grammar::tree::{Bind, Item, Resource};
use crate::grammar_fault::{GrammarFault, GrammarFaultKind};
use declared_names::{Declared, Kind};

/// Refuses a name on a line that is declared already, and one too many.
pub fn check_new(line: u64, is_twice: bool, is_full: bool) -> Result<(), GrammarFault>
    ensures ok { OnOk result (IsFalse is_twice × IsFalse is_full) }
    ensures twice { IfErr result (λ e. IsTrue is_twice → e.kind ≡ NameTwice) }
    ensures full { IfErr result (λ e. IsFalse is_twice → IsTrue is_full × (e.kind ≡ TooMany)) }
    ensures tells { IfErr result (λ e. TellsOfName e.kind (IsTrue is_twice) (IsTrue is_full)) }
    ensures named { IfErr result (λ e. e.kind ≢ Syntax) }
    ensures line { IfErr result (λ e. e.line ≡ line) }
    ensures value { IfErr result IsGrammarFault }
{
    if is_twice {
        Err(GrammarFault::at(GrammarFaultKind::NameTwice, line))
    } else if is_full {
        Err(GrammarFault::at(GrammarFaultKind::TooMany, line))
    } else {
        Ok(())
    }
}

/// The first program of the name.
pub fn program_named<'a>(texts: &'a [ProgramText], name: &Name) -> Option<&'a ProgramText>
    ensures { option_map (λ t. t.now) result ≡ find (λ t. is_named name.now t.program.name) texts.now }
{
    texts.iter().find(|text| name.is_same(&text.program().name))
}

/// Whether a program has the name.
pub fn is_program(texts: &[ProgramText], name: &Name) -> bool
    ensures { IsTrue result ↔ Any (λ p. IsTrue (is_named name.now p.name)) (programs_of texts.now) }
{
    program_named(texts, name).is_some()
}

/// The kind of a program's input, by its name.
pub fn input_kind(program: &ProgramText, input: &Name) -> Option<Kind>
    ensures { result ≡ input_kind_of (variables program.now.program) input.now }
{
    let declarations = program.declarations();
    let place = declarations.position(input.as_str())?;
    match declarations.entry(place) {
        Some((_, Declared::Input(kind))) => Some(kind),
        _ => None,
    }
}

/// The first resource of the name.
pub fn resource_named<'a>(resources: &'a [Resource], name: &Name) -> Option<&'a Resource>
    ensures { option_map (λ r. r.now) result ≡ find (λ r. is_named name.now r.name) resources.now }
{
    resources
        .iter()
        .find(|resource| name.is_same(&resource.name))
}

/// Whether a resource has the name.
pub fn is_resource(resources: &[Resource], name: &Name) -> bool
    ensures { IsTrue result ↔ Any (λ r. IsTrue (is_named name.now r.name)) resources.now }
{
    resource_named(resources, name).is_some()
}

/// Whether a bind has the input.
pub fn is_bound(binds: &[Bind], input: &Name) -> bool
    ensures { IsTrue result ↔ Any (λ b. IsTrue (is_named input.now b.input)) binds.now }
{
    binds.iter().any(|bind| input.is_same(&bind.input))
}

/// Whether the line is a task of the name.
fn names_task(item: &Item, name: &Name) -> bool
    ensures { IsTrue result ↔ Any (λ t. IsTrue (is_named name.now t.name)) (task_of item.now) }
{
    match item {
        Item::Task(task) => name.is_same(&task.name),
        Item::Use(_) => false,
    }
}

/// Whether the line is a program instance of the name.
#[tactic(auto, unfolding(crate::specs::Steps::ReadParts::NamesInstance))]
fn names_instance(item: &Item, name: &Name) -> bool
    ensures { IsTrue result ↔ NamesInstance name.now item.now }
{
    match item {
        Item::Task(_) => false,
        Item::Use(instance) => name.is_same(&instance.instance),
    }
}

/// Whether a task of the lines has the name.
pub fn is_task(items: &[Item], name: &Name) -> bool
    ensures { IsTrue result ↔ Any (λ t. IsTrue (is_named name.now t.name)) (flat_map task_of items.now) }
{
    items.iter().any(|item| names_task(item, name))
}

/// How many tasks there are among the lines.
pub fn count_tasks(items: &[Item]) -> usize
    ensures { result ≡ length (flat_map task_of items.now) }
{
    items.iter().filter(|item| is_task_line(item)).count()
}

/// Whether the line is a task.
fn is_task_line(item: &Item) -> bool
    ensures { result ≡ is_task_line item.now }
{
    matches!(item, Item::Task(_))
}

/// Whether a program instance of the lines has the name.
pub fn is_instance(items: &[Item], name: &Name) -> bool
    ensures { IsTrue result ↔ Any (λ u. IsTrue (is_named name.now u.instance)) (flat_map use_of items.now) }
{
    items.iter().any(|item| names_instance(item, name))
}
