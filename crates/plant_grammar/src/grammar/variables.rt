ghost use Rattle.std.specs.Prelude.{◌≡◌, ◌≢◌, ◌↔◌, ◌+◌, ◌<◌, ◌≤◌, ◌++◌, [], ◌∷◌, List, IsTrue, OnOk, OnErr, length, IfErr};
ghost use Rattle.plant_grammar.specs.WordFaults.{IsGrammarFault};
ghost use Rattle.declared_names.specs.Names.{IsDeclared};
ghost use Rattle.plant_grammar.specs.Lawful.{declared_as, list_variables, AreVariables, MayBeDeclared};
ghost use Rattle.plant_grammar.specs.Steps.NamesRead.{IsNameTaken, IsNew};
ghost use Rattle.plant_grammar.specs.Steps.Declaring.{TellsOfChecked, TellsOfAdded};
ghost use Rattle.plant_grammar.specs.declared.grammar_fault.GrammarFaultKind.TheVariants.{Memory, Syntax};

use crate::grammar::known_names::check_new;
use crate::grammar::name::Name;
use crate::grammar::tree::{NameList, Section, TypeName};
use crate::grammar_fault::{GrammarFault, GrammarFaultKind};
use declared_names::{Declarations, DeclareFault, Declared, declared_names_have_places};
use std::alloc::Global;
use std::marker::Model;

/// How many names a program may declare.
const MOST_NAMES: usize = 1000;

/// The variables and blocks that a program declares, each name once, 1,000 at most. Contracts see the declarations in order.
#[derive(Drop)]
pub struct Variables {
    declarations: Declarations,
}

impl Model for Variables {
    ghost use Rattle.std.specs.Prelude.{List};
    ghost use Rattle.declared_names.specs.declared.declarations.Declaration.{Declaration};
    ghost use Rattle.plant_grammar.specs.Lawful.{AreVariables};

    ghost Value = { List Declaration };

    ghost view = { λ v. v.declarations };

    ghost invariant = { λ v. AreVariables v.declarations };
}

/// Whether one of the names is this one.
fn is_among(names: &[Name], name: &Name) -> bool
    ensures { IsTrue result ↔ IsNameTaken (λ n. n) names.now name.now }
{
    names.iter().any(|other| name.is_same(other))
}

/// What a name of a section is declared as.
fn declared_as(section: Section, type_name: TypeName) -> Declared
    ensures { result ≡ declared_as section type_name }
{
    match (section, type_name) {
        (_, TypeName::Block(block)) => Declared::Instance(block),
        (Section::Input, TypeName::Elementary(kind)) => Declared::Input(kind),
        (Section::Output, TypeName::Elementary(kind)) => Declared::Output(kind),
        (Section::Local | Section::Retained, TypeName::Elementary(kind)) => Declared::Local(kind),
    }
}

impl Variables {
    ghost use Rattle.declared_names.specs.declared.declarations.Declaration.{Declaration};

    /// No variables yet.
    pub fn new(alloc: Global) -> Variables
        ensures { result ≡ [] }
    {
        Variables {
            declarations: Declarations::new(alloc),
        }
    }

    /// How many there are.
    pub fn len(&self) -> usize
        ensures count { result ≡ length self.now }
        ensures few { result ≤ 1000 }
        ensures lawful { AreVariables self.now }
    {
        self.declarations.len()
    }

    /// Whether the name is declared.
    fn has(&self, name: &Name) -> bool
        ensures { IsTrue result ↔ IsDeclared self.now name.now }
    {
        declared_names_have_places();
        self.declarations.position(name.as_str()).is_some()
    }

    /// Refuses a name on a line that is declared, or that stands among `more`, which are to be declared next; and one too many.
    pub fn check(&self, more: &[Name], name: &Name, line: u64) -> Result<(), GrammarFault>
        ensures lawful { AreVariables self.now }
        ensures undeclared { OnOk result (IsDeclared self.now name.now → ⊥) }
        ensures new { OnOk result (IsNew (λ n. n) more.now name.now) }
        ensures few { OnOk result (length self.now + length more.now < 1000) }
        ensures other { OnErr result ((IsDeclared self.now name.now → ⊥) → IsNew (λ n. n) more.now name.now → length self.now + length more.now < 1000 → ⊥) }
        ensures tells { IfErr result (TellsOfChecked self.now more.now name.now) }
        ensures named { IfErr result (λ e. e.kind ≢ Syntax) }
        ensures line { IfErr result (λ e. e.line ≡ line) }
        ensures value { IfErr result IsGrammarFault }
    {
        let is_full = more.len() >= MOST_NAMES - self.len();
        check_new(line, self.has(name) || is_among(more, name), is_full)
    }

    /// Declares a name at the end. After an error the variables are as before.
    fn add(&mut self, name: &Name, declared: Declared) -> Result<(), GrammarFault>
        ensures ok { OnOk result (self.new ≡ self.old ++ record { name = name.now; declared = declared } ∷ []) }
        ensures tells { IfErr result (TellsOfAdded self.old name.now) }
        ensures other { IfErr result (λ e. e.kind ≢ Memory → (IsDeclared self.old name.now → ⊥) → length self.old < 1000 → ⊥) }
        ensures named { IfErr result (λ e. e.kind ≢ Syntax) }
        ensures value { IfErr result IsGrammarFault }
    {
        if self.declarations.len() >= MOST_NAMES {
            return Err(GrammarFault::at(GrammarFaultKind::TooMany, name.line()));
        }
        match self.declarations.add(name.as_str(), declared) {
            Ok(()) => Ok(()),
            Err(DeclareFault::Twice) => Err(GrammarFault::at(
                GrammarFaultKind::NameTwice,
                name.line(),
            )),
            Err(DeclareFault::Memory) => Err(GrammarFault::at(GrammarFaultKind::Memory, 0)),
        }
    }

    /// Declares the names of a list of a section.
    pub fn add_list(&mut self, section: Section, list: &NameList) -> Result<(), GrammarFault>
        ensures ok { OnOk result (self.new ≡ self.old ++ list_variables section list.now) }
        ensures other { IfErr result (λ e. e.kind ≢ Memory → MayBeDeclared self.old list.now.names.items → ⊥) }
        ensures named { IfErr result (λ e. e.kind ≢ Syntax) }
        ensures value { IfErr result IsGrammarFault }
    {
        let declared = declared_as(section, list.type_name);
        for name in &list.names {
            self.add(name, declared)?;
        }
        Ok(())
    }

    /// The declarations.
    pub fn into_declarations(self) -> Declarations
        ensures list { result ≡ self }
        ensures lawful { AreVariables self }
    {
        self.declarations
    }
}
