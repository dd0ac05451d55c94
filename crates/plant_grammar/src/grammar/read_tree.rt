//! The words of a plant's text, up to the word that ends its configuration.

ghost use Rattle.std.specs.Prelude.{◌≡◌, ◌≢◌, ◌<◌, ◌^◌, ◌++◌, ℕ, List, [], length, IfOk, IfErr};
ghost use Rattle.plant_text.specs.declared.token.Token.{Token};
ghost use Rattle.plant_grammar.specs.declared.grammar_fault.GrammarFaultKind.TheVariants.{Memory, Syntax};
ghost use Rattle.plant_grammar.specs.Grammar.{Tree, words_of};
ghost use Rattle.plant_grammar.specs.Lawful.{AreProgramsDeclared, IsTreeLawful};
ghost use Rattle.plant_grammar.specs.Parts.{IsSameTree};
ghost use Rattle.plant_grammar.specs.SourceLines.{AreSourcesOn};
ghost use Rattle.plant_grammar.specs.Steps.Lines.{HasLinesOf, next_line};
ghost use Rattle.plant_grammar.specs.Steps.Expected.{MeetsMisplaced};
ghost use Rattle.plant_grammar.specs.WellFormed.{IsTreeWellFormed};
ghost use Rattle.plant_grammar.specs.WordFaults.{IsGrammarFault};
ghost use Rattle.plant_grammar.specs.Steps.Declaring.{BeginRefused, RefusesFirst};
ghost use Rattle.plant_grammar.specs.Steps.Reading.{programs_of, AreAllPrograms, IsTreeOf, BeginWithTexts, tree_written};

use crate::grammar::program_text::ProgramText;
use crate::grammar::reader::Reader;
use crate::grammar::tally::Tally;
use crate::grammar::tree::Resource;
use crate::grammar_fault::GrammarFault;
use plant_text::Keyword;
use std::alloc::Global;

/// Reads program types and a configuration, up to the word that ends it. The first fault of a word is answered; bodies aren't drawn, and sources aren't resolved.
///
/// The program types are left in `texts`, after a fault those before it. What stands behind the configuration is left in the reader.
#[tactic(auto, using(crate::proofs::RefusedNames::no_name, crate::proofs::RefusedNames::memory_no_name, crate::proofs::UnexpectedWords::memory_no_syntax, crate::proofs::FoundTypes::no_programs), unfolding(crate::specs::Grammar::words_of))]
pub fn read_tree<'a>(
    alloc: Global,
    reader: &mut Reader<'a>,
    texts: &mut Vec<ProgramText>,
) -> Result<Vec<Resource>, GrammarFault>
    requires { texts.old.items ≡ [] }
    ensures ok { IfOk result (λ resources. IsTreeOf reader.old.words texts.new.items resources.items reader.new.words) }
    ensures texts { BeginWithTexts reader.old texts.new.items }
    ensures declared { AreProgramsDeclared (programs_of texts.new.items) }
    ensures lined { IfOk result (λ resources. (all : List ℕ) → HasLinesOf all reader.old → AreSourcesOn all resources.items reader.new.words) }
    ensures refused { IfErr result (λ e. e.kind ≢ Memory → (tree : Tree) (rest : List Token) → reader.old.words ≡ words_of tree ++ rest → IsTreeLawful tree → ⊥) }
    ensures only { IfOk result (λ resources. (tree : Tree) (rest : List Token) → reader.old.words ≡ words_of tree ++ rest → (reader.new.words ≡ rest) × IsSameTree tree (tree_written tree.name texts.new.items resources.items)) }
    ensures syntax { IfErr result (λ e. e.kind ≡ Syntax → (tree : Tree) (rest : List Token) → reader.old.words ≡ words_of tree ++ rest → IsTreeWellFormed tree → ⊥) }
    ensures behind { IfOk result (λ _. reader.new.words ≢ [] → MeetsMisplaced reader.old (next_line reader.new)) }
    ensures misplaced { IfErr result (λ e. e.kind ≡ Syntax → length reader.old.words < 2 ^ 63 → MeetsMisplaced reader.old e.line) }
    ensures whole { IfErr result (λ e. e.kind ≡ Syntax → AreAllPrograms reader.old.words (programs_of texts.new.items)) }
    ensures value { IfErr result IsGrammarFault }
    ensures name { IfErr result (BeginRefused (RefusesFirst (programs_of texts.new.items)) reader.old) }
{
    reader.programs(alloc, texts)?;
    reader.keyword(Keyword::Configuration)?;
    let _name = reader.name(alloc)?;
    let mut tally = Tally::new();
    let resources = reader.resources(alloc, texts.as_slice(), &mut tally)?;
    let _instances = tally.instances();
    let _binds = tally.binds();
    Ok(resources)
}
