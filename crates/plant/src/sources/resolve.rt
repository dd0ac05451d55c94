ghost use Rattle.std.specs.Prelude.{◌≢◌, ℕ, List, All, IfOk, OnOk, IfErr};
ghost use Rattle.plant.specs.Steps.Found.{TellsOfSource};
ghost use Rattle.plant_grammar.specs.WordFaults.{IsGrammarFault};
ghost use Rattle.plant_grammar.specs.declared.grammar_fault.GrammarFaultKind.TheVariants.{Memory};
ghost use Rattle.plant_grammar.specs.Lawful.{all_uses, IsTreeLawful};
ghost use Rattle.plant.specs.Ladders.{IsLadderOf};
ghost use Rattle.plant.specs.Steps.Reading.{tree_of};
ghost use Rattle.plant.specs.StandsFor.{IsPlantOf};
ghost use Rattle.plant.specs.Faultless.{AreBindsFed};
ghost use Rattle.plant.specs.SourceFaults.{HasFirstSourceFault};

use crate::plant::Plant;
use crate::sources::draft::draft_resources;
use crate::sources::feeds::fed_resources;
use crate::sources::link::link_resources;
use crate::sources::reading::Reading;
use plant_grammar::GrammarFault;
use std::alloc::Global;

/// The plant that is read, with each source resolved. The first source with a fault is answered, in order of the text, and none where each bind has an input and a source of its kind.
pub fn resolve(alloc: Global, reading: &Reading) -> Result<Plant, GrammarFault>
    requires lawful { (name : List ℕ) × IsTreeLawful (tree_of name reading.now) }
    requires drawn { All (λ t. IsLadderOf t.program t.ladder) reading.now.types }
    ensures ok { IfOk result (λ p. (name : List ℕ) → IsPlantOf (tree_of name reading.now) p) }
    ensures sources { OnOk result ((name : List ℕ) → All (AreBindsFed (tree_of name reading.now)) (all_uses (tree_of name reading.now))) }
    ensures refused { IfErr result (λ e. e.kind ≢ Memory → (name : List ℕ) → All (AreBindsFed (tree_of name reading.now)) (all_uses (tree_of name reading.now)) → ⊥) }
    ensures why { IfErr result (λ e. e.kind ≢ Memory → (name : List ℕ) → HasFirstSourceFault (tree_of name reading.now) e.kind e.line) }
    ensures tells { IfErr result (λ e. TellsOfSource e.kind) }
    ensures value { IfErr result IsGrammarFault }
{
    let types = reading.types();
    let resources = reading.resources();
    let drafts = draft_resources(alloc, types, resources)?;
    let fed = fed_resources(alloc, drafts.as_slice(), types, resources)?;
    let linked = link_resources(alloc, drafts.as_slice(), resources, fed.as_slice())?;
    Ok(Plant::new(linked))
}
