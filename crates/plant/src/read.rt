ghost use Rattle.std.specs.Prelude.{◌≡◌, ◌≢◌, All, IfOk, IfErr};
ghost use Rattle.plant.specs.Faults.{IsPlantFault, IsOfBody, IsOfDeclaredName};
ghost use Rattle.plant.specs.declared.plant_fault.PlantFaultKind.TheVariants.{Memory, Syntax};
ghost use Rattle.plant.specs.PlantText.{IsPlantText, IsNoPlant, IsSyntaxIn, IsBodyFaultIn, IsNameFaultIn};
ghost use Rattle.plant.specs.ProgramText.{IsProgramOfText};
ghost use Rattle.plant.specs.Steps.Reading.{IsReadIn};

use crate::drawn::draw_all;
use crate::plant::Plant;
use crate::plant_fault::PlantFault;
use crate::program_type::{ProgramType, take_named};
use crate::sources::reading::Reading;
use crate::sources::resolve::resolve;
use plant_grammar::{
    Reader, programs_are_the_first, read_tree, words_are_in_place, words_behind_are_in_place,
};
use plant_text::{last_line, read_words};
use std::alloc::Global;

/// Reads the text of a plant: all that is written, and the plant that it stands for. The first fault met from top to bottom is
/// answered, with its line.
#[tactic(auto, using(crate::proofs::WordFaults::memory_no_name, crate::proofs::WordFaults::memory_no_body, crate::proofs::WordFaults::memory_no_syntax))]
fn read_whole(alloc: Global, text: &str) -> Result<(Reading, Plant), PlantFault>
    ensures ok { IfOk result (λ read. IsReadIn text.now read.0.types read.1) }
    ensures refused { IfErr result (λ fault. fault.kind ≢ Memory → IsNoPlant text.now) }
    ensures syntax { IfErr result (λ fault. fault.kind ≡ Syntax → IsSyntaxIn text.now fault) }
    ensures value { IfErr result IsPlantFault }
    ensures body { IfErr result (λ fault. IsOfBody fault.kind → IsBodyFaultIn text.now fault) }
    ensures name { IfErr result (λ fault. IsOfDeclaredName fault.kind → IsNameFaultIn text.now fault) }
{
    words_are_in_place();
    words_behind_are_in_place();
    programs_are_the_first();
    let words = read_words(alloc, text)?;
    let mut reader = Reader::new(words.words(), last_line(text));
    let mut texts = Vec::new(alloc);
    let tree = read_tree(alloc, &mut reader, &mut texts);
    let types = draw_all(alloc, texts)?;
    let resources = tree?;
    let reading = Reading::new(types, resources);
    let plant = resolve(alloc, &reading)?;
    reader.end()?;
    Ok((reading, plant))
}

impl Plant {
    /// Reads the text of a plant. The first fault met from top to bottom is answered, with its line; a word that the grammar doesn't have there, or that is no word,
    /// is met where it stands, a program's drawing at its END_PROGRAM, and the sources of bound inputs at END_CONFIGURATION.
    ///
    /// A text without a fault is refused only where there is no memory left. By `one_plant` it is one plant. A Syntax is on the line of the first word from which, with all before it, no plant goes on.
    #[tactic(auto, using(crate::proofs::ReadTexts::text_of_plant))]
    pub fn read(alloc: Global, text: &str) -> Result<Plant, PlantFault>
        ensures ok { IfOk result (λ p. IsPlantText text.now p) }
        ensures refused { IfErr result (λ fault. fault.kind ≢ Memory → IsNoPlant text.now) }
        ensures syntax { IfErr result (λ fault. fault.kind ≡ Syntax → IsSyntaxIn text.now fault) }
        ensures value { IfErr result IsPlantFault }
        ensures body { IfErr result (λ fault. IsOfBody fault.kind → IsBodyFaultIn text.now fault) }
        ensures name { IfErr result (λ fault. IsOfDeclaredName fault.kind → IsNameFaultIn text.now fault) }
    {
        let (_, plant) = read_whole(alloc, text)?;
        Ok(plant)
    }
}

/// Reads the text of a plant as `Plant::read` does, for its program type of a name, in whatever case: as it is written, and its
/// ladder. None where the plant has no such type. By `one_program` all such types of a text say the same.
#[tactic(auto, using(crate::proofs::WordFaults::memory_no_name, crate::proofs::WordFaults::memory_no_body, crate::proofs::WordFaults::memory_no_syntax))]
pub fn read_program(
    alloc: Global,
    text: &str,
    name: &str,
) -> Result<Option<ProgramType>, PlantFault>
    ensures ok { IfOk result (λ found. IsProgramOfText text.now name.now found) }
    ensures refused { IfErr result (λ fault. fault.kind ≢ Memory → IsNoPlant text.now) }
    ensures syntax { IfErr result (λ fault. fault.kind ≡ Syntax → IsSyntaxIn text.now fault) }
    ensures value { IfErr result IsPlantFault }
    ensures body { IfErr result (λ fault. IsOfBody fault.kind → IsBodyFaultIn text.now fault) }
    ensures name { IfErr result (λ fault. IsOfDeclaredName fault.kind → IsNameFaultIn text.now fault) }
{
    let (reading, _) = read_whole(alloc, text)?;
    Ok(take_named(reading.into_types(), name))
}
