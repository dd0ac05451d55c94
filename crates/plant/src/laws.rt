ghost use Rattle.plant.specs.Counts.{CountsAreSmall};
ghost use Rattle.plant.specs.NamesApart.{NamesAreApart};
ghost use Rattle.plant.specs.PlantText.{OneTree, OnePlantOfTree, OnePlant};
ghost use Rattle.plant.specs.ProgramText.{OneProgram};

use crate::ladder_laws::program_has_one_ladder;
use plant_grammar::{words_are_in_place, words_have_one_tree};
use plant_text::one_words;

/// Trees of at most 64 program types that a text spells say the same.
pub fn one_tree()
    ensures { OneTree }
{
    one_words();
    words_are_in_place();
    words_have_one_tree();
}

/// A tree stands for one plant: its tasks, their programs and ladders, and what each input is bound to.
pub fn one_plant_of_tree()
    ensures { OnePlantOfTree }
{
    program_has_one_ladder();
}

/// A text is one plant at most, so what `Plant::read` answers is the plant of the text.
pub fn one_plant()
    ensures { OnePlant }
{
    one_tree();
    one_plant_of_tree();
}

/// The program types of a name in a text say the same, and have one ladder.
pub fn one_program()
    ensures { OneProgram }
{
    one_tree();
    program_has_one_ladder();
}

/// A plant of a text has at most 16 resources, 64 instances and 4,096 connections, so its counts are numbers of 64 bits.
pub fn counts_are_small()
    ensures { CountsAreSmall }
{}

/// The names of a plant that a text spells are plain, and tell its resources and the tasks of each apart.
pub fn names_are_apart()
    ensures { NamesAreApart }
{}
