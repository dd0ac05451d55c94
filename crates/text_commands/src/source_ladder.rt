//! The ladder that is read from a source.

ghost use Rattle.std.specs.Prelude.{◌≡◌, IfOk, IfErr, Some, None, string_bytes};
ghost use Rattle.plant_grammar.specs.Retained.{retained_places};
ghost use Rattle.text_commands.specs.Sources.{no_program, source_of};
ghost use Rattle.text_commands.specs.Steps.Sources.{IsDrawnFrom, RefusesFrom};

use crate::eval_command::read_ladder;
use crate::ladder_source::LadderSource;
use crate::program_types::read_program;
use crate::second_drawing::page::one_below_other;
use crate::second_drawing::read_both;
use crate::text_command_fault::TextCommandFault;
use crate::word_fault::{WordFault, WordFaultKind};
use plant::ProgramType;
use plant_grammar::retained_places;
use power_flow::Ladder;
use std::alloc::{AllocError, Global};
use std::sync::Arc;

/// A ladder, the text of its drawing, and the places of the variables that outlive a restart.
#[derive(Drop)]
pub(crate) struct DrawnLadder {
    pub(crate) ladder: Arc<Ladder>,
    pub(crate) drawing: String,
    pub(crate) retained: Vec<usize>,
}

/// The fault where a plant has no program type of the name.
pub fn no_program() -> TextCommandFault
    ensures { result ≡ no_program }
{
    TextCommandFault::Word(WordFault {
        number: 0,
        kind: WordFaultKind::NoProgram,
    })
}

/// The ladder of a drawing, which retains nothing.
fn drawn_of_drawing(alloc: Global, text: &str) -> Result<DrawnLadder, TextCommandFault>
    ensures ok { IfOk result (λ drawn. IsDrawnFrom (record { text = text.now; program = None; second = None })
        drawn.ladder.value (string_bytes drawn.drawing) drawn.retained.items) }
    ensures err { IfErr result (RefusesFrom (record { text = text.now; program = None; second = None })) }
{
    let ladder = read_ladder(alloc, text)?;
    let ladder = Arc::new(alloc, ladder)?;
    let drawing = String::from_str(alloc, text)?;
    Ok(DrawnLadder {
        ladder,
        drawing,
        retained: Vec::new(alloc),
    })
}

/// The ladder of a drawing and a second one, whose rungs stand behind; they retain nothing.
fn drawn_of_both(alloc: Global, text: &str, second: &str) -> Result<DrawnLadder, TextCommandFault>
    ensures ok { IfOk result (λ drawn. IsDrawnFrom (record { text = text.now; program = None; second = Some second.now })
        drawn.ladder.value (string_bytes drawn.drawing) drawn.retained.items) }
    ensures err { IfErr result (RefusesFrom (record { text = text.now; program = None; second = Some second.now })) }
{
    let joined = read_both(alloc, text, second)?;
    let ladder = Arc::new(alloc, joined.ladder)?;
    let drawing = one_below_other(alloc, text, second)?;
    Ok(DrawnLadder {
        ladder,
        drawing,
        retained: Vec::new(alloc),
    })
}

/// The ladder of a program type, its body, and its variables of VAR RETAIN.
fn drawn_of_type(alloc: Global, found: &ProgramType) -> Result<DrawnLadder, AllocError>
    ensures ladder { IfOk result (λ drawn. drawn.ladder.value ≡ found.now.ladder) }
    ensures drawing { IfOk result (λ drawn. string_bytes drawn.drawing ≡ found.now.program.body) }
    ensures retained { IfOk result (λ drawn. drawn.retained.items ≡ retained_places found.now.program) }
{
    let ladder = Arc::try_clone(found.ladder())?;
    let drawing = String::from_str(alloc, found.program().body.as_str())?;
    let retained = retained_places(alloc, found.program())?;
    Ok(DrawnLadder {
        ladder,
        drawing,
        retained,
    })
}

/// The ladder of the program type of a name in a plant.
fn drawn_of_program(alloc: Global, text: &str, name: &str) -> Result<DrawnLadder, TextCommandFault>
    ensures ok { IfOk result (λ drawn. IsDrawnFrom (record { text = text.now; program = Some name.now; second = None })
        drawn.ladder.value (string_bytes drawn.drawing) drawn.retained.items) }
    ensures err { IfErr result (RefusesFrom (record { text = text.now; program = Some name.now; second = None })) }
{
    match read_program(alloc, text, name)? {
        Some(found) => Ok(drawn_of_type(alloc, &found)?),
        None => Err(no_program()),
    }
}

/// The ladder that is read from a source, the text of its drawing (of two both, of a program type its body), and what it
/// retains.
pub(crate) fn read_source(
    alloc: Global,
    source: LadderSource<'_>,
) -> Result<DrawnLadder, TextCommandFault>
    ensures ok { IfOk result (λ drawn. IsDrawnFrom (source_of source.entry)
        drawn.ladder.value (string_bytes drawn.drawing) drawn.retained.items) }
    ensures err { IfErr result (RefusesFrom (source_of source.entry)) }
{
    match source.program {
        None => match source.second {
            None => drawn_of_drawing(alloc, source.text),
            Some(second) => drawn_of_both(alloc, source.text, second),
        },
        Some(name) => drawn_of_program(alloc, source.text, name),
    }
}
