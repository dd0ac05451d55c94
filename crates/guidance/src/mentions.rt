use crate::mention::{Mention, Thing};
use crate::plant_word::{PlantWord, plant_words};
use std::alloc::{AllocError, Global};
use words::is_plain_name;

/// What the next name of a plant's text is.
#[derive(Clone, Copy)]
enum Turn {
    /// No name of a thing.
    Nothing,
    /// The one name that is declared.
    Declares(Thing),
    /// A name that is declared, and so are those behind it.
    DeclaresAll(Thing),
    UsesTask,
    UsesType,
    /// An input that is bound.
    UsesInput,
    /// A part of a source.
    UsesSource(Thing),
}

/// What was read so far of a plant's words.
#[derive(Drop)]
struct Reading<'a> {
    mentions: Vec<Mention<'a>>,
    turn: Turn,
    in_configuration: bool,
    /// The program type whose names come.
    program: &'a [u8],
    resource: &'a [u8],
    /// The instance that is declared, or is the source of what comes.
    instance: &'a [u8],
    /// The resource of the source that comes.
    source: &'a [u8],
}

fn is_end(word: &[u8]) -> bool {
    word.eq_ignore_ascii_case(b"END_VAR")
        || word.eq_ignore_ascii_case(b"END_PROGRAM")
        || word.eq_ignore_ascii_case(b"END_RESOURCE")
        || word.eq_ignore_ascii_case(b"END_CONFIGURATION")
}

/// What comes behind a keyword. `None`: the word is none of these.
fn turn_behind(word: &[u8], in_configuration: bool) -> Option<Turn> {
    if word.eq_ignore_ascii_case(b"PROGRAM") {
        Some(Turn::Declares(if in_configuration {
            Thing::Instance
        } else {
            Thing::ProgramType
        }))
    } else if word.eq_ignore_ascii_case(b"RESOURCE") {
        Some(Turn::Declares(Thing::Resource))
    } else if word.eq_ignore_ascii_case(b"TASK") {
        Some(Turn::Declares(Thing::Task))
    } else if word.eq_ignore_ascii_case(b"WITH") {
        Some(Turn::UsesTask)
    } else if word.eq_ignore_ascii_case(b"VAR_INPUT") {
        Some(Turn::DeclaresAll(Thing::Input))
    } else if word.eq_ignore_ascii_case(b"VAR_OUTPUT") {
        Some(Turn::DeclaresAll(Thing::Output))
    } else if word.eq_ignore_ascii_case(b"VAR") {
        Some(Turn::DeclaresAll(Thing::Local))
    } else if is_end(word) {
        Some(Turn::Nothing)
    } else {
        None
    }
}

/// What comes behind a sign between an input and its source, in a source, or between two of them. `None`: it is no such
/// sign.
fn turn_by_sign(word: &[u8], turn: Turn) -> Option<Turn> {
    match (word, turn) {
        (b"=", Turn::UsesInput) => Some(Turn::UsesSource(Thing::Resource)),
        (b".", Turn::UsesSource(Thing::Resource)) => Some(Turn::UsesSource(Thing::Instance)),
        (b".", Turn::UsesSource(_)) => Some(Turn::UsesSource(Thing::Output)),
        (b",", Turn::UsesSource(_)) => Some(Turn::UsesInput),
        _ => None,
    }
}

impl<'a> Reading<'a> {
    fn declare(
        &mut self,
        thing: Thing,
        owner: &'a [u8],
        word: PlantWord<'a>,
    ) -> Result<(), AllocError> {
        self.mentions.push(Mention {
            thing,
            name: word.text,
            owner,
            origin: b"",
            line: word.line,
            is_declaration: true,
        })?;
        Ok(())
    }

    /// The instance of which the task and the program type were read.
    fn declare_instance(&mut self, program: PlantWord<'a>) -> Result<(), AllocError> {
        self.mentions.push(Mention {
            thing: Thing::Instance,
            name: self.instance,
            owner: self.resource,
            origin: program.text,
            line: program.line,
            is_declaration: true,
        })?;
        Ok(())
    }

    fn name_used(
        &mut self,
        thing: Thing,
        owner: &'a [u8],
        origin: &'a [u8],
        word: PlantWord<'a>,
    ) -> Result<(), AllocError> {
        self.mentions.push(Mention {
            thing,
            name: word.text,
            owner,
            origin,
            line: word.line,
            is_declaration: false,
        })?;
        Ok(())
    }

    /// The name of a program type, resource, task or instance.
    fn take_declared(&mut self, thing: Thing, word: PlantWord<'a>) -> Result<(), AllocError> {
        self.turn = Turn::Nothing;
        match thing {
            Thing::ProgramType => {
                self.program = word.text;
                self.declare(thing, b"", word)
            }
            Thing::Resource => {
                self.resource = word.text;
                self.declare(thing, b"", word)
            }
            Thing::Instance => {
                self.instance = word.text;
                Ok(())
            }
            _ => self.declare(thing, self.resource, word),
        }
    }

    /// A part of a source: a resource, an instance of it, or an output of that.
    fn take_source(&mut self, thing: Thing, word: PlantWord<'a>) -> Result<(), AllocError> {
        match thing {
            Thing::Resource => {
                self.source = word.text;
                self.name_used(thing, b"", b"", word)
            }
            Thing::Instance => {
                self.instance = word.text;
                self.name_used(thing, self.source, b"", word)
            }
            _ => self.name_used(thing, self.instance, self.source, word),
        }
    }

    fn take_name(&mut self, word: PlantWord<'a>) -> Result<(), AllocError> {
        match self.turn {
            Turn::Nothing => Ok(()),
            Turn::Declares(thing) => self.take_declared(thing, word),
            Turn::DeclaresAll(thing) => self.declare(thing, self.program, word),
            Turn::UsesTask => {
                self.turn = Turn::UsesType;
                self.name_used(Thing::Task, self.resource, b"", word)
            }
            Turn::UsesType => {
                self.turn = Turn::UsesInput;
                self.program = word.text;
                self.declare_instance(word)?;
                self.name_used(Thing::ProgramType, b"", b"", word)
            }
            Turn::UsesInput => self.name_used(Thing::Input, self.program, b"", word),
            Turn::UsesSource(thing) => self.take_source(thing, word),
        }
    }

    fn take(&mut self, word: PlantWord<'a>) -> Result<(), AllocError> {
        if let Some(turn) = turn_behind(word.text, self.in_configuration) {
            self.turn = turn;
            return Ok(());
        }
        if word.text.eq_ignore_ascii_case(b"CONFIGURATION") {
            self.turn = Turn::Nothing;
            self.in_configuration = true;
            return Ok(());
        }
        if let Some(turn) = turn_by_sign(word.text, self.turn) {
            self.turn = turn;
            return Ok(());
        }
        if is_plain_name(word.text) {
            self.take_name(word)
        } else {
            Ok(())
        }
    }
}

/// The names of things in a plant's text, where they are declared and used. What a drawing uses is left out.
pub fn mentions_of<'a>(alloc: Global, text: &'a [u8]) -> Result<Vec<Mention<'a>>, AllocError> {
    let words = plant_words(alloc, text)?;
    let mut reading = Reading {
        mentions: Vec::new(alloc),
        turn: Turn::Nothing,
        in_configuration: false,
        program: b"",
        resource: b"",
        instance: b"",
        source: b"",
    };
    for word in &words {
        reading.take(*word)?;
    }
    Ok(reading.mentions)
}
