ghost use Rattle.std.specs.Prelude.{◌≡◌, ◌⊎◌, ◌++◌, [], OnOk, IfOk, string_bytes, codes};
ghost use Rattle.guidance.specs.Topics.{told_of, of_plant};
ghost use Rattle.guidance.specs.Excerpts.{marked_column, marked_line};
ghost use Rattle.guidance.specs.Helping.{IsUndeclared, TellsTopic, TellsOf, shown_of, topic_of};
ghost use Rattle.guidance.specs.declared.topic.Topic.TheVariants.{ScheduleSyntax};

use crate::excerpt::{line_of, marked_column, marked_line};
use crate::mention::{Mention, Thing};
use crate::mentions::mentions_of;
use crate::nearest::{beginning, nearest_names};
use crate::topic::Topic;
use crate::unknown_word::{declared_for_a_body, unknown_in_a_drawing, unknown_in_a_plant};
use ladder_text::{Drawing, ReadText};
use name_faults::Guess;
use network::Graph;
use plant::PlantFault;
use power_flow::{Declarations, Declared, Kind};
use std::alloc::{AllocError, Global};
use std::fmt::Write;
use text_commands::{TextFault, read_program, without_comments};
use words::is_plain_name;

/// The drawing of a text, if need be with its comments emptied. `None`: it is refused, or there was no memory left.
fn drawing_of(alloc: Global, text: &str) -> Option<Drawing> {
    if let Ok(drawing) = Drawing::read(alloc, text, 1) {
        return Some(drawing);
    }
    let text = without_comments(alloc, text).ok()?;
    Drawing::read(alloc, text.as_str(), 1).ok()
}

/// The names that a drawing declares by their use. `None`: its names aren't reached, or there was no memory left.
fn names_of_a_drawing(alloc: Global, text: &str) -> Option<Declarations> {
    let drawing = drawing_of(alloc, text)?;
    let graph = Graph::build(alloc, &drawing).ok()?;
    Declarations::guess(alloc, &graph).ok()
}

/// Writes what is wrong and how it is mended, with a line feed behind it.
fn push_sentence(help: &mut String, topic: Topic) -> Result<(), AllocError>
    ensures { OnOk result (string_bytes help.new ≡ string_bytes help.old ++ (told_of topic).sentence ++ codes "\n") }
{
    help.push_str(topic.advice().sentence)?;
    help.push_str("\n")
}

/// Writes a name, or the first letters of a long one.
fn push_name(help: &mut String, name: &[u8]) -> Result<(), AllocError> {
    for letter in beginning(name) {
        help.push(char::from(*letter))?;
    }
    Ok(())
}

/// Writes names behind what is there, parted by commas, and a line feed.
fn push_names(help: &mut String, names: &[&[u8]]) -> Result<(), AllocError> {
    let mut between = " ";
    for name in names {
        help.push_str(between)?;
        push_name(help, name)?;
        between = ", ";
    }
    help.push_str("\n")
}

/// Which name isn't declared, and the nearest ones that are.
fn nearest_to(alloc: Global, name: &[u8], declared: &[&[u8]]) -> Result<String, AllocError> {
    let mut near = String::new(alloc);
    push_name(&mut near, name)?;
    if declared.is_empty() {
        near.push_str(" isn't declared here, and no other name is.\n")?;
        return Ok(near);
    }
    near.push_str(" isn't declared here; the nearest names that are:")?;
    push_names(&mut near, &nearest_names(alloc, name, declared)?)?;
    Ok(near)
}

/// The first name in the row above a line of a drawing, or in the line, that isn't declared.
fn unknown_near<'a>(text: &'a str, line: u64, declared: &[&[u8]]) -> Option<&'a [u8]> {
    let above = line_of(text, line.saturating_sub(1));
    match unknown_in_a_drawing(above.as_bytes(), declared) {
        Some(name) => Some(name),
        None => unknown_in_a_drawing(line_of(text, line).as_bytes(), declared),
    }
}

fn names_in(alloc: Global, declarations: &Declarations) -> Result<Vec<&[u8]>, AllocError> {
    let mut names = Vec::new(alloc);
    for place in 0..declarations.len() {
        if let Some((name, _)) = declarations.entry(place) {
            names.push(name.as_bytes())?;
        }
    }
    Ok(names)
}

/// The names of a drawing that are nearest to one that is unknown.
fn near_drawing(alloc: Global, text: &str, line: u64) -> Result<String, AllocError> {
    let Some(declarations) = names_of_a_drawing(alloc, text) else {
        return Ok(String::new(alloc));
    };
    let names = names_in(alloc, &declarations)?;
    let plain = without_comments(alloc, text)?;
    match unknown_near(plain.as_str(), line, &names) {
        Some(name) => nearest_to(alloc, name, &names),
        None => Ok(String::new(alloc)),
    }
}

/// Which variables can have been meant by a name.
#[derive(Clone, Copy, Debug, PartialEq, Eq)]
pub enum Meant {
    /// Those of every kind.
    Variables,
    /// BOOL variables alone.
    Flags,
}

impl Meant {
    /// How they are told.
    fn text(self) -> &'static str {
        match self {
            Meant::Variables => "variables",
            Meant::Flags => "BOOL variables",
        }
    }

    /// Whether what is declared can have been meant.
    fn can_be(self, declared: Declared) -> bool {
        match declared {
            Declared::Input(kind) | Declared::Output(kind) | Declared::Local(kind) => {
                self == Meant::Variables || kind == Kind::Bool
            }
            Declared::Instance(_) => false,
        }
    }
}

/// The variables among these that can have been meant.
fn meant_in(
    alloc: Global,
    declarations: &Declarations,
    meant: Meant,
) -> Result<Vec<&[u8]>, AllocError> {
    let mut names = Vec::new(alloc);
    for place in 0..declarations.len() {
        if let Some((name, declared)) = declarations.entry(place) {
            if meant.can_be(declared) {
                names.push(name.as_bytes())?;
            }
        }
    }
    Ok(names)
}

/// The nearest to a name of the variables that can have been meant, behind what they are and of what; nothing where it is no
/// name or there are none.
fn near_variables(
    alloc: Global,
    declarations: &Declarations,
    meant: Meant,
    owner: &str,
    name: &[u8],
) -> Result<String, AllocError> {
    let mut near = String::new(alloc);
    let names = meant_in(alloc, declarations, meant)?;
    if is_plain_name(name) && !names.is_empty() {
        let what = meant.text();
        write!(near, "The nearest {what} of {owner}:")?;
        push_names(&mut near, &nearest_names(alloc, name, &names)?)?;
    }
    Ok(near)
}

/// Those of a program type of a plant.
fn near_program(
    alloc: Global,
    text: &str,
    program: &str,
    meant: Meant,
    name: &[u8],
) -> Result<String, AllocError> {
    match read_program(alloc, text, program) {
        Ok(Some(found)) => {
            let declarations = found.ladder().declarations();
            near_variables(alloc, declarations, meant, "the program", name)
        }
        _ => Ok(String::new(alloc)),
    }
}

/// The variables of a drawing, or of a program type of a plant, that are nearest to the name in a word NAME or NAME=VALUES, of
/// those that can have been meant; nothing where that is no name or there are none.
pub fn help_with_a_word(
    alloc: Global,
    text: &str,
    program: Option<&str>,
    meant: Meant,
    word: &str,
) -> Result<String, AllocError> {
    let name = word.split('=').next().unwrap_or(word).as_bytes();
    if let Some(program) = program {
        return near_program(alloc, text, program, meant, name);
    }
    match names_of_a_drawing(alloc, text) {
        Some(declarations) => { near_variables(alloc, &declarations, meant, "the drawing", name) }
        None => Ok(String::new(alloc)),
    }
}

/// The names of the program types that are declared.
fn program_types<'a>(alloc: Global, mentions: &[Mention<'a>]) -> Result<Vec<&'a [u8]>, AllocError> {
    let mut names = Vec::new(alloc);
    for mention in mentions {
        if mention.is_declaration && mention.thing == Thing::ProgramType {
            names.push(mention.name)?;
        }
    }
    Ok(names)
}

/// The program types of a plant that are nearest to a name; nothing where that is no name or there are none.
pub fn help_with_a_program(alloc: Global, text: &str, name: &str) -> Result<String, AllocError> {
    let mut near = String::new(alloc);
    let mentions = mentions_of(alloc, text.as_bytes())?;
    let names = program_types(alloc, &mentions)?;
    if is_plain_name(name.as_bytes()) && !names.is_empty() {
        near.push_str("The nearest program types of the plant:")?;
        push_names(&mut near, &nearest_names(alloc, name.as_bytes(), &names)?)?;
    }
    Ok(near)
}

/// The names declared for a program's drawing that are nearest to one that is unknown.
fn near_body(alloc: Global, text: &str, line: u64) -> Result<String, AllocError> {
    let mentions = mentions_of(alloc, text.as_bytes())?;
    let names = declared_for_a_body(alloc, &mentions, line)?;
    let plain = without_comments(alloc, text)?;
    match unknown_near(plain.as_str(), line, &names) {
        Some(name) => nearest_to(alloc, name, &names),
        None => Ok(String::new(alloc)),
    }
}

/// The names of a plant that are nearest to one that is unknown.
fn near_plant(alloc: Global, text: &str, line: u64) -> Result<String, AllocError> {
    let mentions = mentions_of(alloc, text.as_bytes())?;
    match unknown_in_a_plant(alloc, &mentions, line)? {
        Some((name, names)) => nearest_to(alloc, name, &names),
        None => Ok(String::new(alloc)),
    }
}

/// What is shown, the sentence on the kind of fault, and what else helps.
fn help_of(mut shown: String, topic: Topic, names: &str) -> Result<String, AllocError>
    ensures { IfOk result (λ help. string_bytes help ≡ string_bytes shown ++ (told_of topic).sentence ++ codes "\n" ++ names.now) }
{
    push_sentence(&mut shown, topic)?;
    shown.push_str(names)?;
    Ok(shown)
}

/// The names of a drawing that were meant perhaps.
fn meant_in_a_drawing(
    alloc: Global,
    text: &str,
    topic: Topic,
    line: u64,
) -> Result<String, AllocError>
    ensures { IfOk result (λ names. IsUndeclared topic ⊎ (string_bytes names ≡ [])) }
{
    match topic {
        Topic::UnknownName => near_drawing(alloc, text, line),
        _ => Ok(String::new(alloc)),
    }
}

/// The names of a plant that were meant perhaps.
fn meant_in_a_plant(
    alloc: Global,
    text: &str,
    topic: Topic,
    line: u64,
) -> Result<String, AllocError>
    ensures { IfOk result (λ names. IsUndeclared topic ⊎ (string_bytes names ≡ [])) }
{
    match topic {
        Topic::UnknownName => near_body(alloc, text, line),
        Topic::PlantUnknownName => near_plant(alloc, text, line),
        _ => Ok(String::new(alloc)),
    }
}

/// A place of a drawing, what is wrong there, and names that were meant perhaps.
fn help_at(
    alloc: Global,
    text: &str,
    topic: Option<Topic>,
    line: u64,
    column: usize,
) -> Result<String, AllocError>
    ensures { IfOk result (λ help. TellsOf topic (marked_column text.now line column) (string_bytes help)) }
{
    let Some(topic) = topic else {
        return Ok(String::new(alloc));
    };
    let shown = marked_column(alloc, text, line, column)?;
    let names = meant_in_a_drawing(alloc, text, topic, line)?;
    help_of(shown, topic, names.as_str())
}

/// A line of a plant, what is wrong there, and names that were meant perhaps.
fn help_with_a_plant(alloc: Global, text: &str, fault: PlantFault) -> Result<String, AllocError>
    ensures { IfOk result (λ help. TellsOf (of_plant fault.kind fault.inner) (marked_line text.now fault.line) (string_bytes help)) }
{
    let Some(topic) = Topic::of_plant(fault) else {
        return Ok(String::new(alloc));
    };
    let shown = marked_line(alloc, text, fault.line)?;
    let names = meant_in_a_plant(alloc, text, topic, fault.line)?;
    help_of(shown, topic, names.as_str())
}

/// What helps to mend a text that a command refused: the line with the place, what is wrong there, and names that were
/// meant perhaps. It is empty for want of memory, and of a second drawing, whose text isn't this one.
pub fn help_with(alloc: Global, text: &str, fault: TextFault) -> Result<String, AllocError>
    ensures { IfOk result (λ help. TellsOf (topic_of fault) (shown_of text.now fault) (string_bytes help)) }
{
    match fault {
        TextFault::Draw(fault) => {
            let topic = Topic::of_drawing(fault.kind);
            help_at(alloc, text, topic, fault.line, fault.column)
        }
        TextFault::Graph(fault) => {
            let topic = Topic::of_networks(fault.kind);
            help_at(alloc, text, topic, fault.line, fault.column)
        }
        TextFault::Bind(fault) => {
            let topic = Topic::of_names(fault.kind);
            help_at(alloc, text, topic, fault.line, fault.column)
        }
        TextFault::Plant(fault) => help_with_a_plant(alloc, text, fault),
        TextFault::TooLong => help_of(String::new(alloc), Topic::TooLong, ""),
        TextFault::Second(_) => Ok(String::new(alloc)),
    }
}

/// What helps to mend a schedule of which this line is no event: the line, and what is wrong there.
pub fn help_with_a_schedule(alloc: Global, text: &str, line: u64) -> Result<String, AllocError>
    ensures { IfOk result (λ help. TellsTopic ScheduleSyntax (marked_line text.now line) (string_bytes help)) }
{
    help_of(marked_line(alloc, text, line)?, Topic::ScheduleSyntax, "")
}
