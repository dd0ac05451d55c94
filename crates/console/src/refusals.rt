//! The first line of what is told of a text or a word that is refused, and of a difference.

ghost use Rattle.std.specs.Prelude.{◌≡◌, ◌++◌, Some, codes};
ghost use Rattle.std.specs.Fmt.{DisplaysOnOk};
ghost use Rattle.std.specs.Option.{option_map};
ghost use Rattle.text_lines.specs.LineParts.{value_text};
ghost use Rattle.console.specs.Refusals.{at_line, at_place, difference_line, difference_text, kind_of_body, kind_of_drawing, kind_of_names, kind_of_networks, kind_of_plant, no_event, refusal_of, shown};
ghost use Rattle.console.specs.WordRefusals.{name_refused, nameless, word_refusal, written_over, written_twice};

use crate::shown::Shown;
use ladder_text::DrawFaultKind;
use name_faults::BindKind;
use network::GraphFaultKind;
use plant::{BodyFault, PlantFault, PlantFaultKind};
use std::fmt;
use std::fmt::{Display, Formatter};
use std_blocks::Value;
use text_commands::{Difference, SecondFault, TextFault};

/// The name of the kind of a drawing's fault.
fn kind_of_drawing(kind: DrawFaultKind) -> &'static str
    ensures { result.now ≡ kind_of_drawing kind }
{
    match kind {
        DrawFaultKind::NotAscii => "NotAscii",
        DrawFaultKind::TooLarge => "TooLarge",
        DrawFaultKind::NoLeftRail => "NoLeftRail",
        DrawFaultKind::BadBox => "BadBox",
        DrawFaultKind::BadMark => "BadMark",
        DrawFaultKind::Crossing => "Crossing",
        DrawFaultKind::NoSource => "NoSource",
        DrawFaultKind::NameMissing => "NameMissing",
        DrawFaultKind::StrayName => "StrayName",
        DrawFaultKind::Memory => "Memory",
    }
}

/// The name of the kind of a fault of networks.
fn kind_of_networks(kind: GraphFaultKind) -> &'static str
    ensures { result.now ≡ kind_of_networks kind }
{
    match kind {
        GraphFaultKind::Unattached => "Unattached",
        GraphFaultKind::TooTall => "TooTall",
        GraphFaultKind::InstanceTwice => "InstanceTwice",
        GraphFaultKind::Memory => "Memory",
    }
}

/// The name of the kind of a fault of names.
fn kind_of_names(kind: BindKind) -> &'static str
    ensures { result.now ≡ kind_of_names kind }
{
    match kind {
        BindKind::UnknownName => "UnknownName",
        BindKind::WrongKind => "WrongKind",
        BindKind::WritesInput => "WritesInput",
        BindKind::UnknownPin => "UnknownPin",
        BindKind::PinMissing => "PinMissing",
        BindKind::LiteralOutOfRange => "LiteralOutOfRange",
        BindKind::Memory => "Memory",
    }
}

/// The name of the kind of a plant's fault.
fn kind_of_plant(kind: PlantFaultKind) -> &'static str
    ensures { result.now ≡ kind_of_plant kind }
{
    match kind {
        PlantFaultKind::Syntax => "Syntax",
        PlantFaultKind::Drawing => "Drawing",
        PlantFaultKind::Graph => "Graph",
        PlantFaultKind::Bind => "Bind",
        PlantFaultKind::NameTwice => "NameTwice",
        PlantFaultKind::UnknownName => "UnknownName",
        PlantFaultKind::WrongKind => "WrongKind",
        PlantFaultKind::InputBoundTwice => "InputBoundTwice",
        PlantFaultKind::TooMany => "TooMany",
        PlantFaultKind::Memory => "Memory",
    }
}

/// The name of the kind of what a program's body has wrong.
fn kind_of_body(fault: BodyFault) -> &'static str
    ensures { result.now ≡ kind_of_body fault }
{
    match fault {
        BodyFault::Drawing(kind) => kind_of_drawing(kind),
        BodyFault::Graph(kind) => kind_of_networks(kind),
        BodyFault::Bind(kind) => kind_of_names(kind),
    }
}

/// Writes what is wrong at a place of a file.
fn write_at_place<W: fmt::Write>(
    f: &mut Formatter<W>,
    file: &str,
    line: u64,
    column: usize,
    kind: &str,
) -> fmt::Result
    ensures { DisplaysOnOk W.write_str_gives f.old result (Some (at_place file.now line column kind.now)) f.new }
{
    let file = Shown(file);
    write!(f, "{file}:{line}:{column}: {kind}")
}

/// Writes what is wrong on a line of a file, and what its body has wrong, where that is told.
fn write_at_line<W: fmt::Write>(f: &mut Formatter<W>, file: &str, fault: PlantFault) -> fmt::Result
    ensures { DisplaysOnOk W.write_str_gives f.old result (Some (at_line file.now fault.line fault.kind fault.inner)) f.new }
{
    let (file, line, kind) = (Shown(file), fault.line, kind_of_plant(fault.kind));
    match fault.inner {
        None => write!(f, "{file}:{line}: {kind}"),
        Some(inner) => {
            let inner = kind_of_body(inner);
            write!(f, "{file}:{line}: {kind} {inner}")
        }
    }
}

/// Writes the first line of what is told of a text that is refused: where in the file, and the kind of what is wrong there.
pub fn write_refusal<W: fmt::Write>(
    f: &mut Formatter<W>,
    file: &str,
    fault: TextFault,
) -> fmt::Result
    ensures { DisplaysOnOk W.write_str_gives f.old result (Some (refusal_of file.now fault)) f.new }
{
    match fault {
        TextFault::Draw(fault) | TextFault::Second(SecondFault::Draw(fault)) => {
            let kind = kind_of_drawing(fault.kind);
            write_at_place(f, file, fault.line, fault.column, kind)
        }
        TextFault::Graph(fault) | TextFault::Second(SecondFault::Graph(fault)) => {
            let kind = kind_of_networks(fault.kind);
            write_at_place(f, file, fault.line, fault.column, kind)
        }
        TextFault::Bind(fault) | TextFault::Second(SecondFault::Bind(fault)) => {
            let kind = kind_of_names(fault.kind);
            write_at_place(f, file, fault.line, fault.column, kind)
        }
        TextFault::Plant(fault) => write_at_line(f, file, fault),
        TextFault::TooLong => f.write_str("plan: TooLong"),
    }
}

/// The first line of what is told of a text that is refused.
#[derive(Clone, Copy)]
pub(crate) struct Refusal<'a> {
    pub file: &'a str,
    pub fault: TextFault,
}

impl Display for Refusal<'_> {
    ghost output = { λ r. Some (refusal_of r.file.now r.fault) };

    fn fmt<W: fmt::Write>(&self, f: &mut Formatter<W>) -> fmt::Result {
        write_refusal(f, self.file, self.fault)
    }
}

/// Writes the first line of what is told of a schedule of which a line is no event.
pub fn write_no_event<W: fmt::Write>(f: &mut Formatter<W>, file: &str, line: u64) -> fmt::Result
    ensures { DisplaysOnOk W.write_str_gives f.old result (Some (no_event file.now line)) f.new }
{
    let file = Shown(file);
    write!(f, "{file}:{line}: Syntax")
}

/// The first line of what is told of a schedule of which a line is no event.
#[derive(Clone, Copy)]
pub(crate) struct NoEvent<'a> {
    pub file: &'a str,
    pub line: u64,
}

impl Display for NoEvent<'_> {
    ghost output = { λ r. Some (no_event r.file.now r.line) };

    fn fmt<W: fmt::Write>(&self, f: &mut Formatter<W>) -> fmt::Result {
        write_no_event(f, self.file, self.line)
    }
}

/// A value as a line has it.
#[derive(Clone, Copy)]
struct ShownValue(Value);

impl Display for ShownValue {
    ghost output = { λ v. Some (value_text v.0) };

    fn fmt<W: fmt::Write>(&self, f: &mut Formatter<W>) -> fmt::Result {
        match self.0 {
            Value::Bool(true) => f.write_str("1"),
            Value::Bool(false) => f.write_str("0"),
            Value::Int(number) => write!(f, "{number}"),
            Value::Time(milliseconds) => write!(f, "T#{milliseconds}ms"),
        }
    }
}

/// Writes that a variable isn't what the words expect.
fn write_difference<W: fmt::Write>(
    f: &mut Formatter<W>,
    file: &str,
    name: &str,
    scan: usize,
    value: Value,
    expected: Value,
) -> fmt::Result
    ensures { DisplaysOnOk W.write_str_gives f.old result
        (Some (difference_text file.now name.now scan value expected)) f.new }
{
    let (file, is, wanted) = (Shown(file), ShownValue(value), ShownValue(expected));
    write!(f, "{file}: {name} is {is} after ")?;
    write!(f, "scan {scan}, expected {wanted}")
}

/// Writes the line on a variable that isn't what the words expect.
pub fn write_difference_line<W: fmt::Write>(
    f: &mut Formatter<W>,
    file: &str,
    difference: &Difference,
) -> fmt::Result
    ensures { DisplaysOnOk W.write_str_gives f.old result (Some (difference_line file.now difference.now)) f.new }
{
    let name = difference.name.as_str();
    write_difference(
        f,
        file,
        name,
        difference.scan,
        difference.value,
        difference.expected,
    )
}

/// The line on a variable that isn't what the words expect.
#[derive(Clone, Copy)]
pub(crate) struct DifferenceLine<'a> {
    pub file: &'a str,
    pub difference: &'a Difference,
}

impl Display for DifferenceLine<'_> {
    ghost output = { λ d. Some (difference_line d.file.now d.difference.now) };

    fn fmt<W: fmt::Write>(&self, f: &mut Formatter<W>) -> fmt::Result {
        write_difference_line(f, self.file, self.difference)
    }
}

/// Why words of the command line are refused that its grammar allows.
#[derive(Clone, Copy, Debug)]
pub enum WordRefusal<'a> {
    /// This word of a run is no ADDRESS=VALUE.
    NoFieldInput(&'a str),
    /// This word gives an address its value, and one before it does.
    AddressTwice(&'a str),
    /// The plant has no resource of this name.
    NoResource(&'a str),
    /// The plant has no program type of this name.
    NoProgram(&'a str),
    /// There is no kind of fault of this name.
    NoKind(&'a str),
    /// `-` stands in the place of a file.
    NoFile,
    /// `-` stands for what is written for this option.
    Nameless(&'a str),
    /// The names are neither all of a drawing nor all of a plant, or what is asked of a drawing is asked of plants alone.
    NoSubject,
    /// Names are of a plant, or what is asked of a program type is asked of plants alone.
    NoProgramOfNames,
    /// What is asked by induction is of a plant, or of neither.
    NoInduction,
    /// A file is read, and would be written for an option.
    WrittenOver {
        path: &'a str,
        option: &'a str,
    },
    /// A file is written for an option, and would be for another one.
    WrittenTwice {
        path: &'a str,
        first: &'a str,
        option: &'a str,
    },
}

/// Writes a word, and why it is refused.
fn write_named<W: fmt::Write>(f: &mut Formatter<W>, name: &str, why: &str) -> fmt::Result
    ensures { DisplaysOnOk W.write_str_gives f.old result (Some (name_refused name.now why.now)) f.new }
{
    let name = Shown(name);
    write!(f, "plc: {name}: {why}")
}

/// Writes that a file would be written over.
fn write_written_over<W: fmt::Write>(f: &mut Formatter<W>, path: &str, option: &str) -> fmt::Result
    ensures { DisplaysOnOk W.write_str_gives f.old result (Some (written_over path.now option.now)) f.new }
{
    write_named(f, path, "this file is read: give another name to ")?;
    f.write_str(option)
}

/// Writes that a file would be written twice.
fn write_written_twice<W: fmt::Write>(
    f: &mut Formatter<W>,
    path: &str,
    first: &str,
    option: &str,
) -> fmt::Result
    ensures { DisplaysOnOk W.write_str_gives f.old result (Some (written_twice path.now first.now option.now)) f.new }
{
    write_named(f, path, "this file is written for ")?;
    write!(f, "{first}: give another name to {option}")
}

/// Writes that nothing of the name `-` is written for an option.
fn write_nameless<W: fmt::Write>(f: &mut Formatter<W>, option: &str) -> fmt::Result
    ensures { DisplaysOnOk W.write_str_gives f.old result (Some (nameless option.now)) f.new }
{
    f.write_str("plc: -: nothing is written to standard output for ")?;
    write!(f, "{option}; what has this name is ./-")
}

/// Writes the line on words that are refused.
pub fn write_word_refusal<W: fmt::Write>(
    f: &mut Formatter<W>,
    refusal: WordRefusal<'_>,
) -> fmt::Result
    ensures { DisplaysOnOk W.write_str_gives f.old result (Some (word_refusal refusal.entry)) f.new }
{
    match refusal {
        WordRefusal::NoFieldInput(word) => write_named(
            f,
            word,
            "this word is no ADDRESS=VALUE such as %IX0=1 or %IW2=-7",
        ),
        WordRefusal::AddressTwice(word) => {
            write_named(f, word, "another word gives this address its value")
        }
        WordRefusal::NoResource(name) => {
            write_named(f, name, "the plant has no resource of this name")
        }
        WordRefusal::NoProgram(name) => {
            write_named(f, name, "the plant has no program type of this name")
        }
        WordRefusal::NoKind(name) => write_named(
            f,
            name,
            "there is no kind of fault of this name; plc explain lists all",
        ),
        WordRefusal::NoFile => f.write_str(
            "plc: -: only a schedule is read from standard input; a file of this name is ./-",
        ),
        WordRefusal::Nameless(option) => write_nameless(f, option),
        WordRefusal::NoSubject => f.write_str(
            "plc: names without a dot are of a drawing, names R.P.V of a plant, and a question is about one of them; --no-restarts and --most-waiting are of plants, --with is of drawings",
        ),
        WordRefusal::NoProgramOfNames => f.write_str(
            "plc: --program asks about one program type: its names have no dot, and --no-restarts and --most-waiting are of plants",
        ),
        WordRefusal::NoInduction => f.write_str(
            "plc: --by induction is of drawings and program types, whose names have no dot: leave it out for a plant, of which --no-restarts and --most-waiting are",
        ),
        WordRefusal::WrittenOver { path, option } => write_written_over(f, path, option),
        WordRefusal::WrittenTwice {
            path,
            first,
            option,
        } => write_written_twice(f, path, first, option),
    }
}

impl Display for WordRefusal<'_> {
    ghost output = { λ r. Some (word_refusal r) };

    fn fmt<W: fmt::Write>(&self, f: &mut Formatter<W>) -> fmt::Result {
        write_word_refusal(f, *self)
    }
}

/// A word of the command line, and its fault, of which a lower crate tells.
#[derive(Clone, Copy)]
pub(crate) struct RefusedWord<'a, F> {
    pub word: &'a str,
    pub fault: F,
}

impl<F: Display> Display for RefusedWord<'_, F> {
    ghost output = { λ r. option_map (λ told. codes "plc: " ++ shown r.word.now ++ codes ": " ++ told) (F.output r.fault) };

    fn fmt<W: fmt::Write>(&self, f: &mut Formatter<W>) -> fmt::Result {
        let (word, fault) = (Shown(self.word), &self.fault);
        write!(f, "plc: {word}: {fault}")
    }
}
