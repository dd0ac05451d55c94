use crate::mention::{Mention, Thing};
use std::alloc::{AllocError, Global};
use words::is_plain_name;

/// Words inside boxes and symbols that are no names of variables.
const PINS: [&str; 17] = [
    "S1", "S", "R", "R1", "Q1", "CU", "CD", "LD", "PV", "Q", "QU", "QD", "CV", "IN", "PT", "ET",
    "P",
];

fn is_same(name: &[u8], other: &[u8]) -> bool {
    name.eq_ignore_ascii_case(other)
}

fn is_among(name: &[u8], names: &[&[u8]]) -> bool {
    names.iter().any(|other| is_same(name, other))
}

fn is_pin(name: &[u8]) -> bool {
    is_same(name, b"N") || PINS.iter().any(|pin| is_same(name, pin.as_bytes()))
}

/// The first word of a line of a drawing that is a name, or the part of one before its dot, and isn't declared.
pub fn unknown_in_a_drawing<'a>(line: &'a [u8], declared: &[&[u8]]) -> Option<&'a [u8]> {
    for word in line.split(|sign| !(sign.is_ascii_alphanumeric()
        || *sign == b'_'
        || *sign == b'.'
        || *sign == b'#'))
    {
        let name = word.split(|sign| *sign == b'.').next().unwrap_or(word);
        if is_plain_name(name) && !is_pin(name) && !is_among(name, declared) {
            return Some(name);
        }
    }
    None
}

/// What the thing that is used belongs to: an output to the program type of its instance.
fn owner_of<'a>(mentions: &[Mention<'a>], used: &Mention<'a>) -> &'a [u8] {
    if used.thing != Thing::Output {
        return used.owner;
    }
    for mention in mentions {
        let is_instance = mention.is_declaration && mention.thing == Thing::Instance;
        if is_instance && is_same(mention.name, used.owner) && is_same(mention.owner, used.origin) {
            return mention.origin;
        }
    }
    b""
}

/// The names declared of things such as the one that is used.
fn declared_such<'a>(
    alloc: Global,
    mentions: &[Mention<'a>],
    used: &Mention<'a>,
) -> Result<Vec<&'a [u8]>, AllocError> {
    let owner = owner_of(mentions, used);
    let mut names = Vec::new(alloc);
    for mention in mentions {
        if mention.is_declaration && mention.thing == used.thing && is_same(mention.owner, owner) {
            names.push(mention.name)?;
        }
    }
    Ok(names)
}

/// The first name that is used on a line of a plant and isn't declared, with the names that could stand there.
pub fn unknown_in_a_plant<'a>(
    alloc: Global,
    mentions: &[Mention<'a>],
    line: u64,
) -> Result<Option<(&'a [u8], Vec<&'a [u8]>)>, AllocError> {
    for mention in mentions {
        if mention.line == line && !mention.is_declaration {
            let names = declared_such(alloc, mentions, mention)?;
            if !is_among(mention.name, &names) {
                return Ok(Some((mention.name, names)));
            }
        }
    }
    Ok(None)
}

/// The program type whose text a line stands in.
fn program_at<'a>(mentions: &[Mention<'a>], line: u64) -> &'a [u8] {
    let mut program: &'a [u8] = b"";
    for mention in mentions {
        if mention.thing == Thing::ProgramType && mention.is_declaration && mention.line <= line {
            program = mention.name;
        }
    }
    program
}

/// The names of variables and instances of blocks that are declared for the drawing in which a line stands.
pub fn declared_for_a_body<'a>(
    alloc: Global,
    mentions: &[Mention<'a>],
    line: u64,
) -> Result<Vec<&'a [u8]>, AllocError> {
    let program = program_at(mentions, line);
    let mut names = Vec::new(alloc);
    for mention in mentions {
        let is_variable = matches!(mention.thing, Thing::Input | Thing::Output | Thing::Local);
        if mention.is_declaration && is_variable && is_same(mention.owner, program) {
            names.push(mention.name)?;
        }
    }
    Ok(names)
}
