ghost use Rattle.std.specs.Prelude.{◌≡◌, ◌≤◌, IfOk, map, length};
ghost use Rattle.std.specs.Str.{str_to_ascii_lowercase};

use indexmap::IndexMap;
use std::alloc::{AllocError, Global};
use std::marker::Model;
use std_blocks::BlockType;
use thiserror::Error;
use words::Text;

/// The kinds of a variable.
#[derive(Clone, Copy, Debug, PartialEq, Eq)]
pub enum Kind {
    Bool,
    /// From -32,768 to 32,767.
    Int,
    /// In milliseconds.
    Time,
}

/// What a name is declared as.
#[derive(Clone, Copy, Debug, PartialEq, Eq)]
pub enum Declared {
    /// A variable that the ladder reads and never writes.
    Input(Kind),
    /// A variable that others may read.
    Output(Kind),
    /// A variable of the ladder alone.
    Local(Kind),
    /// An instance of a standard function block.
    Instance(BlockType),
}

/// A name as it was declared, and what it is.
#[derive(Debug, Drop)]
pub struct Declaration {
    pub name: Text,
    pub declared: Declared,
}

/// Why a name is not declared.
#[derive(Clone, Copy, Debug, PartialEq, Eq, Error)]
pub enum DeclareFault {
    /// The name is declared already, in either case.
    #[error("Twice")]
    Twice,
    /// There was no memory.
    #[error("Memory")]
    Memory,
}

/// The declared names in order, each once without regard to case.
#[derive(Drop)]
pub struct Declarations {
    entries: IndexMap<Vec<u8>, Declaration>,
}

impl Model for Declarations {
    ghost use Rattle.std.specs.Prelude.{List};
    ghost use Rattle.indexmap.specs.IndexMap.{values};
    ghost use Rattle.declared_names.specs.declared.declarations.Declaration.{Declaration};
    ghost use Rattle.declared_names.specs.Steps.Folded.{AreFolded};

    ghost Value = { List Declaration };

    ghost view = { λ d. values d.entries };

    ghost invariant = { λ d. AreFolded d.entries.entries };
}

/// Longer names are sought one by one. No word of a drawing is longer.
const LONGEST_WORD: usize = 240;

/// Few names are longer.
const SHORT_WORD: usize = 16;

/// The name in small letters, by which it is found.
fn key_of(alloc: Global, name: &str) -> Result<Vec<u8>, AllocError>
    ensures { IfOk result (λ key. key.items ≡ str_to_ascii_lowercase name.now) }
{
    let mut key = Vec::from_slice(alloc, name.as_bytes())?;
    key.as_mut_slice().make_ascii_lowercase();
    Ok(key)
}

/// Puts a name in small letters into as much room.
#[inline(always)]
fn put_small(name: &[u8], room: &mut [u8])
    requires { length room.old ≡ length name.now }
    ensures { room.new ≡ str_to_ascii_lowercase name.now }
{
    for i in 0..name.len() {
        room[i] = name[i].to_ascii_lowercase();
    }
}

impl Declarations {
    ghost use Rattle.std.specs.Prelude.{◌≡◌, ◌++◌, [], ◌∷◌, OnOk, OnErr, MatchOption, slice_get, slice_index_or, length, ◌<◌, ◌↔◌, IsTrue, None};
    ghost use Rattle.std.specs.Option.{option_map};
    ghost use Rattle.std.specs.Str.{str_eq_ignore_ascii_case};
    ghost use Rattle.declared_names.specs.declared.declarations.Declaration.{Declaration};
    ghost use Rattle.declared_names.specs.Names.{place_of, IsDeclared, IsDeclaredAt};

    /// No declarations.
    pub fn new(alloc: Global) -> Self
        ensures { result ≡ [] }
    {
        Declarations {
            entries: IndexMap::new(alloc),
        }
    }

    /// Declares a name at the end; the name is copied. After an error the declarations are as before.
    pub fn add(&mut self, name: &str, declared: Declared) -> Result<(), DeclareFault>
        ensures ok { OnOk result (self.new ≡ self.old ++ record { name = name.now; declared = declared } ∷ []) }
        ensures twice { IsDeclared self.old name.now → result ≡ Err DeclareFault.Twice }
        ensures only { result ≡ Err DeclareFault.Twice → IsDeclared self.old name.now }
        ensures err { OnErr result (self.new ≡ self.old) }
    {
        if self.position(name).is_some() {
            return Err(DeclareFault::Twice);
        }
        self.push(name, declared)
            .map_err(|_fault| DeclareFault::Memory)
    }

    /// How many names are declared.
    pub fn len(&self) -> usize
        ensures { result ≡ length self.now }
    {
        self.entries.len()
    }

    /// Whether no name is declared.
    pub fn is_empty(&self) -> bool
        ensures { IsTrue result ↔ (self.now ≡ []) }
    {
        self.entries.is_empty()
    }

    /// Whether both declare the same names, letter by letter, as the same things in the same order.
    pub fn same(&self, other: &Self) -> bool
        ensures { IsTrue result ↔ (self.now ≡ other.now) }
    {
        if self.len() != other.len() {
            return false;
        }
        for i in 0..self.len() {
            if !self.is_same_entry(other, i) {
                return false;
            }
        }
        true
    }

    /// Whether both have the same declaration at a position, or none.
    fn is_same_entry(&self, other: &Self, i: usize) -> bool
        ensures { IsTrue result ↔ (slice_get self.now i ≡ slice_get other.now i) }
    {
        match (self.entry(i), other.entry(i)) {
            (Some((name, declared)), Some((other, what))) => name == other && declared == what,
            (None, None) => true,
            _ => false,
        }
    }

    /// The position of a name, in either case.
    pub fn position(&self, name: &str) -> Option<usize>
        ensures { result ≡ place_of self.now name.now }
    {
        self.position_of(name.as_bytes())
    }

    /// The position of a name by its letters, in either case.
    pub fn position_of(&self, name: &[u8]) -> Option<usize>
        ensures { result ≡ place_of self.now name.now }
    {
        if name.len() <= SHORT_WORD {
            self.look_up(name, &mut [0; SHORT_WORD])
        } else if name.len() <= LONGEST_WORD {
            self.look_up(name, &mut [0; LONGEST_WORD])
        } else {
            self.search(name)
        }
    }

    /// The name as it was declared and what it is, by its position from 0.
    pub fn entry(&self, i: usize) -> Option<(&str, Declared)>
        ensures { MatchOption result (slice_get self.now i ≡ None) (λ e. IsDeclaredAt self.now i e.0.now e.1) }
    {
        match self.entries.get_index(i) {
            Some((_, entry)) => Some((entry.name.as_str(), entry.declared)),
            None => None,
        }
    }

    /// What is declared at a position from 0.
    pub fn declared_at(&self, i: usize) -> Option<Declared>
        ensures { result ≡ option_map (λ (d : Declaration). d.declared) (slice_get self.now i) }
    {
        let (_, declaration) = self.entries.get_index(i)?;
        Some(declaration.declared)
    }

    /// Declares a new name at the end.
    pub fn push(&mut self, name: &str, declared: Declared) -> Result<(), AllocError>
        requires { place_of self.old name.now ≡ None }
        ensures ok { OnOk result (self.new ≡ self.old ++ record { name = name.now; declared = declared } ∷ []) }
        ensures err { OnErr result (self.new ≡ self.old) }
    {
        let alloc = *self.entries.allocator();
        let key = key_of(alloc, name)?;
        let name = Text::new(alloc, name)?;
        self.entries.insert(key, Declaration { name, declared })?;
        Ok(())
    }

    /// The position of a name, for which there is this room to put it in small letters.
    fn look_up(&self, name: &[u8], room: &mut [u8]) -> Option<usize>
        requires { length name.now ≤ length room.old }
        ensures { result ≡ place_of self.now name.now }
    {
        let key = &mut room[..name.len()];
        put_small(name, key);
        self.entries.get_index_of(&*key)
    }

    /// The position of a name, sought one by one.
    fn search(&self, name: &[u8]) -> Option<usize>
        ensures { result ≡ place_of self.now name.now }
    {
        for i in 0..self.len() {
            if self.is_named(i, name) {
                return Some(i);
            }
        }
        None
    }

    /// Whether the declaration at a position has the name.
    fn is_named(&self, i: usize, name: &[u8]) -> bool
        requires { i < length self.now }
        ensures { (d : Declaration) → result ≡ str_eq_ignore_ascii_case (slice_index_or self.now i d).name name.now }
    {
        match self.entry(i) {
            Some((entry, _)) => entry.as_bytes().eq_ignore_ascii_case(name),
            None => false,
        }
    }
}
