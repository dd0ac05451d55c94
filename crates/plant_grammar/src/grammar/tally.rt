ghost use Rattle.std.specs.Prelude.{◌≡◌, ◌<◌, ◌≤◌, OnOk, IfErr};
ghost use Rattle.plant_grammar.specs.WordFaults.{IsGrammarFault};
ghost use Rattle.plant_grammar.specs.declared.grammar_fault.GrammarFaultKind.TheVariants.{TooMany};

use crate::grammar_fault::{GrammarFault, GrammarFaultKind};
use std::marker::Model;

/// How many program instances a plant may have.
const MOST_INSTANCES: usize = 64;

/// How many binds a plant may have.
const MOST_BINDS: usize = 4096;

/// How many program instances and binds a plant has so far.
#[derive(Drop)]
pub struct Tally {
    instances: usize,
    binds: usize,
}

impl Model for Tally {
    ghost use Rattle.std.specs.Prelude.{◌≤◌};
    ghost use Rattle.plant_grammar.specs.Steps.ReadParts.{TallyValue};

    ghost Value = { TallyValue };

    ghost view = { λ t. record { instances = t.instances; binds = t.binds } };

    ghost invariant = { λ t. (t.instances ≤ 64) × (t.binds ≤ 4096) };
}

impl Tally {
    ghost use Rattle.plant_grammar.specs.Steps.ReadParts.{with_instance, with_binds};

    /// None yet.
    pub fn new() -> Tally
        ensures { result ≡ record { instances = 0; binds = 0 } }
    {
        Tally {
            instances: 0,
            binds: 0,
        }
    }

    /// How many program instances there are, 64 at most.
    pub fn instances(&self) -> usize
        ensures count { result ≡ self.now.instances }
        ensures few { self.now.instances ≤ 64 }
    {
        self.instances
    }

    /// How many binds there are, 4,096 at most.
    pub fn binds(&self) -> usize
        ensures count { result ≡ self.now.binds }
        ensures few { self.now.binds ≤ 4096 }
    {
        self.binds
    }

    /// Counts a program instance whose name is on a line, if there may be one more.
    pub fn add_instance(&mut self, line: u64) -> Result<(), GrammarFault>
        ensures ok { OnOk result (self.new ≡ with_instance self.old) }
        ensures few { OnOk result (self.old.instances < 64) }
        ensures err { IfErr result (λ e. (e.kind ≡ TooMany) × (self.new ≡ self.old) × (self.old.instances ≡ 64)) }
        ensures line { IfErr result (λ e. e.line ≡ line) }
        ensures value { IfErr result IsGrammarFault }
    {
        if self.instances >= MOST_INSTANCES {
            return Err(GrammarFault::at(GrammarFaultKind::TooMany, line));
        }
        self.instances += 1;
        Ok(())
    }

    /// Counts a bind whose input is on a line, if there may be one more.
    pub fn add_bind(&mut self, line: u64) -> Result<(), GrammarFault>
        ensures ok { OnOk result (self.new ≡ with_binds self.old 1) }
        ensures few { OnOk result (self.old.binds < 4096) }
        ensures err { IfErr result (λ e. (e.kind ≡ TooMany) × (self.new ≡ self.old) × (self.old.binds ≡ 4096)) }
        ensures line { IfErr result (λ e. e.line ≡ line) }
        ensures value { IfErr result IsGrammarFault }
    {
        if self.binds >= MOST_BINDS {
            return Err(GrammarFault::at(GrammarFaultKind::TooMany, line));
        }
        self.binds += 1;
        Ok(())
    }
}
