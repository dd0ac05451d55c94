//! The rule of the grammar for a task.

ghost use Rattle.std.specs.Prelude.{◌≡◌, ◌≢◌, ℕ, List, [], ◌∷◌, ◌++◌, ◌<◌, IfOk, OnOk, OnErr, length, IfErr};
ghost use Rattle.plant_grammar.specs.WordFaults.{IsGrammarFault};
ghost use Rattle.std.specs.List.{flat_map};
ghost use Rattle.plant_text.specs.declared.token.Token.{Token};
ghost use Rattle.plant_text.specs.declared.token.Token.TheVariants as token;
ghost use Rattle.plant_grammar.specs.declared.grammar.tree.Order.{Order};
ghost use Rattle.plant_grammar.specs.declared.grammar.tree.TaskLine.{TaskLine};
ghost use Rattle.plant_grammar.specs.declared.grammar_fault.GrammarFaultKind.TheVariants.{Memory};
ghost use Rattle.plant_text.specs.declared.token.Keyword.TheVariants as key;
ghost use Rattle.plant_grammar.specs.Grammar.{interval_words, priority_words, settings, task_words};
ghost use Rattle.plant_grammar.specs.Lawful.{task_of};
ghost use Rattle.plant_grammar.specs.Steps.Lines.{KeepsLines};
ghost use Rattle.plant_grammar.specs.Steps.NamesRead.{TellsOfName, RefusesTask, IsNew};
ghost use Rattle.plant_grammar.specs.Steps.Declaring.{TellsOfTask, BeginRefused, IsAtNext};
ghost use Rattle.plant_grammar.specs.Steps.Expected.{Key, AName, TheSettings, interval_rest, priority_rest, task_rest, GetsStuck};
ghost use Rattle.plant_grammar.specs.NameFaults.{judged_task};
ghost use Rattle.plant_grammar.specs.Steps.SoundWords.{BeginsSound, BeginsWords, BeginsSettings, IsNothing};

use crate::grammar::known_names::{check_new, count_tasks, is_task};
use crate::grammar::name::Name;
use crate::grammar::reader::Reader;
use crate::grammar::tree::{Item, Order, TaskLine};
use crate::grammar_fault::GrammarFault;
use plant_text::{Keyword, Punctuation};
use std::alloc::Global;

/// How many tasks a resource may have.
const MOST_TASKS: usize = 16;

impl<'a> Reader<'a> {
    /// A task's interval, in ms. It isn't 0.
    fn interval(&mut self) -> Result<u32, GrammarFault>
        ensures ok { IfOk result (λ n. self.old.words ≡ interval_words n ++ self.new.words) }
        ensures left { OnOk result (KeepsLines self.old self.new) }
        ensures positive { IfOk result (λ n. 0 < n) }
        ensures other { OnErr result ((n : ℕ) (rest : List Token) → self.old.words ≡ interval_words n ++ rest → 0 < n → ⊥) }
        ensures tells { IfErr result (λ e. TellsOfName e.kind ⊥ ⊥) }
        ensures stuck { IfErr result (GetsStuck (BeginsWords interval_words (λ n. 0 < n)) (Key key.Interval ∷ interval_rest) self.old) }
        ensures value { IfErr result IsGrammarFault }
    {
        self.keyword(Keyword::Interval)?;
        self.punctuation(Punctuation::Assign)?;
        let zero = self.syntax();
        let interval = self.duration()?;
        if interval == 0 {
            Err(zero)
        } else {
            Ok(interval)
        }
    }

    /// A task's priority.
    fn priority(&mut self) -> Result<u16, GrammarFault>
        ensures ok { IfOk result (λ n. self.old.words ≡ priority_words n ++ self.new.words) }
        ensures left { OnOk result (KeepsLines self.old self.new) }
        ensures other { OnErr result ((n : ℕ) (rest : List Token) → self.old.words ≡ priority_words n ++ rest → ⊥) }
        ensures tells { IfErr result (λ e. TellsOfName e.kind ⊥ ⊥) }
        ensures stuck { IfErr result (GetsStuck (BeginsWords priority_words (λ n. Unit {0})) (Key key.Priority ∷ priority_rest) self.old) }
        ensures value { IfErr result IsGrammarFault }
    {
        self.keyword(Keyword::Priority)?;
        self.punctuation(Punctuation::Assign)?;
        self.number()
    }

    /// The two settings of a task, in either order.
    fn settings(&mut self) -> Result<(Order, u32, u16), GrammarFault>
        ensures ok { IfOk result (λ s. self.old.words ≡ settings s.0 s.1 s.2 ++ self.new.words) }
        ensures left { OnOk result (KeepsLines self.old self.new) }
        ensures positive { IfOk result (λ s. 0 < s.1) }
        ensures other { OnErr result ((o : Order) (i n : ℕ) (rest : List Token) → self.old.words ≡ settings o i n ++ rest → 0 < i → ⊥) }
        ensures only { OnOk result ((o : Order) (i n : ℕ) (rest : List Token) → self.old.words ≡ settings o i n ++ rest → rest ≡ self.new.words) }
        ensures tells { IfErr result (λ e. TellsOfName e.kind ⊥ ⊥) }
        ensures stuck { IfErr result (GetsStuck BeginsSettings (TheSettings ∷ []) self.old) }
        ensures value { IfErr result IsGrammarFault }
    {
        if self.sees_keyword(Keyword::Interval) {
            let interval = self.interval()?;
            self.punctuation(Punctuation::Comma)?;
            let priority = self.priority()?;
            Ok((Order::IntervalFirst, interval, priority))
        } else {
            let priority = self.priority()?;
            self.punctuation(Punctuation::Comma)?;
            let interval = self.interval()?;
            Ok((Order::PriorityFirst, interval, priority))
        }
    }

    /// A new name of a task, behind these lines of its resource.
    #[tactic(auto, using(crate::proofs::RefusedNames::no_name))]
    fn task_name(&mut self, alloc: Global, before: &[Item]) -> Result<Name, GrammarFault>
        ensures ok { IfOk result (λ name. self.old.words ≡ token.Name name ∷ self.new.words) }
        ensures left { OnOk result (KeepsLines self.old self.new) }
        ensures new { IfOk result (λ name. IsNew (λ t. t.name) (flat_map task_of before.now) name) }
        ensures few { OnOk result (length (flat_map task_of before.now) < 16) }
        ensures other { IfErr result (λ e. e.kind ≢ Memory → (name : List ℕ) (rest : List Token) → self.old.words ≡ token.Name name ∷ rest → IsNew (λ t. t.name) (flat_map task_of before.now) name → length (flat_map task_of before.now) < 16 → ⊥) }
        ensures tells { IfErr result (TellsOfTask before.now self.old.words) }
        ensures line { IfErr result (IsAtNext self.old) }
        ensures stuck { IfErr result (GetsStuck IsNothing (AName ∷ []) self.old) }
        ensures value { IfErr result IsGrammarFault }
    {
        let line = self.line();
        let name = self.name(alloc)?;
        check_new(
            line,
            is_task(before, &name),
            count_tasks(before) >= MOST_TASKS,
        )?;
        Ok(name)
    }

    /// A task, behind these lines of its resource.
    #[tactic(auto, using(crate::proofs::RefusedNames::no_name, crate::proofs::RefusedNames::memory_no_name), unfolding(crate::specs::Grammar::task_words))]
    pub(crate) fn task(&mut self, alloc: Global, before: &[Item]) -> Result<TaskLine, GrammarFault>
        ensures ok { IfOk result (λ t. self.old.words ≡ task_words t ++ self.new.words) }
        ensures left { OnOk result (KeepsLines self.old self.new) }
        ensures new { IfOk result (λ t. IsNew (λ t. t.name) (flat_map task_of before.now) t.name) }
        ensures few { OnOk result (length (flat_map task_of before.now) < 16) }
        ensures positive { IfOk result (λ t. 0 < t.interval) }
        ensures other { IfErr result (λ e. e.kind ≢ Memory → (t : TaskLine) (rest : List Token) → self.old.words ≡ task_words t ++ rest → IsNew (λ t. t.name) (flat_map task_of before.now) t.name → length (flat_map task_of before.now) < 16 → 0 < t.interval → ⊥) }
        ensures names { IfErr result (BeginRefused (λ k. RefusesTask k before.now) self.old) }
        ensures stuck { IfErr result (GetsStuck (BeginsSound (judged_task (flat_map task_of before.now)) (λ t. 0 < t.interval)) (Key key.Task ∷ task_rest) self.old) }
        ensures value { IfErr result IsGrammarFault }
    {
        self.keyword(Keyword::Task)?;
        let name = self.task_name(alloc, before)?;
        self.punctuation(Punctuation::Open)?;
        let (order, interval, priority) = self.settings()?;
        self.punctuation(Punctuation::Close)?;
        self.punctuation(Punctuation::Semicolon)?;
        Ok(TaskLine {
            name,
            order,
            interval,
            priority,
        })
    }
}
