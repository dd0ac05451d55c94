//! The rules of the grammar for a program instance and what it binds.

ghost use Rattle.std.specs.Prelude.{◌≡◌, ◌≢◌, ℕ, List, Some, None, [], ◌∷◌, ◌++◌, ◌+◌, ◌<◌, ◌≤◌, Option, IfOk, OnOk, OnErr, Any, All, map, length, IsTrue, IfErr};
ghost use Rattle.plant_grammar.specs.WordFaults.{IsGrammarFault};
ghost use Rattle.std.specs.List.{find, flat_map};
ghost use Rattle.plant_text.specs.declared.token.Token.{Token};
ghost use Rattle.plant_text.specs.declared.token.Token.TheVariants as token;
ghost use Rattle.words.specs.declared.address.Address.{Address};
ghost use Rattle.plant_grammar.specs.declared.grammar.tree.Program.{Program as ProgramTree};
ghost use Rattle.plant_grammar.specs.declared.grammar.tree.Bind.{Bind};
ghost use Rattle.plant_grammar.specs.declared.grammar.tree.Use.{Use};
ghost use Rattle.plant_grammar.specs.declared.grammar.tree.SourceName.{SourceName};
ghost use Rattle.plant_grammar.specs.declared.grammar.tree.SourceName.TheVariants as source;
ghost use Rattle.plant_grammar.specs.declared.grammar_fault.GrammarFaultKind.TheVariants.{Memory, Syntax};
ghost use Rattle.plant_text.specs.declared.token.Keyword.TheVariants as key;
ghost use Rattle.plant_text.specs.declared.token.Punctuation.TheVariants as mark;
ghost use Rattle.plant_grammar.specs.Grammar.{key_word, mark_word, source_words, bind_words, binds_words, binds_listed, use_words};
ghost use Rattle.plant_grammar.specs.Names.{is_named, AreNamesApart};
ghost use Rattle.plant_grammar.specs.Lawful.{variables, task_of, use_of, IsUseLawful};
ghost use Rattle.plant_grammar.specs.SourceLines.{IsUseOn};
ghost use Rattle.plant_grammar.specs.Steps.Lines.{HasLinesOf, KeepsLines, IsNotNext, IsNoneNext};
ghost use Rattle.plant_grammar.specs.Steps.NamesRead.{TellsOfName, IsUnknown, IsAfter, RefusesOneBind, RefusesBind, IsNew};
ghost use Rattle.plant_grammar.specs.Steps.Declaring.{TellsOfInstance, TellsOfMissing, TellsOfInput, TellsOfAddress, BeginRefused, IsAtNext, RefusesFurtherInstance, RefusesInParentheses};
ghost use Rattle.plant_grammar.specs.Steps.ReadParts.{types_alone, with_instance, with_binds, tally_with, EndWithBinds, bound_in, KeepsLinesOf, AreKeptLines};
ghost use Rattle.plant_grammar.specs.Steps.Expected.{Key, Mark, AName, ASource, MayHaveBinds, FirstBind, bind_rest, instance_rest, GetsStuck};
ghost use Rattle.plant_grammar.specs.NameFaults.{judged_bind, judged_binds, judged_use};
ghost use Rattle.plant_grammar.specs.JudgedWords.{judged_source};
ghost use Rattle.plant_grammar.specs.Steps.SoundWords.{Fits, BeginsSound, BeginWords, BeginsOutput, IsNothing, ListedFit, judged_in_parentheses};
ghost use Rattle.plant_grammar.specs.Steps.Reading.{programs_of};
ghost use Rattle.plant_grammar.specs.Steps.Refusing.{HasRoomFor, AreTypesApart};
ghost use Rattle.plant_grammar.specs.Kinds.{input_kind_of, HasFieldKind, IsOfInputKind};
ghost use Rattle.declared_names.specs.Kinds.{kind_of_space};
ghost use Rattle.lists.specs.Items.{items_or_none};
ghost use Rattle.declared_names.specs.declared.declarations.Kind.{Kind};

use crate::grammar::known_names::{
    check_new, input_kind, is_bound, is_instance, is_task, program_named,
};
use crate::grammar::name::Name;
use crate::grammar::program_text::ProgramText;
use crate::grammar::reader::Reader;
use crate::grammar::tally::Tally;
use crate::grammar::tree::{Bind, Item, SourceLines, SourceName, Use};
use crate::grammar_fault::{GrammarFault, GrammarFaultKind};
use declared_names::{Kind, kind_of_space};
use plant_text::{Keyword, Punctuation};
use std::alloc::Global;
use words::Address;

impl<'a> Reader<'a> {
    /// A field address of a kind.
    #[tactic(auto, using(crate::proofs::RefusedNames::no_name))]
    fn address_of(&mut self, kind: Kind) -> Result<Address, GrammarFault>
        ensures ok { IfOk result (λ a. self.old.words ≡ token.Address a ∷ self.new.words) }
        ensures left { OnOk result (KeepsLines self.old self.new) }
        ensures kind { IfOk result (λ a. kind_of_space a.space ≡ kind) }
        ensures other { OnErr result ((a : Address) (rest : List Token) → self.old.words ≡ token.Address a ∷ rest → kind_of_space a.space ≡ kind → ⊥) }
        ensures tells { IfErr result (TellsOfAddress kind self.old.words) }
        ensures line { IfErr result (IsAtNext self.old) }
        ensures syntax { IfErr result (λ e. e.kind ≡ Syntax → IsNoneNext token.Address self.old.words) }
        ensures value { IfErr result IsGrammarFault }
    {
        let other = GrammarFault::at(GrammarFaultKind::WrongKind, self.line());
        let address = self.address()?;
        if kind_of_space(address.space) == kind {
            Ok(address)
        } else {
            Err(other)
        }
    }

    /// An output of an instance of a resource.
    fn output(&mut self, alloc: Global) -> Result<SourceName, GrammarFault>
        ensures ok { IfOk result (λ s. self.old.words ≡ source_words s ++ self.new.words) }
        ensures left { OnOk result (KeepsLines self.old self.new) }
        ensures kind { (kind : Kind) → IfOk result (HasFieldKind kind) }
        ensures other { IfErr result (λ e. e.kind ≢ Memory → (r i o : List ℕ) (rest : List Token) → self.old.words ≡ source_words (source.Output r i o) ++ rest → ⊥) }
        ensures tells { IfErr result (λ e. TellsOfName e.kind ⊥ ⊥) }
        ensures stuck { IfErr result (GetsStuck BeginsOutput (AName ∷ Mark mark.Dot ∷ AName ∷ Mark mark.Dot ∷ AName ∷ []) self.old) }
        ensures value { IfErr result IsGrammarFault }
    {
        let resource = self.name(alloc)?;
        self.punctuation(Punctuation::Dot)?;
        let instance = self.name(alloc)?;
        self.punctuation(Punctuation::Dot)?;
        let output = self.name(alloc)?;
        Ok(SourceName::Output {
            resource,
            instance,
            output,
        })
    }

    /// The source of an input of a kind.
    #[tactic(auto, using(crate::proofs::RefusedNames::no_name))]
    fn source(&mut self, alloc: Global, kind: Kind) -> Result<SourceName, GrammarFault>
        ensures ok { IfOk result (λ s. self.old.words ≡ source_words s ++ self.new.words) }
        ensures left { OnOk result (KeepsLines self.old self.new) }
        ensures kind { IfOk result (HasFieldKind kind) }
        ensures other { IfErr result (λ e. e.kind ≢ Memory → (s : SourceName) (rest : List Token) → self.old.words ≡ source_words s ++ rest → HasFieldKind kind s → ⊥) }
        ensures tells { IfErr result (TellsOfAddress kind self.old.words) }
        ensures line { IfErr result (IsAtNext self.old) }
        ensures stuck { IfErr result (GetsStuck (BeginsSound (judged_source (Some kind)) (λ s. Unit {0})) (ASource ∷ []) self.old) }
        ensures value { IfErr result IsGrammarFault }
    {
        if self.sees_address() {
            Ok(SourceName::Field(self.address_of(kind)?))
        } else {
            self.output(alloc)
        }
    }

    /// The input of a bind of an instance of a type, behind these, and the kind that its source has.
    #[tactic(auto, using(crate::proofs::RefusedNames::no_name))]
    fn bound_input(
        &mut self,
        alloc: Global,
        program: &ProgramText,
        before: &[Bind],
        tally: &mut Tally,
    ) -> Result<(Name, Kind), GrammarFault>
        ensures ok { IfOk result (λ i. self.old.words ≡ token.Name i.0 ∷ self.new.words) }
        ensures left { OnOk result (KeepsLines self.old self.new) }
        ensures new { IfOk result (λ i. IsNew (λ b. b.input) before.now i.0) }
        ensures kind { IfOk result (λ i. input_kind_of (variables program.now.program) i.0 ≡ Some i.1) }
        ensures tally { OnOk result (tally.new ≡ with_binds tally.old 1) }
        ensures few { OnOk result (tally.old.binds < 4096) }
        ensures other { IfErr result (λ e. e.kind ≢ Memory → (name : List ℕ) (k : Kind) (rest : List Token) → self.old.words ≡ token.Name name ∷ rest → input_kind_of (variables program.now.program) name ≡ Some k → IsNew (λ b. b.input) before.now name → tally.old.binds < 4096 → ⊥) }
        ensures tells { IfErr result (TellsOfInput tally.old.binds (variables program.now.program) before.now self.old.words) }
        ensures line { IfErr result (IsAtNext self.old) }
        ensures stuck { IfErr result (GetsStuck IsNothing (AName ∷ []) self.old) }
        ensures value { IfErr result IsGrammarFault }
    {
        let line = self.line();
        let input = self.name(alloc)?;
        let Some(kind) = input_kind(program, &input) else {
            return Err(GrammarFault::at(GrammarFaultKind::UnknownName, line));
        };
        if is_bound(before, &input) {
            return Err(GrammarFault::at(GrammarFaultKind::InputBoundTwice, line));
        }
        tally.add_bind(line)?;
        Ok((input, kind))
    }

    /// A bind of an instance of a type, behind these. The lines of its source are added to `lines`.
    #[tactic(auto, using(crate::proofs::RefusedNames::no_name, crate::proofs::RefusedNames::memory_no_name, crate::proofs::UnexpectedWords::memory_no_syntax), unfolding(crate::specs::Grammar::bind_words))]
    fn bind(
        &mut self,
        alloc: Global,
        program: &ProgramText,
        before: &[Bind],
        tally: &mut Tally,
        lines: &mut Vec<SourceLines>,
    ) -> Result<Bind, GrammarFault>
        ensures ok { IfOk result (λ b. self.old.words ≡ bind_words b ++ self.new.words) }
        ensures left { OnOk result (KeepsLines self.old self.new) }
        ensures new { IfOk result (λ b. IsNew (λ b. b.input) before.now b.input) }
        ensures kind { IfOk result (IsOfInputKind (variables program.now.program)) }
        ensures lined { IfOk result (λ b. KeepsLinesOf self.old b.source self.new.words lines.old.items lines.new.items) }
        ensures tally { OnOk result (tally.new ≡ with_binds tally.old 1) }
        ensures other { IfErr result (λ e. e.kind ≢ Memory → (b : Bind) (rest : List Token) → self.old.words ≡ bind_words b ++ rest → IsOfInputKind (variables program.now.program) b → IsNew (λ b. b.input) before.now b.input → tally.old.binds < 4096 → ⊥) }
        ensures names { IfErr result (BeginRefused (RefusesOneBind tally.old.binds (variables program.now.program) before.now) self.old) }
        ensures stuck { IfErr result (GetsStuck (BeginsSound (judged_bind (variables program.now.program) tally.old.binds before.now) (λ b. Unit {0})) (AName ∷ bind_rest) self.old) }
        ensures value { IfErr result IsGrammarFault }
    {
        let (input, kind) = self.bound_input(alloc, program, before, tally)?;
        self.punctuation(Punctuation::Assign)?;
        let parts = self.source_lines();
        let source = self.source(alloc, kind)?;
        lines.push(parts)?;
        Ok(Bind { input, source })
    }

    /// The binds of an instance of a type, up to the parenthesis that closes them. The lines of their sources are left in `lines`.
    #[tactic(auto, using(crate::proofs::RefusedNames::no_name, crate::proofs::RefusedNames::memory_no_name, crate::proofs::UnexpectedWords::memory_no_syntax))]
    fn binds(
        &mut self,
        alloc: Global,
        program: &ProgramText,
        tally: &mut Tally,
        lines: &mut Vec<SourceLines>,
    ) -> Result<Vec<Bind>, GrammarFault>
        requires { lines.old.items ≡ [] }
        ensures ok { IfOk result (λ binds. EndWithBinds binds.items self.old.words self.new.words) }
        ensures left { OnOk result (KeepsLines self.old self.new) }
        ensures apart { IfOk result (λ binds. AreNamesApart (map (λ b. b.input) binds.items)) }
        ensures kinds { IfOk result (λ binds. All (IsOfInputKind (variables program.now.program)) binds.items) }
        ensures lined { IfOk result (λ binds. AreKeptLines self.old binds.items (mark_word mark.Close ∷ self.new.words) lines.new.items) }
        ensures tally { IfOk result (λ binds. tally.new ≡ with_binds tally.old (length binds.items)) }
        ensures other { IfErr result (λ e. e.kind ≢ Memory → (bs : List Bind) (rest : List Token) → EndWithBinds bs self.old.words rest → AreNamesApart (map (λ b. b.input) bs) → All (IsOfInputKind (variables program.now.program)) bs → tally.old.binds + length bs ≤ 4096 → ⊥) }
        ensures names { IfErr result (BeginRefused (λ k. RefusesBind k tally.old.binds (variables program.now.program)) self.old) }
        ensures stuck { IfErr result (GetsStuck (BeginsSound (judged_in_parentheses (variables program.now.program) tally.old.binds) Fits) (FirstBind ∷ []) self.old) }
        ensures value { IfErr result IsGrammarFault }
    {
        let mut binds = Vec::new(alloc);
        // The getter hands out that the plant has at most 4,096 binds so far.
        let _bound = tally.binds();
        if !self.sees_punctuation(Punctuation::Close) {
            binds.push(self.bind(alloc, program, &binds, tally, lines)?)?;
            'binds: while self.sees_punctuation(Punctuation::Comma) {
                // So it does with those of this instance.
                let _bound = tally.binds();
                self.punctuation(Punctuation::Comma)?;
                binds.push(self.bind(alloc, program, &binds, tally, lines)?)?;
            }
        }
        // And with all of them.
        let _all = tally.binds();
        self.punctuation(Punctuation::Close)?;
        Ok(binds)
    }

    /// The binds of an instance of a type. There may be no parentheses. The lines of their sources are left in `lines`.
    #[tactic(auto, using(crate::proofs::RefusedNames::no_name, crate::proofs::RefusedNames::memory_no_name))]
    fn some_binds(
        &mut self,
        alloc: Global,
        program: &ProgramText,
        tally: &mut Tally,
        lines: &mut Vec<SourceLines>,
    ) -> Result<Option<Vec<Bind>>, GrammarFault>
        requires { lines.old.items ≡ [] }
        ensures ok { IfOk result (λ binds. self.old.words ≡ binds_words (binds_listed binds) ++ self.new.words) }
        ensures left { OnOk result (KeepsLines self.old self.new) }
        ensures whole { IfOk result (λ binds. binds_listed binds ≡ None → IsNotNext (mark_word mark.Open) self.new.words) }
        ensures apart { IfOk result (λ binds. AreNamesApart (map (λ b. b.input) (bound_in binds))) }
        ensures kinds { IfOk result (λ binds. All (IsOfInputKind (variables program.now.program)) (bound_in binds)) }
        ensures lined { IfOk result (λ binds. AreKeptLines self.old (bound_in binds) (mark_word mark.Close ∷ self.new.words) lines.new.items) }
        ensures tally { IfOk result (λ binds. tally.new ≡ with_binds tally.old (length (bound_in binds))) }
        ensures other { IfErr result (λ e. e.kind ≢ Memory → (bs : Option (List Bind)) (rest : List Token) → self.old.words ≡ binds_words bs ++ mark_word mark.Semicolon ∷ rest → AreNamesApart (map (λ b. b.input) (items_or_none bs)) → All (IsOfInputKind (variables program.now.program)) (items_or_none bs) → tally.old.binds + length (items_or_none bs) ≤ 4096 → ⊥) }
        ensures only { OnOk result ((bs : Option (List Bind)) (rest : List Token) → self.old.words ≡ binds_words bs ++ mark_word mark.Semicolon ∷ rest → self.new.words ≡ mark_word mark.Semicolon ∷ rest) }
        ensures names { IfErr result (BeginRefused (RefusesInParentheses tally.old.binds (variables program.now.program)) self.old) }
        ensures stuck { IfErr result (GetsStuck (BeginsSound (judged_binds (variables program.now.program) tally.old.binds) ListedFit) (MayHaveBinds ∷ []) self.old) }
        ensures value { IfErr result IsGrammarFault }
    {
        if self.sees_punctuation(Punctuation::Open) {
            self.punctuation(Punctuation::Open)?;
            Ok(Some(self.binds(alloc, program, tally, lines)?))
        } else {
            Ok(None)
        }
    }

    /// A new name of an instance, behind these lines of its resource.
    #[tactic(auto, using(crate::proofs::RefusedNames::no_name))]
    fn instance_name(
        &mut self,
        alloc: Global,
        before: &[Item],
        tally: &mut Tally,
    ) -> Result<Name, GrammarFault>
        ensures ok { IfOk result (λ name. self.old.words ≡ token.Name name ∷ self.new.words) }
        ensures left { OnOk result (KeepsLines self.old self.new) }
        ensures new { IfOk result (λ name. IsNew (λ u. u.instance) (flat_map use_of before.now) name) }
        ensures tally { OnOk result (tally.new ≡ with_instance tally.old) }
        ensures few { OnOk result (tally.old.instances < 64) }
        ensures other { IfErr result (λ e. e.kind ≢ Memory → (name : List ℕ) (rest : List Token) → self.old.words ≡ token.Name name ∷ rest → IsNew (λ u. u.instance) (flat_map use_of before.now) name → tally.old.instances < 64 → ⊥) }
        ensures tells { IfErr result (TellsOfInstance before.now tally.old.instances self.old.words) }
        ensures line { IfErr result (IsAtNext self.old) }
        ensures stuck { IfErr result (GetsStuck IsNothing (AName ∷ []) self.old) }
        ensures value { IfErr result IsGrammarFault }
    {
        let line = self.line();
        let name = self.name(alloc)?;
        check_new(line, is_instance(before, &name), false)?;
        tally.add_instance(line)?;
        Ok(name)
    }

    /// The name of a task of these lines.
    #[tactic(auto, using(crate::proofs::RefusedNames::no_name))]
    fn known_task(&mut self, alloc: Global, before: &[Item]) -> Result<Name, GrammarFault>
        ensures ok { IfOk result (λ name. self.old.words ≡ token.Name name ∷ self.new.words) }
        ensures left { OnOk result (KeepsLines self.old self.new) }
        ensures known { IfOk result (λ name. Any (λ t. IsTrue (is_named name t.name)) (flat_map task_of before.now)) }
        ensures other { IfErr result (λ e. e.kind ≢ Memory → (name : List ℕ) (rest : List Token) → self.old.words ≡ token.Name name ∷ rest → Any (λ t. IsTrue (is_named name t.name)) (flat_map task_of before.now) → ⊥) }
        ensures tells { IfErr result (TellsOfMissing (λ t. t.name) (flat_map task_of before.now) self.old.words) }
        ensures line { IfErr result (IsAtNext self.old) }
        ensures stuck { IfErr result (GetsStuck IsNothing (AName ∷ []) self.old) }
        ensures value { IfErr result IsGrammarFault }
    {
        let line = self.line();
        let name = self.name(alloc)?;
        if is_task(before, &name) {
            Ok(name)
        } else {
            Err(GrammarFault::at(GrammarFaultKind::UnknownName, line))
        }
    }

    /// PROGRAM and the new name of an instance, behind these lines of its resource.
    #[tactic(auto, using(crate::proofs::RefusedNames::no_name))]
    fn instance_start(
        &mut self,
        alloc: Global,
        before: &[Item],
        tally: &mut Tally,
    ) -> Result<Name, GrammarFault>
        ensures ok { IfOk result (λ name. self.old.words ≡ key_word key.Program ∷ token.Name name ∷ self.new.words) }
        ensures left { OnOk result (KeepsLines self.old self.new) }
        ensures new { IfOk result (λ name. IsNew (λ u. u.instance) (flat_map use_of before.now) name) }
        ensures tally { OnOk result (tally.new ≡ with_instance tally.old) }
        ensures few { OnOk result (tally.old.instances < 64) }
        ensures other { IfErr result (λ e. e.kind ≢ Memory → (name : List ℕ) (rest : List Token) → self.old.words ≡ key_word key.Program ∷ token.Name name ∷ rest → IsNew (λ u. u.instance) (flat_map use_of before.now) name → tally.old.instances < 64 → ⊥) }
        ensures names { (programs : List ProgramTree) → IfErr result (BeginRefused (RefusesFurtherInstance tally.old programs before.now) self.old) }
        ensures stuck { IfErr result (GetsStuck (BeginWords (key_word key.Program ∷ [])) (Key key.Program ∷ AName ∷ []) self.old) }
        ensures value { IfErr result IsGrammarFault }
    {
        self.keyword(Keyword::Program)?;
        self.instance_name(alloc, before, tally)
    }

    /// WITH and the name of a task of these lines.
    #[tactic(auto, using(crate::proofs::RefusedNames::no_name))]
    fn task_of_instance(&mut self, alloc: Global, before: &[Item]) -> Result<Name, GrammarFault>
        ensures ok { IfOk result (λ name. self.old.words ≡ key_word key.With ∷ token.Name name ∷ self.new.words) }
        ensures left { OnOk result (KeepsLines self.old self.new) }
        ensures known { IfOk result (λ name. Any (λ t. IsTrue (is_named name t.name)) (flat_map task_of before.now)) }
        ensures other { IfErr result (λ e. e.kind ≢ Memory → (name : List ℕ) (rest : List Token) → self.old.words ≡ key_word key.With ∷ token.Name name ∷ rest → Any (λ t. IsTrue (is_named name t.name)) (flat_map task_of before.now) → ⊥) }
        ensures names { IfErr result (BeginRefused (λ k. IsAfter (key_word key.With) (IsUnknown k (λ t. t.name) (flat_map task_of before.now))) self.old) }
        ensures stuck { IfErr result (GetsStuck (BeginWords (key_word key.With ∷ [])) (Key key.With ∷ AName ∷ []) self.old) }
        ensures value { IfErr result IsGrammarFault }
    {
        self.keyword(Keyword::With)?;
        self.known_task(alloc, before)
    }

    /// The type of an instance behind its colon, by its name, and the program of that name.
    #[tactic(auto, using(crate::proofs::RefusedNames::no_name))]
    fn type_of_instance<'t>(
        &mut self,
        alloc: Global,
        types: &'t [ProgramText],
    ) -> Result<(Name, &'t ProgramText), GrammarFault>
        ensures ok { IfOk result (λ p. self.old.words ≡ mark_word mark.Colon ∷ token.Name p.0 ∷ self.new.words) }
        ensures left { OnOk result (KeepsLines self.old self.new) }
        ensures found { IfOk result (λ p. find (λ t. is_named p.0 t.program.name) types.now ≡ Some p.1.now) }
        ensures other { IfErr result (λ e. e.kind ≢ Memory → (name : List ℕ) (rest : List Token) → self.old.words ≡ mark_word mark.Colon ∷ token.Name name ∷ rest → find (λ t. is_named name t.program.name) types.now ≢ None → ⊥) }
        ensures names { IfErr result (BeginRefused (λ k. IsAfter (mark_word mark.Colon) (IsUnknown k (λ p. p.name) (programs_of types.now))) self.old) }
        ensures stuck { IfErr result (GetsStuck (BeginWords (mark_word mark.Colon ∷ [])) (Mark mark.Colon ∷ AName ∷ []) self.old) }
        ensures value { IfErr result IsGrammarFault }
    {
        self.punctuation(Punctuation::Colon)?;
        let line = self.line();
        let name = self.name(alloc)?;
        match program_named(types, &name) {
            Some(program) => Ok((name, program)),
            None => Err(GrammarFault::at(GrammarFaultKind::UnknownName, line)),
        }
    }

    /// A program instance, behind these lines of its resource.
    #[tactic(auto, using(crate::proofs::RefusedNames::no_name, crate::proofs::RefusedNames::memory_no_name), unfolding(crate::specs::Grammar::use_words))]
    pub(crate) fn instance(
        &mut self,
        alloc: Global,
        types: &[ProgramText],
        before: &[Item],
        tally: &mut Tally,
    ) -> Result<Use, GrammarFault>
        ensures ok { IfOk result (λ u. self.old.words ≡ use_words u ++ self.new.words) }
        ensures left { OnOk result (KeepsLines self.old self.new) }
        ensures new { IfOk result (λ u. IsNew (λ u. u.instance) (flat_map use_of before.now) u.instance) }
        ensures lawful { IfOk result (λ u. IsUseLawful (types_alone types.now) before.now u) }
        ensures lined { IfOk result (λ u. (all : List ℕ) → HasLinesOf all self.old → IsUseOn all u self.new.words) }
        ensures tally { IfOk result (λ u. tally.new ≡ tally_with tally.old (u ∷ [])) }
        ensures other { IfErr result (λ e. e.kind ≢ Memory → (u : Use) (rest : List Token) → self.old.words ≡ use_words u ++ rest → AreTypesApart types.now → IsNew (λ u. u.instance) (flat_map use_of before.now) u.instance → IsUseLawful (types_alone types.now) before.now u → HasRoomFor tally.old (u ∷ []) → ⊥) }
        ensures names { IfErr result (BeginRefused (RefusesFurtherInstance tally.old (programs_of types.now) before.now) self.old) }
        ensures stuck { IfErr result (GetsStuck (BeginsSound (judged_use (programs_of types.now) tally.old.instances tally.old.binds before.now) (λ u. Unit {0})) (Key key.Program ∷ instance_rest) self.old) }
        ensures value { IfErr result IsGrammarFault }
    {
        let instance = self.instance_start(alloc, before, tally)?;
        let task = self.task_of_instance(alloc, before)?;
        let (program, text) = self.type_of_instance(alloc, types)?;
        let mut lines = Vec::new(alloc);
        let binds = self.some_binds(alloc, text, tally, &mut lines)?;
        // The getter hands out that the plant has at most 4,096 binds so far.
        let _bound = tally.binds();
        self.punctuation(Punctuation::Semicolon)?;
        Ok(Use {
            instance,
            task,
            program,
            binds,
            lines,
        })
    }
}
