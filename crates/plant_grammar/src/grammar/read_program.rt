//! The rules of the grammar from names to programs.

ghost use Rattle.std.specs.Prelude.{◌≡◌, ◌≢◌, ℕ, List, [], ◌∷◌, ◌++◌, ◌+◌, ◌<◌, IfOk, OnOk, OnErr, IsTrue, IsFalse, All, length, IfErr};
ghost use Rattle.plant_grammar.specs.WordFaults.{IsGrammarFault};
ghost use Rattle.std.specs.List.{flat_map};
ghost use Rattle.plant_text.specs.declared.token.Token.{Token};
ghost use Rattle.plant_text.specs.declared.token.Token.TheVariants as token;
ghost use Rattle.declared_names.specs.Names.{IsDeclared};
ghost use Rattle.plant_grammar.specs.declared.grammar.tree.Section.{Section};
ghost use Rattle.plant_grammar.specs.declared.grammar.tree.TypeName.{TypeName};
ghost use Rattle.plant_grammar.specs.declared.grammar.tree.NameList.{NameList};
ghost use Rattle.plant_grammar.specs.declared.grammar.tree.VarBlock.{VarBlock};
ghost use Rattle.plant_grammar.specs.declared.grammar.tree.Program.{Program};
ghost use Rattle.plant_grammar.specs.declared.grammar_fault.GrammarFaultKind.TheVariants.{Memory, Syntax};
ghost use Rattle.plant_text.specs.declared.token.Keyword.TheVariants as key;
ghost use Rattle.plant_text.specs.declared.token.Punctuation.TheVariants.{Colon, Semicolon, Comma};
ghost use Rattle.plant_grammar.specs.Grammar.{key_word, mark_word, section_words, kind_word, type_word, name_words, list_words, lists_words, block_words, program_words};
ghost use Rattle.plant_grammar.specs.Lawful.{list_variables, lists_variables, block_variables, IsTypeLawful, IsListLawful, IsBlockLawful, IsProgramLawful, AreProgramsDeclared, MayBeDeclared, AreVariables};
ghost use Rattle.plant_grammar.specs.Steps.NamesRead.{IsOfName, TellsOfName, RefusesVariable, RefusesOneList, RefusesList, RefusesBlock, RefusesBlocks, RefusesProgram, IsNew};
ghost use Rattle.plant_grammar.specs.Steps.Declaring.{TellsOfType, TellsOfVariable, TellsOfBlock, BeginRefused, BeginRefusedBehind, IsAtNext, RefusesFurtherProgram};
ghost use Rattle.plant_grammar.specs.Steps.Lines.{next_line, syntax_at, KeepsLines, IsNotNext, IsOneNext, IsNoneNext};
ghost use Rattle.plant_grammar.specs.Steps.ReadParts.{section_start, IsSectionWhole};
ghost use Rattle.plant_grammar.specs.Steps.Expected.{Key, AName, ABody, AType, ASection, MorePrograms, MoreBlocks, MoreLists, MoreNames, program_rest, list_rest, GetsStuck};
ghost use Rattle.plant_grammar.specs.NameFaults.{judged_list, judged_block, judged_program, judged_of};
ghost use Rattle.plant_grammar.specs.WellFormed.{HasNames, IsBlockWellFormed, IsProgramWellFormed, IsTreeWellFormed};
ghost use Rattle.plant_grammar.specs.Steps.SoundWords.{BeginsSound, BeginsWords, IsNothing, end_words, judged_names, AreNamesFormed, judged_lists, AreListsFormed, judged_blocks, AreBlocksFormed};
ghost use Rattle.plant_grammar.specs.Steps.Reading.{programs_of, all_words, AreAllPrograms, AreSameWords, AreSameLines, BeginWithWordsOf, BeginWithLinesOf};

use crate::grammar::known_names::{check_new, is_program};
use crate::grammar::name::Name;
use crate::grammar::program_text::ProgramText;
use crate::grammar::reader::Reader;
use crate::grammar::tree::{NameList, Program, Section, TypeName, VarBlock};
use crate::grammar::variables::Variables;
use crate::grammar_fault::{GrammarFault, GrammarFaultKind};
use declared_names::Kind;
use plant_text::{Keyword, Punctuation};
use std::alloc::Global;
use words::Text;

/// How many program types a plant may have.
const MOST_TYPES: usize = 64;

impl<'a> Reader<'a> {
    /// A further name of a program, behind the variables and the names of the same list.
    #[tactic(auto, using(crate::proofs::RefusedNames::no_name))]
    fn variable(
        &mut self,
        alloc: Global,
        variables: &Variables,
        before: &[Name],
    ) -> Result<Name, GrammarFault>
        ensures ok { IfOk result (λ name. self.old.words ≡ token.Name name ∷ self.new.words) }
        ensures left { OnOk result (KeepsLines self.old self.new) }
        ensures bodies { OnOk result (self.new.bodies ≡ self.old.bodies) }
        ensures other { IfErr result (λ e. e.kind ≢ Memory → (name : List ℕ) (rest : List Token) → self.old.words ≡ token.Name name ∷ rest → (IsDeclared variables.now name → ⊥) → IsNew (λ n. n) before.now name → length variables.now + length before.now < 1000 → ⊥) }
        ensures lawful { OnOk result (AreVariables variables.now) }
        ensures before { IfErr result (λ e. IsOfName e.kind → AreVariables variables.now) }
        ensures new { IfOk result (λ name. (IsDeclared variables.now name → ⊥) × IsNew (λ n. n) before.now name × (length variables.now + length before.now < 1000)) }
        ensures tells { IfErr result (TellsOfVariable variables.now before.now self.old.words) }
        ensures line { IfErr result (IsAtNext self.old) }
        ensures stuck { IfErr result (GetsStuck IsNothing (AName ∷ []) self.old) }
        ensures value { IfErr result IsGrammarFault }
    {
        let line = self.line();
        let name = self.name(alloc)?;
        variables.check(before, &name, line)?;
        Ok(name)
    }

    /// Names with commas between them.
    #[tactic(auto, using(crate::proofs::RefusedNames::no_name, crate::proofs::RefusedNames::memory_no_name, crate::proofs::UnexpectedWords::memory_no_syntax))]
    fn names(&mut self, alloc: Global, variables: &Variables) -> Result<Vec<Name>, GrammarFault>
        ensures ok { IfOk result (λ names. self.old.words ≡ name_words names.items ++ self.new.words) }
        ensures left { OnOk result (KeepsLines self.old self.new) }
        ensures bodies { OnOk result (self.new.bodies ≡ self.old.bodies) }
        ensures some { IfOk result (λ names. 0 < length names.items) }
        ensures may { IfOk result (λ names. MayBeDeclared variables.now names.items) }
        ensures none { OnOk result (IsNotNext (mark_word Comma) self.new.words) }
        ensures other { IfErr result (λ e. e.kind ≢ Memory → (ns : List (List ℕ)) (rest : List Token) → self.old.words ≡ name_words ns ++ mark_word Colon ∷ rest → 0 < length ns → MayBeDeclared variables.now ns → ⊥) }
        ensures only { IfOk result (λ names. (ns : List (List ℕ)) (rest : List Token) → self.old.words ≡ name_words ns ++ mark_word Colon ∷ rest → 0 < length ns → (names.items ≡ ns) × (self.new.words ≡ mark_word Colon ∷ rest)) }
        ensures names { IfErr result (BeginRefused (λ k. RefusesVariable k variables.now) self.old) }
        ensures stuck { IfErr result (GetsStuck (BeginsSound (judged_names variables.now) AreNamesFormed) (AName ∷ MoreNames ∷ []) self.old) }
        ensures value { IfErr result IsGrammarFault }
    {
        let mut names = Vec::new(alloc);
        names.push(self.variable(alloc, variables, &names)?)?;
        'names: while self.sees_punctuation(Punctuation::Comma) {
            self.punctuation(Punctuation::Comma)?;
            names.push(self.variable(alloc, variables, &names)?)?;
        }
        Ok(names)
    }

    /// BOOL, INT or TIME.
    fn kind(&mut self) -> Result<Kind, GrammarFault>
        ensures ok { IfOk result (λ kind. self.old.words ≡ kind_word kind ∷ self.new.words) }
        ensures left { OnOk result (KeepsLines self.old self.new) }
        ensures bodies { OnOk result (self.new.bodies ≡ self.old.bodies) }
        ensures other { OnErr result (IsNoneNext kind_word self.old.words) }
        ensures err { IfErr result (λ e. e ≡ syntax_at self.old) }
        ensures tells { IfErr result (λ e. TellsOfName e.kind ⊥ ⊥) }
        ensures value { IfErr result IsGrammarFault }
    {
        if self.sees_keyword(Keyword::Int) {
            self.keyword(Keyword::Int)?;
            Ok(Kind::Int)
        } else if self.sees_keyword(Keyword::Time) {
            self.keyword(Keyword::Time)?;
            Ok(Kind::Time)
        } else {
            self.keyword(Keyword::Bool)?;
            Ok(Kind::Bool)
        }
    }

    /// The type of names of a section.
    #[tactic(auto, using(crate::proofs::RefusedNames::no_name))]
    fn type_name(&mut self, section: Section) -> Result<TypeName, GrammarFault>
        ensures ok { IfOk result (λ t. self.old.words ≡ type_word t ∷ self.new.words) }
        ensures left { OnOk result (KeepsLines self.old self.new) }
        ensures bodies { OnOk result (self.new.bodies ≡ self.old.bodies) }
        ensures lawful { IfOk result (λ t. IsTypeLawful section t) }
        ensures other { OnErr result ((t : TypeName) (rest : List Token) → self.old.words ≡ type_word t ∷ rest → IsTypeLawful section t → ⊥) }
        ensures only { OnOk result ((t : TypeName) (rest : List Token) → self.old.words ≡ type_word t ∷ rest → rest ≡ self.new.words) }
        ensures tells { IfErr result (TellsOfBlock section self.old.words) }
        ensures line { IfErr result (IsAtNext self.old) }
        ensures stuck { IfErr result (GetsStuck IsNothing (AType ∷ []) self.old) }
        ensures value { IfErr result IsGrammarFault }
    {
        if !self.sees_block_type() {
            return Ok(TypeName::Elementary(self.kind()?));
        }
        match section {
            Section::Local => Ok(TypeName::Block(self.block_type()?)),
            _ => Err(GrammarFault::at(GrammarFaultKind::WrongKind, self.line())),
        }
    }

    /// A list of names of one type. They are declared.
    #[tactic(auto, using(crate::proofs::RefusedNames::no_name, crate::proofs::RefusedNames::memory_no_name, crate::proofs::UnexpectedWords::memory_no_syntax), unfolding(crate::specs::Grammar::list_words))]
    fn list(
        &mut self,
        alloc: Global,
        section: Section,
        variables: &mut Variables,
    ) -> Result<NameList, GrammarFault>
        ensures ok { IfOk result (λ l. self.old.words ≡ list_words l ++ self.new.words) }
        ensures left { OnOk result (KeepsLines self.old self.new) }
        ensures bodies { OnOk result (self.new.bodies ≡ self.old.bodies) }
        ensures declared { IfOk result (λ l. variables.new ≡ variables.old ++ list_variables section l) }
        ensures lawful { IfOk result (λ l. IsListLawful section l) }
        ensures other { IfErr result (λ e. e.kind ≢ Memory → (ns : List (List ℕ)) (t : TypeName) (rest : List Token) → self.old.words ≡ name_words ns ++ mark_word Colon ∷ type_word t ∷ mark_word Semicolon ∷ rest → 0 < length ns → IsTypeLawful section t → MayBeDeclared variables.old ns → ⊥) }
        ensures names { IfErr result (BeginRefused (RefusesOneList section variables.old) self.old) }
        ensures stuck { IfErr result (GetsStuck (BeginsSound (judged_list section variables.old) HasNames) (AName ∷ list_rest) self.old) }
        ensures value { IfErr result IsGrammarFault }
    {
        let names = self.names(alloc, variables)?;
        self.punctuation(Punctuation::Colon)?;
        let type_name = self.type_name(section)?;
        self.punctuation(Punctuation::Semicolon)?;
        let list = NameList { names, type_name };
        variables.add_list(section, &list)?;
        Ok(list)
    }

    /// The lists of a block, up to its end. They are declared.
    #[tactic(auto, using(crate::proofs::RefusedNames::no_name, crate::proofs::RefusedNames::memory_no_name, crate::proofs::UnexpectedWords::memory_no_syntax, crate::proofs::WordLists::list_has_words))]
    fn lists(
        &mut self,
        alloc: Global,
        section: Section,
        variables: &mut Variables,
    ) -> Result<Vec<NameList>, GrammarFault>
        ensures ok { IfOk result (λ ls. self.old.words ≡ lists_words ls.items ++ self.new.words) }
        ensures left { OnOk result (KeepsLines self.old self.new) }
        ensures bodies { OnOk result (self.new.bodies ≡ self.old.bodies) }
        ensures declared { IfOk result (λ ls. variables.new ≡ variables.old ++ lists_variables section ls.items) }
        ensures lawful { IfOk result (λ ls. All (IsListLawful section) ls.items) }
        ensures other { IfErr result (λ e. e.kind ≢ Memory → (ls : List NameList) (rest : List Token) → self.old.words ≡ lists_words ls ++ rest → All (IsListLawful section) ls → AreVariables (variables.old ++ lists_variables section ls) → ⊥) }
        ensures names { IfErr result (BeginRefused (λ k. RefusesList k section variables.old) self.old) }
        ensures stuck { IfErr result (GetsStuck (BeginsSound (judged_lists section variables.old) AreListsFormed) (MoreLists ∷ []) self.old) }
        ensures value { IfErr result IsGrammarFault }
    {
        let mut lists = Vec::new(alloc);
        'lists: while !self.sees_keyword(Keyword::EndVar) {
            // The getter hands out that the variables so far have names of their own, and are 1,000 at most.
            let _declared = variables.len();
            let list = self.list(alloc, section, variables)?;
            lists.push(list)?;
        }
        self.keyword(Keyword::EndVar)?;
        Ok(lists)
    }

    /// Whether a block begins.
    fn sees_section(&self) -> bool
        ensures yes { IsTrue result → IsOneNext section_start self.now.words }
        ensures no { IsFalse result → IsNoneNext section_start self.now.words }
    {
        self.sees_keyword(Keyword::VarInput)
            || self.sees_keyword(Keyword::VarOutput)
            || self.sees_keyword(Keyword::Var)
    }

    /// VAR_INPUT, VAR_OUTPUT, VAR or VAR RETAIN.
    fn section(&mut self) -> Result<Section, GrammarFault>
        ensures ok { IfOk result (λ s. self.old.words ≡ section_words s ++ self.new.words) }
        ensures left { OnOk result (KeepsLines self.old self.new) }
        ensures whole { IfOk result (λ s. IsSectionWhole s self.new.words) }
        ensures bodies { OnOk result (self.new.bodies ≡ self.old.bodies) }
        ensures other { OnErr result (IsNoneNext section_start self.old.words) }
        ensures tells { IfErr result (λ e. TellsOfName e.kind ⊥ ⊥) }
        ensures stuck { IfErr result (GetsStuck IsNothing (ASection ∷ []) self.old) }
        ensures value { IfErr result IsGrammarFault }
    {
        if self.sees_keyword(Keyword::VarInput) {
            self.keyword(Keyword::VarInput)?;
            return Ok(Section::Input);
        }
        if self.sees_keyword(Keyword::VarOutput) {
            self.keyword(Keyword::VarOutput)?;
            return Ok(Section::Output);
        }
        self.keyword(Keyword::Var)?;
        if self.sees_keyword(Keyword::Retain) {
            self.keyword(Keyword::Retain)?;
            return Ok(Section::Retained);
        }
        Ok(Section::Local)
    }

    /// A block. Its names are declared.
    #[tactic(auto, using(crate::proofs::RefusedNames::no_name, crate::proofs::RefusedNames::memory_no_name, crate::proofs::UnexpectedWords::memory_no_syntax), unfolding(crate::specs::Grammar::block_words))]
    fn block(&mut self, alloc: Global, variables: &mut Variables) -> Result<VarBlock, GrammarFault>
        ensures ok { IfOk result (λ b. self.old.words ≡ block_words b ++ self.new.words) }
        ensures left { OnOk result (KeepsLines self.old self.new) }
        ensures bodies { OnOk result (self.new.bodies ≡ self.old.bodies) }
        ensures declared { IfOk result (λ b. variables.new ≡ variables.old ++ block_variables b) }
        ensures lawful { IfOk result (λ b. IsBlockLawful b) }
        ensures other { IfErr result (λ e. e.kind ≢ Memory → (s : Section) (ls : List NameList) (rest : List Token) → self.old.words ≡ section_words s ++ (lists_words ls ++ rest) → All (IsListLawful s) ls → AreVariables (variables.old ++ lists_variables s ls) → ⊥) }
        ensures names { IfErr result (BeginRefused (λ k. RefusesBlock k variables.old) self.old) }
        ensures stuck { IfErr result (GetsStuck (BeginsSound (judged_block variables.old) IsBlockWellFormed) (ASection ∷ MoreLists ∷ []) self.old) }
        ensures value { IfErr result IsGrammarFault }
    {
        let section = self.section()?;
        let lists = self.lists(alloc, section, variables)?;
        Ok(VarBlock { section, lists })
    }

    /// The blocks of a program. Their names are declared.
    #[tactic(auto, using(crate::proofs::RefusedNames::no_name, crate::proofs::RefusedNames::memory_no_name, crate::proofs::UnexpectedWords::memory_no_syntax, crate::proofs::WordLists::block_has_words))]
    fn blocks(
        &mut self,
        alloc: Global,
        variables: &mut Variables,
    ) -> Result<Vec<VarBlock>, GrammarFault>
        ensures ok { IfOk result (λ bs. self.old.words ≡ flat_map block_words bs.items ++ self.new.words) }
        ensures left { OnOk result (KeepsLines self.old self.new) }
        ensures bodies { OnOk result (self.new.bodies ≡ self.old.bodies) }
        ensures declared { IfOk result (λ bs. variables.new ≡ variables.old ++ flat_map block_variables bs.items) }
        ensures lawful { IfOk result (λ bs. All IsBlockLawful bs.items) }
        ensures none { OnOk result (IsNoneNext section_start self.new.words) }
        ensures other { IfErr result (λ e. e.kind ≢ Memory → (bs : List VarBlock) (rest : List Token) → self.old.words ≡ flat_map block_words bs ++ rest → IsNoneNext section_start rest → All IsBlockLawful bs → AreVariables (variables.old ++ flat_map block_variables bs) → ⊥) }
        ensures names { IfErr result (BeginRefused (λ k. RefusesBlocks k variables.old) self.old) }
        ensures stuck { IfErr result (GetsStuck (BeginsSound (judged_blocks variables.old) AreBlocksFormed) (MoreBlocks ∷ []) self.old) }
        ensures value { IfErr result IsGrammarFault }
    {
        let mut blocks = Vec::new(alloc);
        'sections: while self.sees_section() {
            // So it does here.
            let _declared = variables.len();
            let block = self.block(alloc, variables)?;
            blocks.push(block)?;
        }
        Ok(blocks)
    }

    /// A new name of a program type, behind these.
    #[tactic(auto, using(crate::proofs::RefusedNames::no_name))]
    fn new_type(&mut self, alloc: Global, before: &[ProgramText]) -> Result<Name, GrammarFault>
        ensures ok { IfOk result (λ name. self.old.words ≡ token.Name name ∷ self.new.words) }
        ensures left { OnOk result (KeepsLines self.old self.new) }
        ensures bodies { OnOk result (self.new.bodies ≡ self.old.bodies) }
        ensures new { IfOk result (λ name. IsNew (λ p. p.name) (programs_of before.now) name) }
        ensures few { OnOk result (length before.now < 64) }
        ensures other { IfErr result (λ e. e.kind ≢ Memory → (name : List ℕ) (rest : List Token) → self.old.words ≡ token.Name name ∷ rest → IsNew (λ p. p.name) (programs_of before.now) name → length before.now < 64 → ⊥) }
        ensures tells { IfErr result (TellsOfType before.now self.old.words) }
        ensures line { IfErr result (IsAtNext self.old) }
        ensures stuck { IfErr result (GetsStuck IsNothing (AName ∷ []) self.old) }
        ensures value { IfErr result IsGrammarFault }
    {
        let line = self.line();
        let name = self.name(alloc)?;
        check_new(line, is_program(before, &name), before.len() >= MOST_TYPES)?;
        Ok(name)
    }

    /// PROGRAM and the new name of a program type, behind these.
    #[tactic(auto, using(crate::proofs::RefusedNames::no_name))]
    fn program_start(&mut self, alloc: Global, before: &[ProgramText]) -> Result<Name, GrammarFault>
        ensures ok { IfOk result (λ name. self.old.words ≡ key_word key.Program ∷ token.Name name ∷ self.new.words) }
        ensures left { OnOk result (KeepsLines self.old self.new) }
        ensures bodies { OnOk result (self.new.bodies ≡ self.old.bodies) }
        ensures new { IfOk result (λ name. IsNew (λ p. p.name) (programs_of before.now) name) }
        ensures few { OnOk result (length before.now < 64) }
        ensures other { IfErr result (λ e. e.kind ≢ Memory → (name : List ℕ) (rest : List Token) → self.old.words ≡ key_word key.Program ∷ token.Name name ∷ rest → IsNew (λ p. p.name) (programs_of before.now) name → length before.now < 64 → ⊥) }
        ensures names { IfErr result (BeginRefused (λ k. RefusesProgram k (programs_of before.now)) self.old) }
        ensures stuck { IfErr result (GetsStuck (BeginsSound (judged_program (programs_of before.now)) IsProgramWellFormed) (Key key.Program ∷ AName ∷ []) self.old) }
        ensures value { IfErr result IsGrammarFault }
    {
        self.keyword(Keyword::Program)?;
        self.new_type(alloc, before)
    }

    /// A body up to the end of its program.
    fn program_end(&mut self, alloc: Global) -> Result<Text, GrammarFault>
        ensures ok { IfOk result (λ body. self.old.words ≡ token.Body body ∷ key_word key.EndProgram ∷ self.new.words) }
        ensures left { OnOk result (KeepsLines self.old self.new) }
        ensures bodies { OnOk result (self.old.bodies ≡ next_line self.old ∷ self.new.bodies) }
        ensures other { IfErr result (λ e. e.kind ≢ Memory → (body : List ℕ) (rest : List Token) → self.old.words ≡ token.Body body ∷ key_word key.EndProgram ∷ rest → ⊥) }
        ensures tells { IfErr result (λ e. TellsOfName e.kind ⊥ ⊥) }
        ensures stuck { IfErr result (GetsStuck (BeginsWords end_words (λ b. Unit {0})) (ABody ∷ Key key.EndProgram ∷ []) self.old) }
        ensures value { IfErr result IsGrammarFault }
    {
        let body = self.body(alloc)?;
        self.keyword(Keyword::EndProgram)?;
        Ok(body)
    }

    /// A program type, behind these. Its body isn't drawn.
    #[tactic(auto, using(crate::proofs::RefusedNames::no_name, crate::proofs::RefusedNames::memory_no_name, crate::proofs::UnexpectedWords::memory_no_syntax), unfolding(crate::specs::Grammar::program_words))]
    fn program(
        &mut self,
        alloc: Global,
        before: &[ProgramText],
    ) -> Result<ProgramText, GrammarFault>
        ensures ok { IfOk result (λ p. self.old.words ≡ program_words p.program ++ self.new.words) }
        ensures left { OnOk result (KeepsLines self.old self.new) }
        ensures bodies { IfOk result (λ p. self.old.bodies ≡ p.first_line ∷ self.new.bodies) }
        ensures new { IfOk result (λ p. IsNew (λ p. p.name) (programs_of before.now) p.program.name) }
        ensures few { OnOk result (length before.now < 64) }
        ensures declared { IfOk result (λ p. IsProgramLawful p.program) }
        ensures other { IfErr result (λ e. e.kind ≢ Memory → (p : Program) (rest : List Token) → self.old.words ≡ program_words p ++ rest → IsNew (λ p. p.name) (programs_of before.now) p.name → length before.now < 64 → IsProgramLawful p → ⊥) }
        ensures names { IfErr result (BeginRefused (λ k. RefusesProgram k (programs_of before.now)) self.old) }
        ensures stuck { IfErr result (GetsStuck (BeginsSound (judged_program (programs_of before.now)) IsProgramWellFormed) (Key key.Program ∷ program_rest) self.old) }
        ensures value { IfErr result IsGrammarFault }
    {
        let name = self.program_start(alloc, before)?;
        let mut variables = Variables::new(alloc);
        let blocks = self.blocks(alloc, &mut variables)?;
        // The getter hands out that the variables have names of their own, and are 1,000 at most.
        let _declared = variables.len();
        let first_line = self.line();
        let body = self.program_end(alloc)?;
        let program = Program { name, blocks, body };
        Ok(ProgramText::new(program, first_line, variables.into_declarations()))
    }

    /// The program types, their bodies not drawn. They are added to `texts`; after a fault, those before it.
    #[tactic(auto, using(crate::proofs::RefusedNames::no_name, crate::proofs::RefusedNames::memory_no_name, crate::proofs::UnexpectedWords::memory_no_syntax, crate::proofs::WordLists::program_has_words))]
    pub fn programs(
        &mut self,
        alloc: Global,
        texts: &mut Vec<ProgramText>,
    ) -> Result<(), GrammarFault>
        requires { AreProgramsDeclared (programs_of texts.old.items) }
        ensures ok { OnOk result (AreSameWords texts.old.items self.old.words texts.new.items self.new.words) }
        ensures left { OnOk result (KeepsLines self.old self.new) }
        ensures err { OnErr result (BeginWithWordsOf texts.old.items self.old.words texts.new.items) }
        ensures lines { OnOk result (AreSameLines texts.old.items self.old.bodies texts.new.items self.new.bodies) }
        ensures err_lines { OnErr result (BeginWithLinesOf texts.old.items self.old.bodies texts.new.items) }
        ensures declared { AreProgramsDeclared (programs_of texts.new.items) }
        ensures none { OnOk result (IsNotNext (key_word key.Program) self.new.words) }
        ensures other { IfErr result (λ e. e.kind ≢ Memory → (ps : List Program) (rest : List Token) → all_words texts.old.items self.old.words ≡ flat_map program_words ps ++ rest → IsNotNext (key_word key.Program) rest → AreProgramsDeclared ps → ⊥) }
        ensures names { IfErr result (BeginRefusedBehind (RefusesFurtherProgram (programs_of texts.new.items)) self.old (all_words texts.old.items self.old.words)) }
        ensures stuck { IfErr result (GetsStuck (λ words. BeginsSound judged_of IsTreeWellFormed (all_words texts.old.items words)) (MorePrograms ∷ []) self.old) }
        ensures whole { IfErr result (λ e. e.kind ≡ Syntax → AreAllPrograms (all_words texts.old.items self.old.words) (programs_of texts.new.items)) }
        ensures value { IfErr result IsGrammarFault }
    {
        'programs: while self.sees_keyword(Keyword::Program) {
            let text = self.program(alloc, texts.as_slice())?;
            texts.push(text)?;
        }
        Ok(())
    }
}
