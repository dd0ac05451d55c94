ghost use Rattle.std.specs.Prelude.{◌≡◌, ◌≢◌, ◌∷◌, List, slice_index_or, OnOk, IfOk, OnErr, IfErr, IsTrue, IsFalse};
ghost use Rattle.plant_grammar.specs.WordFaults.{IsGrammarFault};
ghost use Rattle.plant_text.specs.declared.token.Token.TheVariants as token;
ghost use Rattle.plant_grammar.specs.declared.grammar_fault.GrammarFaultKind.TheVariants.{Memory};
ghost use Rattle.plant_grammar.specs.Steps.NamesRead.{TellsOfName};
ghost use Rattle.plant_grammar.specs.Steps.Lines.{all_left, next_line, syntax_at, source_parts, behind, KeepsLines, IsLeft, IsWordNext, IsNotNext, IsOneNext, IsNoneNext, TellsNext};

use crate::grammar::name::Name;
use crate::grammar::tree::SourceLines;
use crate::grammar_fault::{GrammarFault, GrammarFaultKind};
use plant_text::{Keyword, Punctuation, Token, Word};
use std::alloc::Global;
use std::marker::Model;
use std_blocks::BlockType;
use words::{Address, Text};

/// The words that are left to be read, and the line on which the text ends. Contracts see the words and their lines.
///
/// Each method takes the words of its rule from the front.
#[derive(Drop)]
pub struct Reader<'a> {
    words: &'a [Word],
    last: u64,
}

impl<'a> Model for Reader<'a> {
    ghost use Rattle.plant_grammar.specs.Steps.Lines.{ReaderValue, all_left};

    ghost Value = { ReaderValue };

    ghost view = { λ r. all_left r.words.now r.last };
}

impl<'a> Reader<'a> {
    ghost use Rattle.std.specs.Prelude.{[]};
    ghost use Rattle.plant_text.specs.declared.token.Token.{Token};
    ghost use Rattle.std_blocks.specs.declared.block_type.BlockType.{BlockType};

    /// A reader of all the words of a text that ends on a line.
    pub fn new(words: &'a [Word], last: u64) -> Reader<'a>
        ensures { result ≡ all_left words.now last }
    {
        Reader { words, last }
    }

    /// The line of the next word, or that on which the text ends.
    pub fn line(&self) -> u64
        ensures { result ≡ next_line self.now }
    {
        match self.words {
            [word, ..] => word.line(),
            [] => self.last,
        }
    }

    /// The line of the word at a place among those that are left; 0 where they are fewer.
    fn line_at(&self, place: usize) -> u64
        ensures { result ≡ slice_index_or self.now.lines place 0 }
    {
        match self.words.get(place) {
            Some(word) => word.line(),
            None => 0,
        }
    }

    /// The lines of a source that stands next.
    pub fn source_lines(&self) -> SourceLines
        ensures { result ≡ source_parts self.now.lines }
    {
        SourceLines {
            resource: self.line_at(0),
            instance: self.line_at(2),
            output: self.line_at(4),
        }
    }

    /// The fault of a word that the grammar doesn't have there.
    pub fn syntax(&self) -> GrammarFault
        ensures { result ≡ syntax_at self.now }
    {
        GrammarFault::at(GrammarFaultKind::Syntax, self.line())
    }

    /// The next word, if there is one.
    fn peek(&self) -> Option<&'a Token>
        ensures { TellsNext self.now.words result }
    {
        match self.words {
            [word, ..] => Some(word.token()),
            [] => None,
        }
    }

    /// Leaves the next word behind.
    fn advance(&mut self)
        ensures words { self.new.words ≡ behind self.old.words }
        ensures left { KeepsLines self.old self.new }
        ensures bodies { (t : Token) (rest : List Token) → self.old.words ≡ t ∷ rest → IsLeft t self.old self.new }
    {
        match self.words {
            [_, rest @ ..] => self.words = rest,
            [] => {}
        }
    }

    /// No further word.
    pub fn end(&self) -> Result<(), GrammarFault>
        ensures ok { OnOk result (self.now.words ≡ []) }
        ensures err { IfErr result (λ e. (e ≡ syntax_at self.now) × (self.now.words ≢ [])) }
        ensures tells { IfErr result (λ e. TellsOfName e.kind ⊥ ⊥) }
        ensures value { IfErr result IsGrammarFault }
    {
        match self.words {
            [] => Ok(()),
            _ => Err(self.syntax()),
        }
    }

    /// A keyword.
    pub fn keyword(&mut self, keyword: Keyword) -> Result<(), GrammarFault>
        ensures ok { OnOk result (self.old.words ≡ token.Keyword keyword ∷ self.new.words) }
        ensures left { OnOk result (KeepsLines self.old self.new) }
        ensures bodies { OnOk result (self.new.bodies ≡ self.old.bodies) }
        ensures err { IfErr result (λ e. (e ≡ syntax_at self.old) × (self.new ≡ self.old)) }
        ensures other { OnErr result (IsNotNext (token.Keyword keyword) self.old.words) }
        ensures tells { IfErr result (λ e. TellsOfName e.kind ⊥ ⊥) }
        ensures value { IfErr result IsGrammarFault }
    {
        if !self.sees_keyword(keyword) {
            return Err(self.syntax());
        }
        self.advance();
        Ok(())
    }

    /// A mark.
    pub fn punctuation(&mut self, punctuation: Punctuation) -> Result<(), GrammarFault>
        ensures ok { OnOk result (self.old.words ≡ token.Punctuation punctuation ∷ self.new.words) }
        ensures left { OnOk result (KeepsLines self.old self.new) }
        ensures bodies { OnOk result (self.new.bodies ≡ self.old.bodies) }
        ensures err { IfErr result (λ e. (e ≡ syntax_at self.old) × (self.new ≡ self.old)) }
        ensures other { OnErr result (IsNotNext (token.Punctuation punctuation) self.old.words) }
        ensures tells { IfErr result (λ e. TellsOfName e.kind ⊥ ⊥) }
        ensures value { IfErr result IsGrammarFault }
    {
        if !self.sees_punctuation(punctuation) {
            return Err(self.syntax());
        }
        self.advance();
        Ok(())
    }

    /// A name.
    pub fn name(&mut self, alloc: Global) -> Result<Name, GrammarFault>
        ensures ok { IfOk result (λ name. self.old.words ≡ token.Name name ∷ self.new.words) }
        ensures left { OnOk result (KeepsLines self.old self.new) }
        ensures bodies { OnOk result (self.new.bodies ≡ self.old.bodies) }
        ensures err { IfErr result (λ e. e.kind ≢ Memory → e ≡ syntax_at self.old) }
        ensures other { IfErr result (λ e. e.kind ≢ Memory → IsNoneNext token.Name self.old.words) }
        ensures kept { OnErr result (self.new ≡ self.old) }
        ensures tells { IfErr result (λ e. TellsOfName e.kind ⊥ ⊥) }
        ensures value { IfErr result IsGrammarFault }
    {
        match self.peek() {
            Some(Token::Name(text)) => {
                let name = Name::new(text.try_copy(alloc)?, self.line());
                self.advance();
                Ok(name)
            }
            _ => Err(self.syntax()),
        }
    }

    /// The lines of a body.
    pub fn body(&mut self, alloc: Global) -> Result<Text, GrammarFault>
        ensures ok { IfOk result (λ body. self.old.words ≡ token.Body body ∷ self.new.words) }
        ensures left { OnOk result (KeepsLines self.old self.new) }
        ensures bodies { OnOk result (self.old.bodies ≡ next_line self.old ∷ self.new.bodies) }
        ensures err { IfErr result (λ e. e.kind ≢ Memory → e ≡ syntax_at self.old) }
        ensures other { IfErr result (λ e. e.kind ≢ Memory → IsNoneNext token.Body self.old.words) }
        ensures kept { OnErr result (self.new ≡ self.old) }
        ensures tells { IfErr result (λ e. TellsOfName e.kind ⊥ ⊥) }
        ensures value { IfErr result IsGrammarFault }
    {
        match self.peek() {
            Some(Token::Body(text)) => {
                let body = text.try_copy(alloc)?;
                self.advance();
                Ok(body)
            }
            _ => Err(self.syntax()),
        }
    }

    /// A duration, in ms.
    pub fn duration(&mut self) -> Result<u32, GrammarFault>
        ensures ok { IfOk result (λ n. self.old.words ≡ token.Duration n ∷ self.new.words) }
        ensures left { OnOk result (KeepsLines self.old self.new) }
        ensures err { IfErr result (λ e. (e ≡ syntax_at self.old) × (self.new ≡ self.old)) }
        ensures other { OnErr result (IsNoneNext token.Duration self.old.words) }
        ensures tells { IfErr result (λ e. TellsOfName e.kind ⊥ ⊥) }
        ensures value { IfErr result IsGrammarFault }
    {
        match self.peek() {
            Some(Token::Duration(n)) => {
                self.advance();
                Ok(*n)
            }
            _ => Err(self.syntax()),
        }
    }

    /// A number.
    pub fn number(&mut self) -> Result<u16, GrammarFault>
        ensures ok { IfOk result (λ n. self.old.words ≡ token.Number n ∷ self.new.words) }
        ensures left { OnOk result (KeepsLines self.old self.new) }
        ensures err { IfErr result (λ e. (e ≡ syntax_at self.old) × (self.new ≡ self.old)) }
        ensures other { OnErr result (IsNoneNext token.Number self.old.words) }
        ensures tells { IfErr result (λ e. TellsOfName e.kind ⊥ ⊥) }
        ensures value { IfErr result IsGrammarFault }
    {
        match self.peek() {
            Some(Token::Number(n)) => {
                self.advance();
                Ok(*n)
            }
            _ => Err(self.syntax()),
        }
    }

    /// A field address.
    pub fn address(&mut self) -> Result<Address, GrammarFault>
        ensures ok { IfOk result (λ a. self.old.words ≡ token.Address a ∷ self.new.words) }
        ensures left { OnOk result (KeepsLines self.old self.new) }
        ensures err { IfErr result (λ e. (e ≡ syntax_at self.old) × (self.new ≡ self.old)) }
        ensures other { OnErr result (IsNoneNext token.Address self.old.words) }
        ensures tells { IfErr result (λ e. TellsOfName e.kind ⊥ ⊥) }
        ensures value { IfErr result IsGrammarFault }
    {
        match self.peek() {
            Some(Token::Address(address)) => {
                self.advance();
                Ok(*address)
            }
            _ => Err(self.syntax()),
        }
    }

    /// The type of a standard block.
    pub fn block_type(&mut self) -> Result<BlockType, GrammarFault>
        ensures ok { IfOk result (λ b. self.old.words ≡ token.Block b ∷ self.new.words) }
        ensures left { OnOk result (KeepsLines self.old self.new) }
        ensures bodies { OnOk result (self.new.bodies ≡ self.old.bodies) }
        ensures err { IfErr result (λ e. (e ≡ syntax_at self.old) × (self.new ≡ self.old)) }
        ensures other { OnErr result ((b : BlockType) (rest : List Token) → self.old.words ≡ token.Block b ∷ rest → ⊥) }
        ensures tells { IfErr result (λ e. TellsOfName e.kind ⊥ ⊥) }
        ensures value { IfErr result IsGrammarFault }
    {
        match self.peek() {
            Some(Token::Block(block)) => {
                self.advance();
                Ok(*block)
            }
            _ => Err(self.syntax()),
        }
    }

    /// Whether the next word is a keyword.
    pub fn sees_keyword(&self, keyword: Keyword) -> bool
        ensures yes { IsTrue result → IsWordNext (token.Keyword keyword) self.now.words }
        ensures no { IsFalse result → IsNotNext (token.Keyword keyword) self.now.words }
    {
        match self.words {
            [word, ..] => word.is_keyword(keyword),
            [] => false,
        }
    }

    /// Whether the next word is a mark.
    pub fn sees_punctuation(&self, punctuation: Punctuation) -> bool
        ensures yes { IsTrue result → IsWordNext (token.Punctuation punctuation) self.now.words }
        ensures no { IsFalse result → IsNotNext (token.Punctuation punctuation) self.now.words }
    {
        match self.words {
            [word, ..] => word.is_punctuation(punctuation),
            [] => false,
        }
    }

    /// Whether the next word is a field address.
    pub fn sees_address(&self) -> bool
        ensures yes { IsTrue result → IsOneNext token.Address self.now.words }
        ensures no { IsFalse result → IsNoneNext token.Address self.now.words }
    {
        match self.words {
            [word, ..] => word.is_address(),
            [] => false,
        }
    }

    /// Whether the next word is the type of a standard block.
    pub fn sees_block_type(&self) -> bool
        ensures yes { IsTrue result → (b : BlockType) × (rest : List Token) × (self.now.words ≡ token.Block b ∷ rest) }
        ensures no { IsFalse result → (b : BlockType) (rest : List Token) → self.now.words ≡ token.Block b ∷ rest → ⊥ }
    {
        match self.words {
            [word, ..] => word.is_block_type(),
            [] => false,
        }
    }
}
