//! The lexer: a plant's text word by word, with the line of each.

ghost use Rattle.std.specs.Prelude.{◌≡◌, ◌≢◌, ◌<◌, ℕ, List, [], None, IfOk, IfSome, OnOk, IsTrue, IsFalse, length, take, true};
ghost use Rattle.plant_text.specs.Words.{word_of, front_len};
ghost use Rattle.words.specs.Lines.{without_last};
ghost use Rattle.plant_text.specs.declared.token.Token.TheVariants as token;
ghost use Rattle.plant_text.specs.declared.lexer.Stage.TheVariants as stage;
ghost use Rattle.plant_text.specs.Lines.{last_line};
ghost use Rattle.plant_text.specs.Spelling.{HasNoBodyThen, BeginsNoBlock, IsGap, feeds};
ghost use Rattle.plant_text.specs.Places.{stage_behind, is_due, is_body};
ghost use Rattle.plant_text.specs.Steps.Lexing.{part_before, line_behind, IsPart, IsKnownThen, IsFirstWord, FindsFirstWord, StandsFirst, MovesOn, FindsNoWord, StopsAt, IsNoBodyThere, StandsInPlace, IsWhole, ReadsWord, ReadsBody, ReadsFirst, ReadsNone, IsToldThere};

use crate::bodies::{
    begins_no_block, behind_blank_line, behind_body, is_blank_line, without_return,
};
use crate::front_word::{behind, word_len};
use crate::gaps::behind_gap;
use crate::token::{Keyword, Token};
use crate::word::Word;
use crate::word_kinds::word_of;
use std::alloc::{AllocError, Global};
use std::marker::Model;
use words::Text;

/// How many program types a plant may have.
const MOST_PROGRAM_TYPES: usize = 64;

/// Where the next word stands.
#[derive(Clone, Copy, PartialEq, Eq)]
enum Stage {
    /// Between programs.
    Outside,
    /// Right behind PROGRAM.
    Heading,
    /// Among the blocks of a program.
    Blocks,
    /// Behind a program's name or an END_VAR: the body begins here, unless a block does.
    BodyDue,
    /// Behind CONFIGURATION.
    Configuration,
}

/// Where the word behind this one stands.
fn stage_behind(token: &Token, stage: Stage) -> Stage
    ensures { result ≡ stage_behind token.now stage }
{
    match (stage, token) {
        (Stage::Outside, Token::Keyword(Keyword::Program)) => Stage::Heading,
        (Stage::Outside, Token::Keyword(Keyword::Configuration)) => Stage::Configuration,
        (Stage::Heading, Token::Name(_)) => Stage::BodyDue,
        (Stage::Heading | Stage::BodyDue, _) => Stage::Blocks,
        (Stage::Blocks, Token::Keyword(Keyword::EndVar)) => Stage::BodyDue,
        (stage, _) => stage,
    }
}

/// How many line feeds there are.
fn feeds(text: &[u8]) -> u64
    ensures { result ≡ feeds text.now }
{
    text.iter().filter(|c| **c == b'\n').count() as u64
}

/// The text without its last byte, where that is a line feed.
fn without_feed(text: &[u8]) -> &[u8]
    ensures { result.now ≡ without_last 10 text.now }
{
    match text {
        [front @ .., b'\n'] => front,
        _ => text,
    }
}

/// The number of a text's last line. A line feed at the end begins no further line.
pub fn last_line(text: &str) -> u64
    ensures { result ≡ last_line text.now }
{
    feeds(without_feed(text.as_bytes())).saturating_add(1)
}

/// The text of a body that lies before `rest`. `None`: it is not UTF-8.
fn body_before(alloc: Global, text: &[u8], rest: &[u8]) -> Result<Option<Text>, AllocError>
    ensures { IfOk result (IsPart (part_before text.now rest.now)) }
{
    match str::from_utf8(&text[..text.len().saturating_sub(rest.len())]) {
        Ok(body) => Ok(Some(Text::new(alloc, body)?)),
        Err(_) => Ok(None),
    }
}

/// The text that is left, and the line on which it begins. Contracts see both.
#[derive(Drop)]
pub struct Lexer<'a> {
    rest: &'a [u8],
    line: u64,
    last: u64,
    stage: Stage,
    bodies: usize,
}

impl<'a> Model for Lexer<'a> {
    ghost use Rattle.plant_text.specs.Steps.Lexing.{LexerValue};

    ghost Value = { LexerValue };

    ghost view = { λ l. record { text = l.rest.now; line = l.line; stage = l.stage; bodies = l.bodies; last = l.last } };
}

impl<'a> Lexer<'a> {
    /// All words of a text.
    pub fn new(text: &'a str) -> Lexer<'a>
        ensures { result ≡ record { text = without_last 13 text.now; line = 1; stage = stage.Outside; bodies = 0; last = last_line text.now } }
    {
        Lexer {
            rest: without_return(text.as_bytes()),
            line: 1,
            last: last_line(text),
            stage: Stage::Outside,
            bodies: 0,
        }
    }

    /// Whether a body begins here, unless a block of variables does.
    fn is_body_due(&self) -> bool
        ensures some { IsTrue result → 0 < length self.now.text }
        ensures yes { IsTrue result → is_due self.now.stage ≡ true }
        ensures no { IsFalse result → is_due self.now.stage ≡ true → self.now.text ≡ [] }
    {
        self.stage == Stage::BodyDue && !self.rest.is_empty()
    }

    /// Goes on to what is left behind a part of the text.
    fn advance(&mut self, rest: &'a [u8])
        ensures text { self.new.text ≡ rest.now }
        ensures line { self.new.line ≡ line_behind self.old rest.now }
        ensures stage { self.new.stage ≡ self.old.stage }
        ensures counted { self.new.bodies ≡ self.old.bodies }
        ensures ends { self.new.last ≡ self.old.last }
    {
        let passed = &self.rest[..self.rest.len().saturating_sub(rest.len())];
        self.line = self.line.saturating_add(feeds(passed));
        self.rest = rest;
    }

    /// What is no word, at a line: the last word.
    fn stop(&mut self, line: u64) -> Word
        ensures unknown { result.token ≡ token.Unknown }
        ensures begins { result.line ≡ line }
        ensures end { self.new.text ≡ [] }
        ensures line { self.new.line ≡ self.old.line }
        ensures counted { self.new.bodies ≡ self.old.bodies }
        ensures ends { self.new.last ≡ self.old.last }
    {
        self.rest = &[];
        Word::new(Token::Unknown, line)
    }

    /// The word that stands in front.
    fn word(&mut self, alloc: Global) -> Result<Word, AllocError>
        requires { 0 < length self.old.text }
        ensures word { IfOk result (λ w. IsKnownThen self.old.text w.token self.new.text) }
        ensures every { IfOk result (λ w. (word rest : List ℕ) → IsWhole self.old.text word rest → (w.token ≡ word_of word) × (self.new.text ≡ rest)) }
        ensures stage { IfOk result (λ w. w.token ≢ token.Unknown → self.new.stage ≡ stage_behind w.token self.old.stage) }
        ensures counted { OnOk result (self.new.bodies ≡ self.old.bodies) }
        ensures ends { OnOk result (self.new.last ≡ self.old.last) }
        ensures line { OnOk result (self.new.line ≡ self.old.line) }
        ensures begins { IfOk result (λ w. w.line ≡ self.old.line) }
        ensures is { IfOk result (λ w. w.token ≡ word_of (take (front_len self.old.text) self.old.text)) }
        ensures last { IfOk result (λ w. w.token ≡ token.Unknown → self.new.text ≡ []) }
        ensures shorter { OnOk result (length self.new.text < length self.old.text) }
    {
        let line = self.line;
        let text = self.rest;
        let len = word_len(text);
        let token = word_of(alloc, &text[..len])?;
        if let Token::Unknown = token {
            return Ok(self.stop(line));
        }
        self.stage = stage_behind(&token, self.stage);
        self.rest = behind(text, len);
        Ok(Word::new(token, line))
    }

    /// The body that begins on the next line. `Unknown`: there is none.
    fn body(&mut self, alloc: Global) -> Result<Word, AllocError>
        requires begins_no_block { BeginsNoBlock self.old.text }
        requires some { 0 < length self.old.text }
        ensures word { IfOk result (λ w. IsFirstWord self.old.text w.token self.new.text) }
        ensures first { IfOk result (λ w. StandsFirst self.old w self.new) }
        ensures none { IfOk result (λ w. w.token ≡ token.Unknown → HasNoBodyThen self.old.text) }
        ensures told { IfOk result (λ w. IsToldThere self.old w) }
        ensures ends { OnOk result (self.new.last ≡ self.old.last) }
        ensures body { IfOk result (λ w. w.token ≢ token.Unknown → is_body w.token ≡ true) }
        ensures every { IfOk result (λ w. ReadsBody self.old w self.new) }
        ensures moves_on { IfOk result (λ w. MovesOn self.old w self.new) }
        ensures last { IfOk result (λ w. w.token ≡ token.Unknown → self.new.text ≡ []) }
        ensures shorter { OnOk result (length self.new.text < length self.old.text) }
    {
        let line = self.line;
        if !is_blank_line(self.rest) {
            return Ok(self.stop(line));
        }
        let last = self.last;
        let Some(text) = behind_blank_line(self.rest) else {
            return Ok(self.stop(last));
        };
        let Some(rest) = behind_body(text) else {
            return Ok(self.stop(last));
        };
        let Some(body) = body_before(alloc, text, rest)? else {
            return Ok(self.stop(last));
        };
        self.stage = Stage::Outside;
        self.bodies = self.bodies.saturating_add(1);
        self.advance(rest);
        Ok(Word::new(Token::Body(body), line.saturating_add(1)))
    }

    /// The word behind a gap.
    fn word_behind_gap(&mut self, alloc: Global) -> Result<Option<Word>, AllocError>
        ensures every { IfOk result (λ w. ReadsWord self.old w self.new) }
        ensures none { IfOk result (λ w. IsGap self.old.text → w ≡ None) }
        ensures word { IfOk result (λ w. FindsFirstWord self.old.text w self.new.text) }
        ensures ends { OnOk result (self.new.last ≡ self.old.last) }
        ensures first { IfOk result (λ w. IfSome w (λ t. StandsFirst self.old t self.new)) }
        ensures moves_on { IfOk result (λ w. IfSome w (λ t. MovesOn self.old t self.new)) }
        ensures stops { IfOk result (λ w. IfSome w (λ t. FindsNoWord self.old t)) }
        ensures there { IfOk result (λ w. IfSome w (λ t. IsNoBodyThere self.old t)) }
        ensures last { IfOk result (λ w. IfSome w (λ t. t.token ≡ token.Unknown → self.new.text ≡ [])) }
        ensures shorter { IfOk result (λ w. IfSome w (λ _. length self.new.text < length self.old.text)) }
    {
        let rest = behind_gap(self.rest);
        if rest.is_empty() {
            return Ok(None);
        }
        if let [b'(', b'*', ..] = rest {
            let last = self.last;
            return Ok(Some(self.stop(last)));
        }
        self.advance(rest);
        Ok(Some(self.word(alloc)?))
    }

    /// The next word. `None`: there is no further one. Behind `Unknown` there is none.
    pub fn next(&mut self, alloc: Global) -> Result<Option<Word>, AllocError>
        ensures every { IfOk result (λ w. ReadsFirst self.old w self.new) }
        ensures none { IfOk result (λ w. ReadsNone self.old w) }
        ensures word { IfOk result (λ w. FindsFirstWord self.old.text w self.new.text) }
        ensures ends { OnOk result (self.new.last ≡ self.old.last) }
        ensures first { IfOk result (λ w. IfSome w (λ t. StandsFirst self.old t self.new)) }
        ensures moves_on { IfOk result (λ w. IfSome w (λ t. MovesOn self.old t self.new)) }
        ensures stops { IfOk result (λ w. IfSome w (λ t. StopsAt self.old t)) }
        ensures placed { IfOk result (λ w. IfSome w (λ t. StandsInPlace self.old t)) }
        ensures last { IfOk result (λ w. IfSome w (λ t. t.token ≡ token.Unknown → self.new.text ≡ [])) }
        ensures ended { IfOk result (λ w. self.old.text ≡ [] → w ≡ None) }
        ensures shorter { IfOk result (λ w. IfSome w (λ _. length self.new.text < length self.old.text)) }
    {
        if !self.is_body_due() {
            return self.word_behind_gap(alloc);
        }
        if MOST_PROGRAM_TYPES < self.bodies {
            let line = self.line;
            return Ok(Some(self.stop(line)));
        }
        if begins_no_block(self.rest) {
            return Ok(Some(self.body(alloc)?));
        }
        self.word_behind_gap(alloc)
    }
}
