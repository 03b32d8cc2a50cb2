//! The tokens of a JSON text, one after the other.
ghost use Rattle.std.specs.Prelude.{◌≡◌, ◌≢◌, ◌⊎◌, ℕ, ◌<◌, ◌∷◌, [], IfOk, IfSome, MatchOption, Some, true, false, length, drop, get_or};
ghost use Rattle.json.specs.Lex.{between, class, in_string, lex, may_begin, may_close, other, token, tokens};
ghost use Rattle.json.specs.Print.{IsPrintable};
ghost use Rattle.json.specs.Reads.{token_of};
ghost use Rattle.json.specs.Token as spec;
ghost use Rattle.json.specs.Word.{head};
ghost use Rattle.yaml_json.specs.Lexing.{Leads};
ghost use Rattle.yaml_json.specs.Ahead.{Ends, IsTidy, IsTrimmed, Opens, ReadsOn, StepsFrom, StepsOver, begins_here, closes_here};
ghost use Rattle.yaml_json.specs.Reached.{AreFrom};

use crate::escapes::unescape;
use crate::lexemes::{after_string, plain_end, skip_blanks};
use crate::words::{byte_at, word};
use bumpalo::Bump;
use json::Token;
use std::alloc::{AllocError, Allocator};
use std::marker::Model;

/// The tokens that may come next.
#[derive(Clone, Copy)]
pub(crate) enum Stage {
    /// A value, a key, or a bracket or a brace that closes.
    Open,
    /// A bracket or a brace that closes: after a value, no comma read.
    Behind,
    /// A value or a key: a comma precedes it.
    Owed,
    /// Nothing: a token was bad.
    Over,
}

impl Stage {
    fn may_begin(self) -> bool
        ensures { result ≡ begins_here self }
    {
        matches!(self, Stage::Open | Stage::Owed)
    }

    fn may_close(self) -> bool
        ensures { result ≡ closes_here self }
    {
        matches!(self, Stage::Open | Stage::Behind)
    }
}

/// A token, and the text after it and after the blanks, the colon or the comma that follow it.
#[derive(Clone, Copy, Drop)]
pub(crate) struct Step<'a> {
    pub(crate) token: Token<'a>,
    pub(crate) rest: &'a str,
    pub(crate) stage: Stage,
}

/// Tokens of a JSON text. A clause sees the text, the tokens that are still to come, and those that were when the last was read.
#[derive(Drop)]
pub struct Tokens<'a, A: Allocator> {
    alloc: A,
    /// The arena for strings with escapes.
    arena: &'a Bump<A>,
    text: &'a str,
    rest: &'a str,
    stage: Stage,
    /// The tokens that might come when the last one was read.
    was: Stage,
    /// The number of bytes that were left then.
    left: usize,
}

impl<'a, A: Allocator> Model for Tokens<'a, A> {
    ghost use Rattle.yaml_json.specs.Reached.{IsReader, Reader, reader_code, reader_of};

    ghost Value = { Reader };

    ghost coded = { reader_code };

    ghost view = { λ a. reader_of a.text.now a.stage a.rest.now a.was a.left };

    ghost invariant = { λ a. IsReader a.text.now a.stage a.rest.now a.was a.left };
}

/// Returns the step to no token, with none after it.
fn bad<'a>(text: &'a str) -> Step<'a>
    requires { IsTrimmed text.now }
    ensures token { token_of result.token ≡ spec.bad }
    ensures over { result.stage ≡ Stage.Over }
    ensures tidy { IsTidy result.stage result.rest.now }
    ensures stays { Leads text.now result.rest.now }
{
    Step {
        token: Token::Bad,
        rest: text,
        stage: Stage::Over,
    }
}

/// Returns a token after which a value or a key may begin. It ends with the first byte.
#[inline(always)]
fn opening<'a>(token: Token<'a>, text: &'a str) -> Step<'a>
    requires { (0 < length text.now) × (get_or text.now 0 0 < 128) }
    ensures { Opens (token_of token.entry) (drop 1 text.now) result }
{
    Step {
        token,
        rest: skip_blanks(&text[1..]),
        stage: Stage::Open,
    }
}

/// Returns a token that ends a value, and the text after it and the blanks that follow it.
#[inline(always)]
fn ending<'a>(token: Token<'a>, text: &'a str) -> Step<'a>
    requires { IsTrimmed text.now }
    ensures { Ends (token_of token.entry) text.now result }
{
    if byte_at(text.as_bytes(), 0) == b',' {
        Step {
            token,
            rest: skip_blanks(&text[1..]),
            stage: Stage::Owed,
        }
    } else {
        Step {
            token,
            rest: text,
            stage: Stage::Behind,
        }
    }
}

/// Returns a string with this content, and the text after it.
#[inline(always)]
fn string_step<'a>(content: &'a str, after: &'a str) -> Step<'a>
    ensures steps { StepsFrom may_begin (token (spec.string content.now) ∷ lex between after.now) result }
    ensures over { Leads after.now result.rest.now }
{
    let rest = skip_blanks(after);
    if byte_at(rest.as_bytes(), 0) == b':' {
        opening(Token::Key(content), rest)
    } else {
        ending(Token::String(content), rest)
    }
}

/// Returns a string with escapes, or one that is none.
fn escaped<'a, A: Allocator + Copy>(
    alloc: A,
    arena: &'a Bump<A>,
    text: &'a str,
) -> Result<Step<'a>, AllocError>
    requires quote { head text.now ≡ 34 }
    requires trimmed { IsTrimmed text.now }
    ensures { IfOk result (StepsOver may_begin text.now) }
{
    match unescape(alloc, text, 1) {
        Err(_) => Err(AllocError),
        Ok(None) => Ok(bad(text)),
        Ok(Some(string)) => match arena.try_alloc_str(string.as_str()) {
            Err(_) => Err(AllocError),
            Ok(content) => Ok(string_step(content, after_string(text, 1))),
        },
    }
}

/// Returns the string that a text begins with, or none.
#[inline(always)]
fn string<'a, A: Allocator + Copy>(
    alloc: A,
    arena: &'a Bump<A>,
    text: &'a str,
) -> Result<Step<'a>, AllocError>
    requires quote { head text.now ≡ 34 }
    requires trimmed { IsTrimmed text.now }
    ensures { IfOk result (StepsOver may_begin text.now) }
{
    let bytes = text.as_bytes();
    let end = plain_end(bytes, 1);
    if byte_at(bytes, end) == b'"' {
        Ok(string_step(&text[1..end], &text[end + 1..]))
    } else {
        escaped(alloc, arena, text)
    }
}

/// Returns the word that a text begins with, or none.
#[inline(always)]
fn word_step<'a>(text: &'a str) -> Step<'a>
    requires other { class (head text.now) ≡ other }
    requires trimmed { IsTrimmed text.now }
    ensures { StepsOver may_begin text.now result }
{
    match word(text) {
        None => bad(text),
        Some((token, after)) => ending(token, skip_blanks(after)),
    }
}

/// Returns a bracket that closes.
#[inline(always)]
fn closing<'a>(text: &'a str, byte: u8) -> Step<'a>
    requires { (head text.now ≡ byte) × ((byte ≡ 125) ⊎ (byte ≡ 93)) }
    ensures { StepsOver may_close text.now result }
{
    let rest = skip_blanks(&text[1..]);
    if byte == b'}' {
        ending(Token::EndObject, rest)
    } else {
        ending(Token::EndArray, rest)
    }
}

/// Returns a token with which a value or a key begins.
#[inline(always)]
fn beginning<'a, A: Allocator + Copy>(
    alloc: A,
    arena: &'a Bump<A>,
    text: &'a str,
) -> Result<Step<'a>, AllocError>
    requires some { text.now ≢ [] }
    requires trimmed { IsTrimmed text.now }
    requires opens { (head text.now ≢ 125) × (head text.now ≢ 93) }
    ensures { IfOk result (StepsOver may_begin text.now) }
{
    match byte_at(text.as_bytes(), 0) {
        b'"' => string(alloc, arena, text),
        b'{' => Ok(opening(Token::BeginObject, text)),
        b'[' => Ok(opening(Token::BeginArray, text)),
        b',' | b':' | b'\\' => Ok(bad(text)),
        _ => Ok(word_step(text)),
    }
}

/// Returns the step at the end of the text: to a bad token if a value or a key is owed.
fn at_end<'a>(text: &'a str, stage: Stage) -> Option<Step<'a>>
    requires over { stage ≢ Stage.Over }
    requires none { text.now ≡ [] }
    ensures { ReadsOn stage text.now result }
{
    if stage.may_close() {
        None
    } else {
        Some(bad(text))
    }
}

/// Returns the next token, which may be bad; `None` if there is none.
#[inline(always)]
fn read<'a, A: Allocator + Copy>(
    alloc: A,
    arena: &'a Bump<A>,
    text: &'a str,
    stage: Stage,
) -> Result<Option<Step<'a>>, AllocError>
    requires over { stage ≢ Stage.Over }
    requires tidy { IsTidy stage text.now }
    ensures { IfOk result (ReadsOn stage text.now) }
{
    if text.is_empty() {
        return Ok(at_end(text, stage));
    }
    let byte = byte_at(text.as_bytes(), 0);
    if (byte == b'}') | (byte == b']') {
        if stage.may_close() {
            return Ok(Some(closing(text, byte)));
        }
        return Ok(Some(bad(text)));
    }
    if !stage.may_begin() {
        return Ok(Some(bad(text)));
    }
    match beginning(alloc, arena, text) {
        Ok(step) => Ok(Some(step)),
        Err(_) => Err(AllocError),
    }
}

impl<'a, A: Allocator + Copy> Tokens<'a, A> {
    /// Makes a reader at the start of a text. Strings with escapes go to the arena; all others are borrowed from the text.
    pub fn new(alloc: A, arena: &'a Bump<A>, text: &'a str) -> Self
        ensures text { result.text ≡ text.now }
        ensures ahead { result.ahead ≡ tokens text.now }
    {
        let rest = skip_blanks(text);
        Tokens {
            alloc,
            arena,
            text,
            rest,
            stage: Stage::Open,
            was: Stage::Open,
            left: rest.len(),
        }
    }

    /// Returns the offset in bytes at which the last token begins; if there was none, the text's end.
    pub fn last_offset(&self) -> usize
        ensures { AreFrom self.now.text self.now.before result }
    {
        self.text.len().saturating_sub(self.left)
    }

    /// Returns whether no token is left.
    pub fn is_at_end(&self) -> bool
        ensures end { result ≡ true → self.now.ahead ≡ [] }
        ensures more { result ≡ false → self.now.ahead ≢ [] }
    {
        match self.stage {
            Stage::Open | Stage::Behind => self.rest.is_empty(),
            Stage::Owed => false,
            Stage::Over => true,
        }
    }

    /// Returns the next token; `None` if there is none.
    ///
    /// # Errors
    ///
    /// `AllocError` if an allocation fails.
    #[inline(always)]
    pub fn next(&mut self) -> Result<Option<Token<'a>>, AllocError>
        ensures value { IfOk result (λ found. MatchOption found ((self.old.ahead ≡ []) × (self.new.ahead ≡ []))
            (λ t. self.old.ahead ≡ token_of t ∷ self.new.ahead)) }
        ensures printable { IfOk result (λ found. IfSome found (λ t. t ≢ Token.Bad → IsPrintable (token_of t))) }
        ensures before { self.new.before ≡ self.old.ahead }
        ensures text { self.new.text ≡ self.old.text }
    {
        self.left = self.rest.len();
        self.was = self.stage;
        if let Stage::Over = self.stage {
            return Ok(None);
        }
        match read(self.alloc, self.arena, self.rest, self.stage) {
            Err(_) => Err(AllocError),
            Ok(None) => Ok(None),
            Ok(Some(step)) => {
                self.rest = step.rest;
                self.stage = step.stage;
                Ok(Some(step.token))
            }
        }
    }
}
