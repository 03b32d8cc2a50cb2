//! Values of JSON, token by token from a reader to a writer. The arrays and objects that are open are in a list.
ghost use Rattle.std.specs.Prelude.{◌≡◌, ◌≢◌, [], ◌∷◌, ◌-◌, length, take, IfErr, IfOk, MatchOption};
ghost use Rattle.json.specs.Print.{IsPrintable};
ghost use Rattle.json.specs.Reads.{token_of};
ghost use Rattle.yaml_json.specs.Failing.{IsStopOf};
ghost use Rattle.yaml_json.specs.Nests.{HasNoneOpen, IsNesting};
ghost use Rattle.yaml_json.specs.Walk.{IsInnermost, LeavesNames, ReadsNone, closes, opener};
ghost use Rattle.yaml_json.specs.WalkSteps.{FirstStep, OnlyStep, TokenStep, ValueStep, WalkStep, at};
ghost use Rattle.yaml_writer.specs.WasGiven.{IsBare, start_event};
ghost use Rattle.yaml_writer.specs.Writing.{Begins, EndsInnermost};

use crate::names::Names;
use crate::settings::JsonSettings;
use crate::tokens::Tokens;
use json::Token;
use std::alloc::Allocator;
use yaml_writer::{
    CollectionKind, Number, Writer, YAML_BLOCK_MAPPING_STYLE, YAML_BLOCK_SEQUENCE_STYLE,
    YAML_FLOW_MAPPING_STYLE, YAML_FLOW_SEQUENCE_STYLE, yaml_error_t,
};

/// The place of a token that isn't possible there, relative to the last token that was read.
#[derive(Clone, Copy)]
pub(crate) enum Spot {
    /// It is the last token, or the text ends there.
    At,
    /// It follows the last token, a string.
    PastString,
    /// It follows the last token, with which a value is whole.
    PastValue,
}

/// The reason why a value isn't written.
#[derive(Clone, Copy)]
pub(crate) enum Stop {
    /// A token isn't possible at its place, or the text ends too early, here.
    NotJson(Spot),
    /// An array or an object is too deep.
    TooDeep,
    /// The last token that was read is a name that its object has.
    NameAgain,
    /// The writer failed, or an allocation.
    Failed(yaml_error_t),
}

/// The arrays and objects that are open. A value that is whole leaves the memory of these lists to the next.
#[derive(Drop)]
pub(crate) struct Nesting<'a, A: Allocator> {
    /// The innermost last.
    kinds: Vec<CollectionKind, A>,
    names: Names<'a, A>,
}

impl<'a, A: Allocator + Copy> Nesting<'a, A> {
    /// Makes a nesting with nothing open.
    pub(crate) fn new(alloc: A, unique_names: bool) -> Self
        ensures { HasNoneOpen unique_names result }
    {
        Nesting {
            kinds: Vec::new(alloc),
            names: Names::new(alloc, unique_names),
        }
    }
}

/// Converts a writer's answer to the walk's.
fn answer_of(answer: Result<(), yaml_error_t>) -> Result<(), Stop>
    ensures { IsStopOf answer result }
{
    match answer {
        Ok(()) => Ok(()),
        Err(error) => Err(Stop::Failed(error)),
    }
}

/// Gives a writer the start of a collection.
fn start<A: Allocator + Copy>(
    writer: &mut Writer<A>,
    kind: CollectionKind,
    in_flow: bool,
) -> Result<(), yaml_error_t>
    requires { IsBare writer.old }
    ensures { Begins kind writer.old (start_event in_flow kind) result writer.new }
{
    match kind {
        CollectionKind::Sequence => {
            let style = if in_flow {
                YAML_FLOW_SEQUENCE_STYLE
            } else {
                YAML_BLOCK_SEQUENCE_STYLE
            };
            writer.begin_sequence(style)
        }
        CollectionKind::Mapping => {
            let style = if in_flow {
                YAML_FLOW_MAPPING_STYLE
            } else {
                YAML_BLOCK_MAPPING_STYLE
            };
            writer.begin_mapping(style)
        }
    }
}

/// Begins a collection, unless it is too deep.
fn begin<'a, A: Allocator + Copy>(
    writer: &mut Writer<A>,
    nest: &mut Nesting<'a, A>,
    kind: CollectionKind,
    settings: &JsonSettings,
) -> Result<(), Stop>
    requires bare { IsBare writer.old }
    requires fits { IsNesting settings.now.values.depth settings.now.unique_names nest.old }
    ensures { TokenStep settings.now (opener kind) (at nest.old writer.old) result (at nest.new writer.new) }
{
    if nest.kinds.len() == settings.values.depth {
        return Err(Stop::TooDeep);
    }
    if let Err(_) = nest.names.enter() {
        return Err(Stop::Failed(yaml_error_t::Memory));
    }
    match nest.kinds.push(kind) {
        Ok(()) => answer_of(start(writer, kind, settings.values.flow)),
        Err(_) => Err(Stop::Failed(yaml_error_t::Memory)),
    }
}

/// Writes a token with which a value is to begin.
#[inline(always)]
fn write_token<'a, A: Allocator + Copy>(
    writer: &mut Writer<A>,
    nest: &mut Nesting<'a, A>,
    token: Token<'a>,
    settings: &JsonSettings,
) -> Result<(), Stop>
    requires bare { IsBare writer.old }
    requires fits { IsNesting settings.now.values.depth settings.now.unique_names nest.old }
    requires good { token ≢ Token.Bad → IsPrintable (token_of token) }
    ensures { TokenStep settings.now (token_of token.entry) (at nest.old writer.old) result (at nest.new writer.new) }
{
    match token {
        Token::Null => answer_of(writer.null()),
        Token::Bool(flag) => answer_of(writer.bool(flag)),
        Token::Number(text) => answer_of(writer.number(&Number::of_text(text))),
        Token::String(text) => answer_of(writer.text(text)),
        Token::BeginArray => begin(writer, nest, CollectionKind::Sequence, settings),
        Token::BeginObject => begin(writer, nest, CollectionKind::Mapping, settings),
        Token::Key(_) => Err(Stop::NotJson(Spot::PastString)),
        _ => Err(Stop::NotJson(Spot::At)),
    }
}

/// Returns the next token.
#[inline(always)]
fn next_token<'a, A: Allocator + Copy>(reader: &mut Tokens<'a, A>) -> Result<Token<'a>, Stop>
    ensures first { IfOk result (λ token. reader.old.ahead ≡ token_of token ∷ reader.new.ahead) }
    ensures printable { IfOk result (λ token. token ≢ Token.Bad → IsPrintable (token_of token)) }
    ensures refused { IfErr result (ReadsNone reader.old.ahead) }
    ensures before { reader.new.before ≡ reader.old.ahead }
    ensures text { reader.new.text ≡ reader.old.text }
{
    match reader.next() {
        Ok(Some(token)) => Ok(token),
        Ok(None) => Err(Stop::NotJson(Spot::At)),
        Err(_) => Err(Stop::Failed(yaml_error_t::Memory)),
    }
}

/// Writes the first token of a value.
fn write_first<'a, A: Allocator + Copy>(
    writer: &mut Writer<A>,
    reader: &mut Tokens<'a, A>,
    nest: &mut Nesting<'a, A>,
    settings: &JsonSettings,
) -> Result<(), Stop>
    requires bare { IsBare writer.old }
    requires fits { IsNesting settings.now.values.depth settings.now.unique_names nest.old }
    ensures steps { FirstStep settings.now reader.old (at nest.old writer.old) result reader.new (at nest.new writer.new) }
    ensures before { reader.new.before ≡ reader.old.ahead }
    ensures text { reader.new.text ≡ reader.old.text }
{
    let token = match next_token(reader) {
        Ok(token) => token,
        Err(stop) => return Err(stop),
    };
    write_token(writer, nest, token, settings)
}

/// Returns whether a token closes a collection of this kind.
fn closes(token: Token<'_>, kind: CollectionKind) -> bool
    ensures { result ≡ closes (token_of token.entry) kind }
{
    match token {
        Token::EndArray => matches!(kind, CollectionKind::Sequence),
        Token::EndObject => matches!(kind, CollectionKind::Mapping),
        _ => false,
    }
}

/// Ends the innermost collection.
fn leave<'a, A: Allocator + Copy>(
    writer: &mut Writer<A>,
    nest: &mut Nesting<'a, A>,
) -> Result<(), yaml_error_t>
    requires bare { IsBare writer.old }
    ensures left { nest.new.kinds.items ≡ take (length nest.old.kinds.items - 1) nest.old.kinds.items }
    ensures names { LeavesNames nest.old.names nest.new.names }
    ensures ends { EndsInnermost writer.old result writer.new }
{
    nest.names.leave();
    let _ = nest.kinds.pop();
    writer.end()
}

/// Writes the next item or member of the innermost collection, which is of this kind, or ends it.
fn write_next<'a, A: Allocator + Copy>(
    writer: &mut Writer<A>,
    reader: &mut Tokens<'a, A>,
    nest: &mut Nesting<'a, A>,
    kind: CollectionKind,
    settings: &JsonSettings,
) -> Result<(), Stop>
    requires bare { IsBare writer.old }
    requires fits { IsNesting settings.now.values.depth settings.now.unique_names nest.old }
    requires innermost { IsInnermost kind nest.old.kinds.items }
    requires within { IsInnermost kind writer.old.levels }
    ensures steps { WalkStep settings.now reader.old (at nest.old writer.old) result reader.new (at nest.new writer.new) }
    ensures text { reader.new.text ≡ reader.old.text }
{
    let token = match next_token(reader) {
        Ok(token) => token,
        Err(stop) => return Err(stop),
    };
    if closes(token, kind) {
        return answer_of(leave(writer, nest));
    }
    match kind {
        CollectionKind::Sequence => write_token(writer, nest, token, settings),
        CollectionKind::Mapping => match token {
            Token::Key(key) => match nest.names.add(key) {
                Err(_) => Err(Stop::Failed(yaml_error_t::Memory)),
                Ok(new) => {
                    if !new {
                        return Err(Stop::NameAgain);
                    }
                    if let Err(stop) = answer_of(writer.text(key)) {
                        return Err(stop);
                    }
                    write_first(writer, reader, nest, settings)
                }
            },
            Token::String(_) => Err(Stop::NotJson(Spot::PastString)),
            _ => Err(Stop::NotJson(Spot::At)),
        },
    }
}

/// Returns the kind of the innermost collection that is open.
fn innermost<A: Allocator>(levels: &Vec<CollectionKind, A>) -> Option<CollectionKind>
    ensures { MatchOption result (levels.now.items ≡ []) (λ kind. IsInnermost kind levels.now.items) }
{
    levels.last().copied()
}

/// Writes the next value of the reader.
fn write_value<'a, A: Allocator + Copy>(
    nest: &mut Nesting<'a, A>,
    writer: &mut Writer<A>,
    reader: &mut Tokens<'a, A>,
    settings: &JsonSettings,
) -> Result<(), Stop>
    requires bare { IsBare writer.old }
    requires none { HasNoneOpen settings.now.unique_names nest.old }
    ensures steps { ValueStep settings.now reader.old (at nest.old writer.old) result reader.new (at nest.new writer.new) }
    ensures text { reader.new.text ≡ reader.old.text }
{
    if let Err(stop) = write_first(writer, reader, nest, settings) {
        return Err(stop);
    }
    'each_token: while let Some(kind) = innermost(&nest.kinds) {
        if let Err(stop) = write_next(writer, reader, nest, kind, settings) {
            return Err(stop);
        }
    }
    Ok(())
}

/// Writes the one value of the reader.
pub(crate) fn write_only_value<'a, A: Allocator + Copy>(
    nest: &mut Nesting<'a, A>,
    writer: &mut Writer<A>,
    reader: &mut Tokens<'a, A>,
    settings: &JsonSettings,
) -> Result<(), Stop>
    requires bare { IsBare writer.old }
    requires none { HasNoneOpen settings.now.unique_names nest.old }
    ensures steps { OnlyStep settings.now reader.old (at nest.old writer.old) result reader.new (at nest.new writer.new) }
    ensures text { reader.new.text ≡ reader.old.text }
{
    if let Err(stop) = write_value(nest, writer, reader, settings) {
        return Err(stop);
    }
    if reader.is_at_end() {
        Ok(())
    } else {
        Err(Stop::NotJson(Spot::PastValue))
    }
}
