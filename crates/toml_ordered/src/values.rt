//! Values: strings, scalars, arrays and tables in braces.
ghost use Rattle.std.specs.Prelude.{◌≡◌, ◌<◌, IfOk, string_bytes};
ghost use Rattle.toml_parser.specs.Reading.{key_view};
ghost use Rattle.toml.specs.Parse.{after_element, key_equals};
ghost use Rattle.toml_ordered.specs.Data.{items_view, node_view};
ghost use Rattle.toml_ordered.specs.Keys.{sealed, table_view};
ghost use Rattle.toml_ordered.specs.Firsts.{IsOther};
ghost use Rattle.toml_ordered.specs.Grammar as spec;
ghost use Rattle.toml_ordered.specs.Inside.{FindsHere, GoesOnInside, NextItem, NextPair};
ghost use Rattle.toml_ordered.specs.Nesting.{KeyTells, ValueTells};
ghost use Rattle.toml_ordered.specs.Places.{IsShutInBraces, key_parts};
ghost use Rattle.toml_ordered.specs.Reading.{Defines, ReadsExpected, ReadsPast};
ghost use Rattle.toml_ordered.specs.Tables as tables;

use crate::fault::{Fault, not_toml, too_deep};
use crate::long_keys::refused_key;
use crate::route::Route;
use crate::scalars::refused_scalar;
use crate::syntax::SyntaxError;
use crate::tables::{Definition, Entry, define_at};
use crate::tree::{Node, Origin, Table};
use std::alloc::{AllocError, Global};
use toml_parser::text::{first, skip, skip_blank, skip_ws};
use toml_parser::{Key, ParseError, Scalar, dotted_key, quoted, starts_string, unquoted};

/// An array or a table in braces whose end isn't read yet.
#[derive(Drop)]
enum Open {
    Array(Vec<Node>),
    Braces(Braces),
}

/// A table in braces, and the key of the pair whose value is being read, with the number of bytes of the text that were left at its beginning.
#[derive(Drop)]
struct Braces {
    table: Table,
    key: Key,
    left: usize,
}

/// The finding of a step in a value: all of the value, or an array or a table in braces, in which another value begins.
#[derive(Drop)]
enum Found {
    Value(Node),
    Opened(Open),
}

/// Returns a value, in which arrays and tables in braces nest at most `depth` deep, and the text after it.
pub(crate) fn value(alloc: Global, s: &str, depth: usize) -> Result<(Node, &str), Fault>
    ensures { ReadsExpected node_view s.now (spec.val depth s.now) (ValueTells depth s.now) result }
{
    let mut open: Vec<Open> = Vec::new(alloc);
    let (mut found, mut rest) = match begin(alloc, s, depth) {
        Ok(read) => read,
        Err(fault) => return Err(fault),
    };
    'values: loop {
        match found {
            Found::Opened(innermost) => {
                if let Err(_) = open.push(innermost) {
                    return Err(Fault::Memory);
                }
                match begin(alloc, rest, depth - open.len()) {
                    Ok(next) => (found, rest) = next,
                    Err(fault) => return Err(fault.inside(separator_in(&open))),
                }
            }
            Found::Value(node) => match open.pop() {
                Some(outer) => match go_on(alloc, outer, node, rest) {
                    Ok(next) => (found, rest) = next,
                    Err(fault) => return Err(fault),
                },
                None => return Ok((node, rest)),
            },
        }
    }
}

/// Returns what may follow a value in the innermost of these arrays and tables in braces.
#[cold]
fn separator_in(open: &[Open]) -> SyntaxError {
    match open.last() {
        Some(Open::Array(_)) => SyntaxError::CommaOrBracket,
        Some(Open::Braces(_)) => SyntaxError::CommaOrBrace,
        None => SyntaxError::LineEnd,
    }
}

/// Reads the beginning of a value: a string or a scalar, or up to the first value in an array or a table in braces.
fn begin(alloc: Global, s: &str, depth: usize) -> Result<(Found, &str), Fault>
    ensures { FindsHere depth s.now result }
{
    let byte = first(s);
    if byte != b'[' && byte != b'{' {
        match atom(alloc, s) {
            Ok((node, rest)) => return Ok((Found::Value(node), rest)),
            Err(refused) => return Err(refused),
        }
    }
    if depth == 0 {
        return Err(too_deep(s));
    }
    if byte == b'[' {
        Ok(next_item(Vec::new(alloc), skip(s, 1)))
    } else {
        next_pair(alloc, Table::new(alloc), skip(s, 1))
    }
}

/// Puts a value into the array or table around it, and reads on to the next value in that, or to its end.
fn go_on(alloc: Global, outer: Open, node: Node, s: &str) -> Result<(Found, &str), Fault>
    ensures { GoesOnInside outer node s.now result }
{
    match outer {
        Open::Array(items) => put_item(items, node, s),
        Open::Braces(braces) => put_pair(alloc, braces, node, s),
    }
}

/// Puts an item into an array, and reads on to the next one, or to the array's end.
fn put_item(mut items: Vec<Node>, item: Node, s: &str) -> Result<(Found, &str), Fault>
    ensures { GoesOnInside (Open.Array items) item s.now result }
{
    if let Err(_) = items.push(item) {
        return Err(Fault::Memory);
    }
    match past_element(s, b']') {
        Ok(rest) => Ok(next_item(items, rest)),
        Err(fault) => Err(fault),
    }
}

/// Reads on to the next item of an array, or to its end.
fn next_item(items: Vec<Node>, s: &str) -> (Found, &str)
    ensures { NextItem (items_view items.items) s.now result.0 result.1.now }
{
    let start = skip_blank(s, true);
    if first(start) == b']' {
        (Found::Value(Node::Array(items)), skip(start, 1))
    } else {
        (Found::Opened(Open::Array(items)), start)
    }
}

/// Defines the pair whose value was read, and reads on to the value of the next one, or to the table's end.
fn put_pair(alloc: Global, braces: Braces, value: Node, s: &str) -> Result<(Found, &str), Fault>
    ensures { GoesOnInside (Open.Braces braces) value s.now result }
{
    let Braces {
        mut table,
        key,
        left,
    } = braces;
    if let Err(fault) = put(alloc, &mut table, key, value, left) {
        return Err(fault);
    }
    match past_element(s, b'}') {
        Ok(rest) => next_pair(alloc, table, rest),
        Err(fault) => Err(fault),
    }
}

/// Reads on to the value of the next pair of a table in braces, or to the table's end.
fn next_pair(alloc: Global, table: Table, s: &str) -> Result<(Found, &str), Fault>
    ensures { NextPair table s.now result }
{
    let start = skip_blank(s, true);
    if first(start) == b'}' {
        let node = Node::Table(Origin::Closed, table);
        return Ok((Found::Value(node), skip(start, 1)));
    }
    match key_and_equals(alloc, start) {
        Ok((key, rest)) => {
            let left = start.len();
            Ok((
                Found::Opened(Open::Braces(Braces { table, key, left })),
                rest,
            ))
        }
        Err(fault) => Err(fault.in_braces(start.len())),
    }
}

/// Defines a pair of a table in braces.
fn put(alloc: Global, table: &mut Table, key: Key, value: Node, left: usize) -> Result<(), Fault>
    ensures { Defines (tables.put (key_view key) (sealed (node_view value)) (table_view table.old)) (table_view table.new) (key_parts (key_view key)) left
        (IsShutInBraces (table_view table.old) (key_view key) (sealed (node_view value))) table.old table.new result }
{
    let Key { path, last } = key;
    let route = Route {
        header: &[],
        dots: &path,
    };
    let what = Definition::Value(value);
    let entry = Entry {
        key: last,
        what,
        left,
    };
    define_at(alloc, table, route, entry)
}

/// Passes a comma, or stops before the closing bracket, and returns the rest.
fn past_element(s: &str, closing: u8) -> Result<&str, Fault>
    ensures { ReadsPast s.now (after_element closing s.now) result }
{
    let rest = skip_blank(s, true);
    let next = first(rest);
    if next == b',' {
        Ok(skip(rest, 1))
    } else if next == closing {
        Ok(rest)
    } else if closing == b']' {
        Err(not_toml(rest, SyntaxError::CommaOrBracket))
    } else {
        Err(not_toml(rest, SyntaxError::CommaOrBrace))
    }
}

/// Reads a key and this byte after it.
pub(crate) fn key_before(alloc: Global, s: &str, byte: u8) -> Result<(Key, &str), Fault>
    requires some { 0 < byte }
    requires ascii { byte < 128 }
    ensures { ReadsExpected key_view s.now (spec.key_before byte s.now) (KeyTells s.now) result }
{
    match dotted_key(alloc, s) {
        Ok((key, rest)) => {
            if first(rest) == byte {
                Ok((key, skip(rest, 1)))
            } else {
                Err(not_toml(rest, unless_there(byte)))
            }
        }
        Err(ParseError::OutOfMemory) => Err(Fault::Memory),
        Err(_) => Err(refused_key(alloc, s)),
    }
}

/// Returns the reason for a key that lacks this byte after it.
fn unless_there(byte: u8) -> SyntaxError {
    if byte == b'=' {
        SyntaxError::Equals
    } else {
        SyntaxError::Bracket
    }
}

/// Reads a key, `=` and the blanks after it.
pub(crate) fn key_and_equals(alloc: Global, s: &str) -> Result<(Key, &str), Fault>
    ensures { ReadsExpected key_view s.now (key_equals s.now) (KeyTells s.now) result }
{
    match key_before(alloc, s, b'=') {
        Ok((key, rest)) => Ok((key, skip_ws(rest))),
        Err(fault) => Err(fault),
    }
}

/// Reads a string or a scalar.
fn atom(alloc: Global, s: &str) -> Result<(Node, &str), Fault>
    ensures { ReadsExpected node_view s.now (spec.atom s.now) IsOther result }
{
    if starts_string(s) {
        return match quoted(alloc, s) {
            Ok((text, rest)) => Ok((Node::Text(text), rest)),
            Err(error) => Err(Fault::from(error)),
        };
    }
    match unquoted(alloc, s) {
        Ok((scalar, rest)) => {
            let word = &s.as_bytes()[..s.len() - rest.len()];
            match scalar_node(alloc, word, scalar) {
                Ok(node) => Ok((node, rest)),
                Err(_) => Err(Fault::Memory),
            }
        }
        Err(error) => Err(refused_scalar(alloc, s, error)),
    }
}

/// Returns a scalar, with the word that writes it.
fn scalar_node(alloc: Global, word: &[u8], scalar: Scalar) -> Result<Node, AllocError>
    ensures { IfOk result (λ node. node_view node ≡ spec.scalar_node word.now scalar) }
{
    match scalar {
        Scalar::Boolean(flag) => Ok(Node::Boolean(flag)),
        Scalar::Integer(integer) => Ok(Node::Integer(integer)),
        Scalar::Datetime(datetime) => Ok(Node::Datetime(datetime)),
        Scalar::Float(_) => match plain_word(alloc, word) {
            Ok(plain) => Ok(float_node(plain)),
            Err(refused) => Err(refused),
        },
    }
}

/// Returns a float, by its characters without underscores.
fn float_node(plain: String) -> Node
    ensures { node_view result ≡ spec.float_node (string_bytes plain) }
{
    let sign = first(plain.as_str());
    let signed = sign == b'+' || sign == b'-';
    let name = if signed {
        skip(plain.as_str(), 1)
    } else {
        plain.as_str()
    };
    if name == "inf" {
        let negative = sign == b'-';
        Node::Infinity { negative }
    } else if name == "nan" {
        Node::NotANumber
    } else {
        Node::Decimal(plain)
    }
}

/// Returns the characters of a word but underscores.
fn plain_word(alloc: Global, word: &[u8]) -> Result<String, AllocError>
    ensures { IfOk result (λ plain. string_bytes plain ≡ spec.plain_word word.now) }
{
    let bytes: Vec<u8> = word
        .iter()
        .copied()
        .filter(|byte| *byte != b'_')
        .collect(alloc)?;
    // A word is ASCII.
    match String::from_utf8(bytes) {
        Ok(plain) => Ok(plain),
        Err(_) => Err(AllocError),
    }
}
