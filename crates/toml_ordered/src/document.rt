//! Documents, expression by expression.
ghost use Rattle.std.specs.Prelude.{◌≡◌, ◌≤◌, ◌++◌, [], IfErr, if◌then◌else◌, length, string_bytes};
ghost use Rattle.toml_parser.specs.Lexical.{first};
ghost use Rattle.toml_parser.specs.Reading.{key_view, path_view};
ghost use Rattle.toml.specs.Parse.{ends_line, skip_bom};
ghost use Rattle.toml_ordered.specs.Data.{node_view};
ghost use Rattle.toml_ordered.specs.Keys.{sealed, table_view};
ghost use Rattle.toml_ordered.specs.Firsts.{IsShutAt};
ghost use Rattle.toml_ordered.specs.Grammar as spec;
ghost use Rattle.toml_ordered.specs.Nesting.{ExpressionTells, HasReason};
ghost use Rattle.toml_ordered.specs.Places.{FaultIsPlaced, HoldsHere, IsShutFor, key_parts, whole_path};
ghost use Rattle.toml_ordered.specs.Reading.{Defines, ParsesTo, ReadsExpected, definition_view, document_view, expression_view};
ghost use Rattle.toml_ordered.specs.Tables.{define, defined_header, defined_pair, key_value, steps_along};

use crate::fault::{Fault, not_toml};
use crate::route::Route;
use crate::syntax::SyntaxError;
use crate::tables::{Definition, Entry, define_at};
use crate::tree::{Node, Table};
use crate::values::{key_and_equals, key_before, value};
use std::alloc::Global;
use toml_parser::text::{byte_at, first, skip, skip_blank, skip_ws};
use toml_parser::{Key, RECURSION_LIMIT};

/// The part of a document that was read: its root table, and the key of the last header.
#[derive(Drop)]
struct Document {
    root: Table,
    section: Vec<String>,
}

impl Document {
    /// Makes the definition of an expression. The expression begins with this much of the text left.
    fn define(
        &mut self,
        alloc: Global,
        expression: (Key, Definition),
        left: usize,
    ) -> Result<(), Fault>
        ensures { Defines (define (document_view self.old) (expression_view expression)) (document_view self.new)
            (whole_path (document_view self.old) (key_view expression.0) (definition_view expression.1)) left
            (IsShutFor (document_view self.old) (key_view expression.0) (definition_view expression.1)) self.old.root self.new.root result }
    {
        let (key, what) = expression;
        match what {
            Definition::Value(node) => self.define_pair(alloc, key, node, left),
            _ => self.define_header(alloc, key, what, left),
        }
    }

    /// Defines a pair, in the table of the last header.
    fn define_pair(&mut self, alloc: Global, key: Key, node: Node, left: usize) -> Result<(), Fault>
        ensures { Defines (defined_pair (document_view self.old) (key_view key) (sealed (node_view node))) (document_view self.new)
            (path_view self.old.section.items ++ key_parts (key_view key)) left
            (IsShutFor (document_view self.old) (key_view key) (key_value (sealed (node_view node)))) self.old.root self.new.root result }
    {
        let Key { path, last } = key;
        let route = Route {
            header: &self.section,
            dots: &path,
        };
        let entry = Entry {
            key: last,
            what: Definition::Value(node),
            left,
        };
        define_at(alloc, &mut self.root, route, entry)
    }

    /// Defines the table of a header.
    fn define_header(
        &mut self,
        alloc: Global,
        key: Key,
        what: Definition,
        left: usize,
    ) -> Result<(), Fault>
        ensures { Defines (defined_header (document_view self.old) (key_view key) (definition_view what)) (document_view self.new)
            (key_parts (key_view key)) left
            (IsShutAt (steps_along (path_view key.path.items) []) (string_bytes key.last) (definition_view what) (table_view self.old.root))
            self.old.root self.new.root result }
    {
        let Key { mut path, last } = key;
        let route = Route {
            header: &path,
            dots: &[],
        };
        let Ok(key) = last.clone() else {
            return Err(Fault::Memory);
        };
        let entry = Entry { key, what, left };
        if let Err(fault) = define_at(alloc, &mut self.root, route, entry) {
            return Err(fault);
        }
        if let Err(_) = path.push(last) {
            return Err(Fault::Memory);
        }
        self.section = path;
        Ok(())
    }
}

/// Reads a document: its root table.
///
/// # Errors
///
/// `NotToml` if the text isn't TOML 1.1, with a reason that fits the bytes at its place; `TooDeep` if arrays and tables in braces nest more
/// than 80 deep, or a key has more than 80 parts; `DefinedAgain` if a key is defined twice; `Memory` if an allocation fails.
pub fn read_document(alloc: Global, text: &str) -> Result<Table, Fault>
    ensures value { ParsesTo table_view result (spec.ordered_document text.now) }
    ensures placed { IfErr result (FaultIsPlaced text.now) }
    ensures reason { IfErr result (HasReason text.now) }
    ensures holds { IfErr result (HoldsHere text.now) }
{
    let mut read = Document {
        root: Table::new(alloc),
        section: Vec::new(alloc),
    };
    let mut rest = without_mark(text);
    'lines: loop {
        let start = skip_blank(rest, true);
        if start.is_empty() {
            return Ok(read.root);
        }
        let (expression, after) = match line(alloc, start) {
            Ok(found) => found,
            Err(fault) => return Err(fault.settled(start)),
        };
        if let Err(fault) = read.define(alloc, expression, start.len()) {
            return Err(fault.here(start));
        }
        rest = after;
    }
}

/// Returns the text without the byte order mark that begins it, if one does.
fn without_mark(text: &str) -> &str
    ensures rest { result.now ≡ skip_bom text.now }
    ensures within { length result.now ≤ length text.now }
{
    match text.strip_prefix("\u{FEFF}") {
        Some(unmarked) => unmarked,
        None => text,
    }
}

/// Returns whether the text is over, or goes on with a comment or a line break.
fn is_line_end(text: &str) -> bool
    ensures { result ≡ ends_line text.now }
{
    text.is_empty() || matches!(first(text), b'#' | b'\n' | b'\r')
}

/// Reads an expression that has its line to itself.
fn line(alloc: Global, s: &str) -> Result<((Key, Definition), &str), Fault>
    ensures { ReadsExpected expression_view s.now (spec.line s.now) (ExpressionTells s.now) result }
{
    let (found, rest) = match expression(alloc, s) {
        Ok(read) => read,
        Err(fault) => return Err(fault),
    };
    let end = skip_ws(rest);
    if is_line_end(end) {
        Ok((found, rest))
    } else {
        Err(not_toml(end, SyntaxError::LineEnd))
    }
}

/// Reads a header, or a pair.
fn expression(alloc: Global, s: &str) -> Result<((Key, Definition), &str), Fault>
    ensures { ReadsExpected expression_view s.now (spec.expression s.now) (ExpressionTells s.now) result }
{
    if first(s) == b'[' {
        return header(alloc, s);
    }
    let (key, at_value) = match key_and_equals(alloc, s) {
        Ok(read) => read,
        Err(fault) => return Err(fault),
    };
    match value(alloc, at_value, RECURSION_LIMIT) {
        Ok((node, rest)) => Ok(((key, Definition::Value(node)), rest)),
        Err(fault) => Err(fault),
    }
}

/// Returns how many brackets a header begins with.
fn bracket_count(s: &str) -> usize
    requires { first s.now ≡ 91 }
    ensures { result ≡ (if spec.is_doubled s.now then 2 else 1) }
{
    if byte_at(s, 1) == b'[' { 2 } else { 1 }
}

/// Reads a header.
fn header(alloc: Global, s: &str) -> Result<((Key, Definition), &str), Fault>
    requires { first s.now ≡ 91 }
    ensures { ReadsExpected expression_view s.now (spec.expression s.now) (ExpressionTells s.now) result }
{
    let brackets = bracket_count(s);
    let (key, rest) = match key_before(alloc, skip_ws(skip(s, brackets)), b']') {
        Ok(read) => read,
        Err(fault) => return Err(fault),
    };
    if brackets == 1 {
        Ok(((key, Definition::Table), rest))
    } else if first(rest) == b']' {
        Ok(((key, Definition::Tables), skip(rest, 1)))
    } else {
        Err(not_toml(rest, SyntaxError::Bracket))
    }
}
