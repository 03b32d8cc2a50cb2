//! The input that is possible at the place where a JSON text breaks off, by the bytes before. It is looked for after an error, and needs no
//! memory: the open brackets are counted first, and then the last that makes as many is the innermost.
ghost use Rattle.std.specs.Prelude.{◌≡◌, ◌+◌, ◌<◌, ◌≤◌, ◌^◌, List, None, true};
ghost use Rattle.yaml_json.specs.Expected as meaning;

use crate::cuts::{closes, opens};
use crate::words::is_blank;
use std::fmt;
use yaml_writer::CollectionKind;

/// The input that is possible at the place where a text breaks off; or the fault of the string or the number there, if one is possible.
#[derive(Clone, Copy, Debug, Drop, PartialEq, Eq)]
pub enum Expected {
    /// A JSON text: there are blanks alone.
    Text,
    /// A value.
    Value,
    /// The first item of an array, or its end.
    ItemOrEnd,
    /// The first name of an object, or its end.
    NameOrEnd,
    /// A name.
    Name,
    /// A colon, after a name.
    Colon,
    /// A comma in an array, or its end.
    CommaOrBracket,
    /// A comma in an object, or its end.
    CommaOrBrace,
    /// Nothing: the value is whole.
    End,
    /// A control character is here, in a string.
    Control,
    /// No escape begins with this backslash.
    Escape,
    /// The escape that begins here is half of a surrogate pair, without the other half.
    Surrogate,
    /// The text ends within a string.
    Quote,
    /// A digit follows this zero, with which a number begins.
    LeadingZero,
    /// A number has no digit here: before its point or after it, after its minus, or in its exponent.
    Digit,
    /// UTF-8, which callers that are given bytes expect.
    Utf8,
}

impl Expected {
    /// Returns the words of an error.
    pub fn words(self) -> &'static str
        ensures { result.now ≡ meaning.words self }
    {
        match self {
            Expected::Text => "there is no JSON text",
            Expected::Value => "expected a value",
            Expected::ItemOrEnd => "expected a value or ']'",
            Expected::NameOrEnd => "expected a name or '}'",
            Expected::Name => "expected a name",
            Expected::Colon => "expected ':'",
            Expected::CommaOrBracket => "expected ',' or ']'",
            Expected::CommaOrBrace => "expected ',' or '}'",
            Expected::End => "expected the end of the text",
            Expected::Control => "a control character in a string",
            Expected::Escape => "invalid escape",
            Expected::Surrogate => "half of a surrogate pair",
            Expected::Quote => "expected a closing quote",
            Expected::LeadingZero => "a leading zero",
            Expected::Digit => "expected a digit",
            Expected::Utf8 => "not UTF-8",
        }
    }
}

impl fmt::Display for Expected {
    fn fmt<W: fmt::Write>(&self, formatter: &mut fmt::Formatter<W>) -> fmt::Result {
        formatter.write_str(self.words())
    }
}

/// Whether the next byte is one of a string.
#[derive(Clone, Copy)]
pub(crate) enum Quoting {
    Outside,
    Inside,
    /// A backslash precedes it.
    Escaped,
}

/// The kind of the last token in some bytes of a text.
#[derive(Clone, Copy)]
pub(crate) enum Last {
    /// Blanks alone.
    Nothing,
    /// A bracket that opens.
    Opener,
    Comma,
    Colon,
    /// The first string or word after a bracket or a comma.
    First,
    /// Any other token that ends a value.
    Value,
}

/// The number of open brackets, and the kind of the one that makes as many as are asked for.
#[derive(Clone, Copy)]
pub(crate) struct Depth {
    pub(crate) count: usize,
    pub(crate) kind: Option<CollectionKind>,
}

/// The state of a text after some of its bytes.
#[derive(Clone, Copy)]
pub(crate) struct Front {
    pub(crate) quoting: Quoting,
    pub(crate) last: Last,
    pub(crate) depth: Depth,
}

/// Returns the kind of the last token after a byte that is outside of strings, or that begins one.
fn last_after(last: Last, byte: u8) -> Last
    ensures { result ≡ meaning.last_after last byte }
{
    if is_blank(byte) {
        last
    } else if opens(byte) {
        Last::Opener
    } else if closes(byte) {
        Last::Value
    } else if byte == b',' {
        Last::Comma
    } else if byte == b':' {
        Last::Colon
    } else {
        match last {
            Last::Opener | Last::Comma | Last::First => Last::First,
            Last::Nothing | Last::Colon | Last::Value => Last::Value,
        }
    }
}

/// Returns the depth with one open bracket less.
fn shallower(depth: Depth, deep: usize) -> Depth
    ensures is { (kinds : List CollectionKind) → meaning.IsDepth deep kinds depth → meaning.IsDepth deep (meaning.open_by None true kinds) result }
    ensures few { result.count ≤ depth.count + 1 }
{
    let count = depth.count.saturating_sub(1);
    if depth.count == deep {
        Depth { count, kind: None }
    } else {
        Depth {
            count,
            kind: depth.kind,
        }
    }
}

/// Returns the depth after a byte that is outside of strings.
fn depth_after(depth: Depth, deep: usize, byte: u8) -> Depth
    requires { depth.count + 1 < 2 ^ 64 }
    ensures is { (kinds : List CollectionKind) → meaning.IsDepth deep kinds depth → meaning.IsDepth deep (meaning.open_after kinds byte) result }
    ensures few { result.count ≤ depth.count + 1 }
{
    let opened = match byte {
        b'[' => CollectionKind::Sequence,
        b'{' => CollectionKind::Mapping,
        _ if closes(byte) => return shallower(depth, deep),
        _ => return depth,
    };
    let count = depth.count + 1;
    let kind = if count == deep {
        Some(opened)
    } else {
        depth.kind
    };
    Depth { count, kind }
}

fn front_after(front: Front, deep: usize, byte: u8) -> Front
    requires { front.depth.count + 1 < 2 ^ 64 }
    ensures is { (standing : meaning.StandingInJson) → meaning.IsFront deep standing front
        → meaning.IsFront deep (meaning.standing_after standing byte) result }
    ensures few { result.depth.count ≤ front.depth.count + 1 }
{
    let Front {
        quoting,
        last,
        depth,
    } = front;
    let quoting = match quoting {
        Quoting::Outside => {
            return Front {
                quoting: if byte == b'"' {
                    Quoting::Inside
                } else {
                    Quoting::Outside
                },
                last: last_after(last, byte),
                depth: depth_after(depth, deep, byte),
            };
        }
        Quoting::Inside if byte == b'\\' => Quoting::Escaped,
        Quoting::Inside if byte == b'"' => Quoting::Outside,
        Quoting::Inside | Quoting::Escaped => Quoting::Inside,
    };
    Front {
        quoting,
        last,
        depth,
    }
}

/// Returns the state of a text after these bytes, with the kind of the open bracket that is number `deep`.
fn front_of(bytes: &[u8], deep: usize) -> Front
    ensures { meaning.IsFront deep (meaning.standing_over meaning.start bytes.now) result }
{
    let mut front = Front {
        quoting: Quoting::Outside,
        last: Last::Nothing,
        depth: Depth {
            count: 0,
            kind: None,
        },
    };
    let mut at: usize = 0;
    'bytes: while at < bytes.len() {
        front = front_after(front, deep, bytes[at]);
        at += 1;
    }
    front
}

/// Returns the input that is possible after a last token, within a bracket of this kind.
fn expected_by(last: Last, kind: Option<CollectionKind>) -> Expected
    ensures { result ≡ meaning.expected_by last kind }
{
    match (last, kind) {
        (Last::Nothing | Last::Colon, _) => Expected::Value,
        (Last::Opener, Some(CollectionKind::Mapping)) => Expected::NameOrEnd,
        (Last::Opener, _) => Expected::ItemOrEnd,
        (Last::Comma, Some(CollectionKind::Mapping)) => Expected::Name,
        (Last::Comma, _) => Expected::Value,
        (Last::First, Some(CollectionKind::Mapping)) => Expected::Colon,
        (Last::Value, Some(CollectionKind::Mapping)) => Expected::CommaOrBrace,
        (Last::First | Last::Value, Some(CollectionKind::Sequence)) => Expected::CommaOrBracket,
        (Last::First | Last::Value, None) => Expected::End,
    }
}

fn is_nothing(last: Last) -> bool
    ensures { result ≡ meaning.is_nothing last }
{
    matches!(last, Last::Nothing)
}

/// Returns the input that is possible at an offset of a text.
pub(crate) fn expected_at(text: &str, at: usize) -> Expected
    ensures { result ≡ meaning.expected_at text.now at }
{
    let bytes = text.as_bytes();
    let before = &bytes[..at.min(bytes.len())];
    let deep = front_of(before, 0).depth.count;
    let front = front_of(before, deep);
    if is_nothing(front.last) && at >= bytes.len() {
        Expected::Text
    } else {
        expected_by(front.last, front.depth.kind)
    }
}
