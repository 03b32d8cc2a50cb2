//! Keys of more parts than are read.
ghost use Rattle.std.specs.Prelude.{◌≡◌, ◌<◌, None, Some, drop, length, true, ℕ, List};
ghost use Rattle.std.specs.List.{prefix_len};
ghost use Rattle.toml_parser.specs.Lexical.{first, is_bare};
ghost use Rattle.toml_parser.specs.Strings.{key, starts_string};
ghost use Rattle.toml_ordered.specs.Nesting.{KeyTells, PassesPart};

use crate::fault::{Fault, not_toml, too_deep};
use crate::syntax::SyntaxError;
use std::alloc::Global;
use toml_parser::bytes::is_bare;
use toml_parser::text::{byte_at, first, skip, skip_ws};
use toml_parser::{RECURSION_LIMIT, quoted, starts_string};

/// Returns why no key of at most 80 parts is read here: `TooDeep` if a key of more begins here.
#[cold]
pub(crate) fn refused_key(alloc: Global, s: &str) -> Fault
    requires { key s.now ≡ None }
    ensures { KeyTells s.now result }
{
    let mut rest = s;
    let mut dots = 0;
    'parts: loop {
        let after = match past_part(alloc, rest) {
            Ok(after) => after,
            Err(fault) => return fault,
        };
        let next = skip_ws(after);
        if first(next) != b'.' {
            if dots < RECURSION_LIMIT {
                return not_toml(next, SyntaxError::Other);
            }
            return too_deep(s);
        }
        dots += 1;
        rest = skip_ws(skip(next, 1));
    }
}

/// Passes a part of a key, and returns the rest.
fn past_part(alloc: Global, s: &str) -> Result<&str, Fault>
    ensures { PassesPart s.now result }
{
    let byte = first(s);
    if is_bare(byte) {
        return Ok(past_bare(s));
    }
    if starts_string(s) {
        return past_string(alloc, s);
    }
    Err(not_toml(s, SyntaxError::Key))
}

/// Passes a string that is a part of a key, and returns the rest.
fn past_string(alloc: Global, s: &str) -> Result<&str, Fault>
    requires { starts_string s.now ≡ true }
    ensures { PassesPart s.now result }
{
    let byte = first(s);
    // A key has no strings of several lines: two delimiters are an empty string.
    if byte_at(s, 1) == byte {
        return Ok(skip(s, 2));
    }
    let (text, rest) = match quoted(alloc, s) {
        Ok(read) => read,
        Err(error) => return Err(Fault::from(error)),
    };
    drop(text);
    Ok(rest)
}

/// Passes the bytes of a part without quotes, and returns the rest.
fn past_bare(s: &str) -> &str
    requires { is_bare (first s.now) ≡ true }
    ensures rest { result.now ≡ drop (prefix_len is_bare s.now) s.now }
    ensures shorter { length result.now < length s.now }
{
    let mut rest = skip(s, 1);
    'bytes: while is_bare(first(rest)) {
        rest = skip(rest, 1);
    }
    rest
}
