//! The characters that plain text may not hold, or not everywhere, and those that every text may.
ghost use Rattle.std.specs.Prelude.{◌≡◌, ◌==◌, ◌||◌, codes};
ghost use Rattle.yaml_base.specs.scalars.Analysis as spec;
ghost use Rattle.yaml_base.specs.Characters as class;
ghost use Rattle.yaml_scalar.specs.Barred.{is_ordinary};

use yaml_base::{is_blank, is_break};

/// Returns whether a character is a blank, a break or NUL.
pub(crate) fn is_gap(c: char) -> bool
    ensures { result ≡ spec.is_gap c }
{
    is_blank(c) || is_break(c) || c == '\0'
}

/// Returns whether no plain text begins with this character, or only with certain characters after it.
pub(crate) fn is_indicator(c: char) -> bool
    ensures { result ≡ spec.is_indicator c }
{
    matches!(
        c,
        '#' | ','
            | '['
            | ']'
            | '{'
            | '}'
            | '&'
            | '*'
            | '!'
            | '|'
            | '>'
            | '\''
            | '"'
            | '%'
            | '@'
            | '`'
    )
}

/// Returns whether no plain text in flow holds this character.
pub(crate) fn is_flow_indicator(c: char) -> bool
    ensures { result ≡ class.is_among (codes ",?:[]{}") c }
{
    matches!(c, ',' | '?' | ':' | '[' | ']' | '{' | '}')
}

/// Returns whether a character is a letter or a digit, which every text may hold.
pub(crate) fn is_ordinary(c: char) -> bool
    ensures { result ≡ is_ordinary c }
{
    matches!(c, 'a'..='z' | 'A'..='Z' | '0'..='9')
}
