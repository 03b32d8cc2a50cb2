//! The settings of a caller, and those in effect from the stream's start on.

ghost use Rattle.std.specs.Prelude.{◌≡◌, ◌≤◌, pos, ◌≤ℤ◌, IsSome, Some};
ghost use Rattle.yaml_base.specs.Settings.{effective, effective_indent, effective_width, nothing_given};
ghost use Rattle.yaml_base.specs.Seen.{seen_encoding, seen_break};
ghost use Rattle.yaml_emitter.specs.Given.{seen_width, seen_settings, seen_effective};

use crate::effective::EffectiveSettings;
use yaml_base::{
    YAML_ANY_BREAK, YAML_ANY_ENCODING, YAML_LN_BREAK, YAML_UTF8_ENCODING, yaml_break_t,
    yaml_encoding_t,
};

/// The quotes of a scalar that isn't plain and that both kinds can hold.
#[derive(Clone, Copy, PartialEq, Eq, Debug)]
pub enum Quotes {
    Single,
    Double,
}

/// The settings given to an emitter before its stream. The default is what a new emitter has, as in libyaml.
#[derive(Clone, Copy, PartialEq, Eq, Debug)]
pub struct Settings {
    /// The encoding; ANY means that of the stream's start, or else UTF-8.
    pub encoding: yaml_encoding_t,
    /// One form for each content: flow collections, double quotes, all tags.
    pub canonical: bool,
    /// Printable characters beyond ASCII are written unescaped.
    pub unicode: bool,
    /// The quotes of a scalar that both can hold.
    pub quotes: Quotes,
    /// Columns per level, 2 to 9; any other number, and `None`, counts as 2.
    pub indent: Option<i32>,
    /// The column, in characters, past which lines are folded. A negative one means no limit. One up to twice the indent, and
    /// `None`, counts as 80.
    pub width: Option<i32>,
    /// The break that ends a line; ANY means LF.
    pub line_break: yaml_break_t,
    /// U+2028 and U+2029 are escaped, since they aren't line breaks in YAML 1.2.
    pub line_breaks_1_2: bool,
    /// Text that readers of YAML read differently is written in a form that they read alike.
    pub portable: bool,
    /// Block sequences in a mapping are indented, as other block collections are.
    pub indented_sequences: bool,
    /// A scalar for which literal is asked is literal even if it holds tabs, or spaces before a break or at its end.
    pub literal_blanks: bool,
    /// The maximum output size in bytes.
    pub limit: usize,
}

/// Sets nothing; the limit is the largest `usize`.
impl Default for Settings {
    ghost is_default = { λ settings. seen_settings settings ≡ nothing_given };

    fn default() -> Self {
        Settings {
            encoding: YAML_ANY_ENCODING,
            canonical: false,
            unicode: false,
            quotes: Quotes::Single,
            indent: None,
            width: None,
            line_break: YAML_ANY_BREAK,
            line_breaks_1_2: false,
            portable: false,
            indented_sequences: false,
            literal_blanks: false,
            limit: usize::MAX,
        }
    }
}

/// Returns the indent in force: 2 to 9 is kept, any other number becomes 2.
fn indent_of(given: Option<i32>) -> u32
    ensures gives { result ≡ effective_indent given }
    ensures low { 2 ≤ result }
    ensures high { result ≤ 9 }
{
    match given {
        Some(indent) if 2 <= indent && indent <= 9 => indent as u32,
        _ => 2,
    }
}

/// Returns the width in force: a negative one means no limit; one up to twice the indent becomes 80.
fn width_of(given: Option<i32>, indent: u32) -> i32
    requires { indent ≤ 9 }
    ensures gives { seen_width result ≡ effective_width given indent }
    ensures counts { pos 0 ≤ℤ result }
{
    let least = 2 * indent as i32;
    match given {
        None => 80,
        Some(width) if width < 0 => i32::MAX,
        Some(width) if width <= least => 80,
        Some(width) => width,
    }
}

impl Settings {
    /// Returns the settings in effect for a stream whose start has this encoding.
    pub(crate) fn effective(&self, of_stream: yaml_encoding_t) -> EffectiveSettings
        ensures gives { seen_effective result ≡ effective (seen_settings self.now) (seen_encoding of_stream) }
        ensures encoding { IsSome (seen_encoding result.encoding) }
        ensures line_break { IsSome (seen_break result.line_break) }
    {
        let indent = indent_of(self.indent);
        EffectiveSettings {
            encoding: match (self.encoding, of_stream) {
                (YAML_ANY_ENCODING, YAML_ANY_ENCODING) => YAML_UTF8_ENCODING,
                (YAML_ANY_ENCODING, other) => other,
                (own, _) => own,
            },
            canonical: self.canonical,
            unicode: self.unicode,
            double_quotes: matches!(self.quotes, Quotes::Double),
            indent,
            width: width_of(self.width, indent),
            line_break: match self.line_break {
                YAML_ANY_BREAK => YAML_LN_BREAK,
                other => other,
            },
            breaks12: self.line_breaks_1_2,
            portable: self.portable,
            indented_sequences: self.indented_sequences,
            literal_blanks: self.literal_blanks,
            limit: self.limit,
        }
    }
}
