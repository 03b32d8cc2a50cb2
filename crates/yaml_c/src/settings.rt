//! The settings of an emitter as a C program gives them.
ghost use Rattle.std.specs.Prelude.{◌≡◌, option_map};
ghost use Rattle.yaml_emitter.specs.Given.{is_double, seen_settings};
ghost use Rattle.yaml_c.specs.Arena.{is_on};
ghost use Rattle.yaml_c.specs.GivenSettings.{depth_given, limit_given, settings_given, values_given, width_given};

use crate::styles::{encoding, line_break};
use yaml_emitter::{Quotes, Settings};
use yaml_writer::{ValueSettings, value_settings};

/// The settings of an emitter, and the number of bytes of its output that the caller has. Zeros are the settings of a new emitter. See
/// the header.
#[repr(C)]
#[derive(Clone, Copy)]
pub struct EmitterSettings {
    pub encoding: u32,
    pub line_break: u32,
    pub canonical: u32,
    pub unicode: u32,
    pub line_breaks_1_2: u32,
    pub portable: u32,
    pub indented_sequences: u32,
    pub double_quotes: u32,
    pub literal_blanks: u32,
    pub indent: i32,
    pub width: i32,
    pub limit: usize,
    pub skip: usize,
}

/// The settings by which values are written, those of JSON and of TOML. Zeros are the defaults. See the header.
#[repr(C)]
#[derive(Clone, Copy)]
pub struct ValueOptions {
    pub flow: u32,
    pub canonical: u32,
    pub ascii_only: u32,
    pub line_breaks_1_2: u32,
    pub allow_unportable: u32,
    pub compact_sequences: u32,
    pub quoted_blanks: u32,
    pub double_quotes: u32,
    pub indent: i32,
    pub width: i32,
    pub depth: usize,
}

/// Returns double quotes if the flag is on, and single ones if it isn't.
fn quotes_from(double_quotes: u32) -> Quotes
    ensures { is_double result ≡ is_on double_quotes }
{
    if double_quotes == 0 {
        Quotes::Single
    } else {
        Quotes::Double
    }
}

fn limit_from(limit: usize) -> usize
    ensures { result ≡ limit_given limit }
{
    if limit == 0 { usize::MAX } else { limit }
}

/// Returns the settings, or `None` if the encoding or the line break has no number of libyaml's.
pub(crate) fn settings_from(given: &EmitterSettings) -> Option<Settings>
    ensures { option_map seen_settings result ≡ settings_given given.now }
{
    Some(Settings {
        portable: given.portable != 0,
        indented_sequences: given.indented_sequences != 0,
        literal_blanks: given.literal_blanks != 0,
        canonical: given.canonical != 0,
        indent: Some(given.indent),
        width: Some(given.width),
        unicode: given.unicode != 0,
        quotes: quotes_from(given.double_quotes),
        line_break: line_break(given.line_break)?,
        line_breaks_1_2: given.line_breaks_1_2 != 0,
        encoding: encoding(given.encoding)?,
        limit: limit_from(given.limit),
    })
}

fn depth_from(depth: usize) -> usize
    ensures { result ≡ depth_given depth }
{
    if depth == 0 { 1_000 } else { depth }
}

fn width_from(width: i32) -> i32
    ensures { result ≡ width_given width }
{
    if width == 0 { -1 } else { width }
}

/// Returns the settings of the emitter that writes values.
fn emitter_settings_from(given: &ValueOptions) -> Settings
    ensures { seen_settings result ≡ values_given given.now }
{
    let mut settings = value_settings();
    settings.canonical = given.canonical != 0;
    settings.unicode = given.ascii_only == 0;
    settings.line_breaks_1_2 = given.line_breaks_1_2 != 0;
    settings.portable = given.allow_unportable == 0;
    settings.indented_sequences = given.compact_sequences == 0;
    settings.literal_blanks = given.quoted_blanks == 0;
    settings.quotes = quotes_from(given.double_quotes);
    settings.indent = Some(given.indent);
    settings.width = Some(width_from(given.width));
    settings
}

pub(crate) fn value_settings_from(given: &ValueOptions) -> ValueSettings
    ensures emitter { seen_settings result.emitter ≡ values_given given.now }
    ensures flow { result.flow ≡ is_on given.now.flow }
    ensures depth { result.depth ≡ depth_given given.now.depth }
{
    ValueSettings {
        emitter: emitter_settings_from(given),
        flow: given.flow != 0,
        depth: depth_from(given.depth),
    }
}
