//! The settings of a script before its first event.
ghost use Rattle.std.specs.Prelude.{◌≡◌, map, option_map};
ghost use Rattle.std.specs.List.{list_any};
ghost use Rattle.std.specs.Str.{chars};
ghost use Rattle.yaml_base.specs.scripts.Script as notation;
ghost use Rattle.yaml_emitter.specs.Given.{seen_settings};
ghost use Rattle.yaml_tool.specs.Settings.{seen_setting, sets_same};

use crate::numbers::{number_up_to, signed_number};
use crate::words::{
    blanks_named, break_named, encoding_named, indentation_named, is_word, switch_named,
};
use yaml_base::{yaml_break_t, yaml_encoding_t};
use yaml_emitter::Settings;

/// A setting's line.
#[derive(Clone, Copy)]
pub enum Setting {
    /// `limit`: the maximum output size in bytes.
    Limit(u32),
    /// `encoding`.
    Encoding(yaml_encoding_t),
    /// `canonical`.
    Canonical(bool),
    /// `unicode`.
    Unicode(bool),
    /// `indent`.
    Indent(i32),
    /// `width`.
    Width(i32),
    /// `break`.
    LineBreak(yaml_break_t),
    /// `breaks12`: the line breaks of YAML 1.2.
    Breaks12(bool),
    /// `portable`: only forms that readers of YAML read alike.
    Portable(bool),
    /// `sequences`: whether sequences in a mapping are indented.
    IndentedSequences(bool),
    /// `blanks`: whether literal text may hold tabs, and spaces at the ends of its lines.
    LiteralBlanks(bool),
}

impl Setting {
    /// Returns the name of the setting.
    pub fn name(self) -> &'static str
        ensures { result.now ≡ notation.setting_name (seen_setting self) }
    {
        match self {
            Setting::Limit(_) => "limit",
            Setting::Encoding(_) => "encoding",
            Setting::Canonical(_) => "canonical",
            Setting::Unicode(_) => "unicode",
            Setting::Indent(_) => "indent",
            Setting::Width(_) => "width",
            Setting::LineBreak(_) => "break",
            Setting::Breaks12(_) => "breaks12",
            Setting::Portable(_) => "portable",
            Setting::IndentedSequences(_) => "sequences",
            Setting::LiteralBlanks(_) => "blanks",
        }
    }

    /// Sets this setting.
    fn apply(self, settings: &mut Settings)
        ensures { seen_settings settings.new ≡ notation.with_setting (seen_settings settings.old) (seen_setting self) }
    {
        match self {
            Setting::Limit(limit) => settings.limit = limit as usize,
            Setting::Encoding(encoding) => settings.encoding = encoding,
            Setting::Canonical(canonical) => settings.canonical = canonical,
            Setting::Unicode(unicode) => settings.unicode = unicode,
            Setting::Indent(indent) => settings.indent = Some(indent),
            Setting::Width(width) => settings.width = Some(width),
            Setting::LineBreak(line_break) => settings.line_break = line_break,
            Setting::Breaks12(breaks12) => settings.line_breaks_1_2 = breaks12,
            Setting::Portable(portable) => settings.portable = portable,
            Setting::IndentedSequences(indented) => settings.indented_sequences = indented,
            Setting::LiteralBlanks(literal) => settings.literal_blanks = literal,
        }
    }
}

/// Returns whether one of these lines has the same name.
pub fn is_set(setting: Setting, lines: &[Setting]) -> bool
    ensures { result ≡ list_any (sets_same (seen_setting setting)) (map seen_setting lines.now) }
{
    for line in lines {
        if setting.name() == line.name() {
            return true;
        }
    }
    false
}

/// Parses the value of a setting by its name; `None` if there is no such setting, or it has no such value.
pub fn setting_of(name: &str, value: &str) -> Option<Setting>
    ensures { option_map seen_setting result ≡ notation.setting_of (chars name.now) (chars value.now) }
{
    if is_word(name, "limit") {
        number_up_to(u32::MAX, value).map(Setting::Limit)
    } else if is_word(name, "encoding") {
        encoding_named(value).map(Setting::Encoding)
    } else if is_word(name, "canonical") {
        switch_named(value).map(Setting::Canonical)
    } else if is_word(name, "unicode") {
        switch_named(value).map(Setting::Unicode)
    } else if is_word(name, "indent") {
        signed_number(value).map(Setting::Indent)
    } else if is_word(name, "width") {
        signed_number(value).map(Setting::Width)
    } else if is_word(name, "break") {
        break_named(value).map(Setting::LineBreak)
    } else if is_word(name, "breaks12") {
        switch_named(value).map(Setting::Breaks12)
    } else if is_word(name, "portable") {
        switch_named(value).map(Setting::Portable)
    } else if is_word(name, "sequences") {
        indentation_named(value).map(Setting::IndentedSequences)
    } else if is_word(name, "blanks") {
        blanks_named(value).map(Setting::LiteralBlanks)
    } else {
        None
    }
}

/// Returns the settings of several lines. A script that sets nothing has a limit.
pub fn settings_of(lines: &[Setting]) -> Settings
    ensures { seen_settings result ≡ notation.settings_of notation.unset (map seen_setting lines.now) }
{
    let mut settings = Settings {
        limit: 1_000_000_000,
        ..Settings::default()
    };
    for line in lines {
        line.apply(&mut settings);
    }
    settings
}
