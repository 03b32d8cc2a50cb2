//! The lines of a script.
ghost use Rattle.std.specs.Prelude.{◌≡◌, option_map, option_and_then, IfOk};
ghost use Rattle.std.specs.Str.{chars};
ghost use Rattle.yaml_base.specs.scripts.Script as notation;
ghost use Rattle.yaml_tool.specs.Fields.{later_fields};
ghost use Rattle.yaml_tool.specs.Settings.{seen_setting};
ghost use Rattle.yaml_tool.specs.Lines.{seen_line};

use crate::characters::{cut_once, first_character};
use crate::events::event_of;
use crate::fields::{last_word, word_after};
use crate::settings::{Setting, setting_of};
use crate::words::event_named;
use std::alloc::{AllocError, Allocator};
use std::str;
use yaml_base::yaml_event_t;

/// The meaning of a line.
#[derive(Drop)]
pub enum Line<A: Allocator> {
    /// Nothing: it is empty or a comment.
    Nothing,
    /// A setting.
    Sets(Setting),
    /// An event.
    Gives(yaml_event_t<A>),
}

/// Parses the value of a setting; `None` if there is no such setting, or it has no such value.
fn parse_setting(name: &str, rest: Option<&str>) -> Option<Setting>
    ensures { option_map seen_setting result ≡ option_and_then (notation.setting_line (chars name.now)) (later_fields rest.entry) }
{
    setting_of(name, last_word(rest)?)
}

/// Parses a line; `None` if it is bad. A line is UTF-8: it is empty, a comment, or begins with the name of a setting or of an
/// event.
///
/// # Errors
///
/// `AllocError` if an allocation fails.
pub fn parse_line<A: Allocator + Copy>(
    alloc: A,
    bytes: &[u8],
) -> Result<Option<Line<A>>, AllocError>
    ensures { IfOk result (λ read. option_map seen_line read ≡ notation.line_understood bytes.now) }
{
    let Ok(line) = str::from_utf8(bytes) else {
        return Ok(None);
    };
    let Some((first, comment)) = first_character(line) else {
        return Ok(Some(Line::Nothing));
    };
    if first == '#' {
        return match cut_once('\r', comment) {
            None => Ok(Some(Line::Nothing)),
            Some(_) => Ok(None),
        };
    }
    let Some((word, rest)) = word_after(Some(line)) else {
        return Ok(None);
    };
    match event_named(word) {
        Some(name) => match event_of(alloc, name, rest)? {
            Some(event) => Ok(Some(Line::Gives(event))),
            None => Ok(None),
        },
        None => match parse_setting(word, rest) {
            Some(setting) => Ok(Some(Line::Sets(setting))),
            None => Ok(None),
        },
    }
}
