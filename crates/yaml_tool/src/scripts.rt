//! Whole scripts.
ghost use Rattle.std.specs.Prelude.{◌≡◌, ◌≤◌, ◌+◌, ◌-◌, ◌^◌, ℕ, List, ◌++◌, length, map, Some, IfOk, IfErr, OnOk};
ghost use Rattle.yaml_base.specs.scripts.Script as notation;
ghost use Rattle.yaml_emitter.specs.Given.{seen_settings};
ghost use Rattle.yaml_tool.specs.Settings.{seen_setting};
ghost use Rattle.yaml_tool.specs.Scripts.{seen_progress, seen_numbered, nothing_parsed, after_line, script_after_lines, LeavesLastLine, IsFaultOf, IsFaultAt};

use crate::lines::{Line, parse_line};
use crate::settings::{Setting, is_set, settings_of};
use memchr::memchr;
use std::alloc::Allocator;
use yaml_base::yaml_event_t;
use yaml_emitter::Settings;

/// An event and the number of its line.
#[derive(Drop)]
#[derive_where(PartialEq, Eq, Debug)]
pub struct NumberedEvent<A: Allocator> {
    /// The line, counted from 1.
    pub line: u64,
    /// The event.
    pub event: yaml_event_t<A>,
}

/// A parsed script.
#[derive(Drop)]
#[derive_where(PartialEq, Eq, Debug)]
pub struct Script<A: Allocator> {
    /// Its settings.
    pub settings: Settings,
    /// Its events, in order.
    pub events: Vec<NumberedEvent<A>, A>,
}

/// The reason why a script has no meaning.
#[derive(Clone, Copy, PartialEq, Eq, Debug)]
pub enum ScriptError {
    /// Its first bad line, counted from 1.
    BadLine(u64),
    /// An allocation failed.
    OutOfMemory,
}

/// The settings and events of the lines parsed so far.
#[derive(Drop)]
pub(crate) struct Progress<A: Allocator> {
    settings: Vec<Setting, A>,
    events: Vec<NumberedEvent<A>, A>,
}

impl<A: Allocator + Copy> Progress<A> {
    /// Makes the state before the first line.
    pub(crate) fn new(alloc: A) -> Progress<A>
        ensures { seen_progress result ≡ nothing_parsed }
    {
        Progress {
            settings: Vec::new(alloc),
            events: Vec::new(alloc),
        }
    }
}

impl<A: Allocator + Copy> Progress<A> {
    /// Parses a line, and adds its setting or its event.
    ///
    /// # Errors
    ///
    /// `BadLine` with the line's number if it is bad or not allowed there, and `OutOfMemory` if an allocation fails.
    fn add_line(&mut self, alloc: A, number: u64, bytes: &[u8]) -> Result<(), ScriptError>
        ensures taken { OnOk result (after_line number (seen_progress self.old) bytes.now ≡ Some (seen_progress self.new)) }
        ensures fault { IfErr result (λ error. IsFaultAt error number (after_line number (seen_progress self.old) bytes.now)) }
    {
        let Ok(line) = parse_line(alloc, bytes) else {
            return Err(ScriptError::OutOfMemory);
        };
        match line {
            Some(Line::Nothing) => Ok(()),
            Some(Line::Sets(setting)) => {
                // A setting may follow no event, and no setting of the same name.
                if !self.events.is_empty() || is_set(setting, self.settings.as_slice()) {
                    return Err(ScriptError::BadLine(number));
                }
                match self.settings.push(setting) {
                    Ok(()) => Ok(()),
                    Err(_) => Err(ScriptError::OutOfMemory),
                }
            }
            Some(Line::Gives(event)) => {
                let numbered = NumberedEvent {
                    line: number,
                    event,
                };
                match self.events.push(numbered) {
                    Ok(()) => Ok(()),
                    Err(_) => Err(ScriptError::OutOfMemory),
                }
            }
            None => Err(ScriptError::BadLine(number)),
        }
    }
}

/// Parses a script.
///
/// # Errors
///
/// `BadLine` with the number of the first bad line, and `OutOfMemory` if an allocation fails.
pub fn read_script<A: Allocator + Copy>(alloc: A, bytes: &[u8]) -> Result<Script<A>, ScriptError>
    ensures understood { IfOk result
        (λ script. notation.script_of bytes.now ≡ notation.understood (seen_settings script.settings) (map seen_numbered script.events.items)) }
    ensures fault { IfErr result (λ error. IsFaultOf error (notation.script_of bytes.now)) }
{
    finish(alloc, Progress::new(alloc), 1, bytes)
}

/// Parses all lines that end with LF. Returns the number and the bytes of the line after them.
pub(crate) fn take_lines<'a, A: Allocator + Copy>(
    alloc: A,
    progress: &mut Progress<A>,
    number: u64,
    bytes: &'a [u8],
) -> Result<(u64, &'a [u8]), ScriptError>
    requires { number + length bytes.now ≤ 2 ^ 64 - 1 }
    ensures taken { IfOk result (λ last. LeavesLastLine number (seen_progress progress.old) bytes.now last.0 (seen_progress progress.new) last.1.now) }
    ensures fault { IfErr result (λ error. (more : List ℕ) → IsFaultOf error (script_after_lines number (seen_progress progress.old) (bytes.now ++ more))) }
{
    let mut number = number;
    let mut rest = bytes;
    while let Some(end) = memchr(b'\n', rest) {
        progress.add_line(alloc, number, &rest[..end])?;
        rest = &rest[end + 1..];
        number += 1;
    }
    Ok((number, rest))
}

/// Parses the rest of a script, and returns the whole.
pub(crate) fn finish<A: Allocator + Copy>(
    alloc: A,
    progress: Progress<A>,
    number: u64,
    bytes: &[u8],
) -> Result<Script<A>, ScriptError>
    requires { number + length bytes.now ≤ 2 ^ 64 - 1 }
    ensures understood { IfOk result
        (λ script. script_after_lines number (seen_progress progress) bytes.now
        ≡ notation.understood (seen_settings script.settings) (map seen_numbered script.events.items)) }
    ensures fault { IfErr result (λ error. IsFaultOf error (script_after_lines number (seen_progress progress) bytes.now)) }
{
    let mut progress = progress;
    let (number, last) = take_lines(alloc, &mut progress, number, bytes)?;
    progress.add_line(alloc, number, last)?;
    Ok(Script {
        settings: settings_of(progress.settings.as_slice()),
        events: progress.events,
    })
}
