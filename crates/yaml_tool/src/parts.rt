//! Scripts read part by part: only a part and the last line are held at once.
ghost use Rattle.std.specs.Prelude.{◌≡◌, ℕ, false, List, [], ◌++◌, map, IfOk, IfErr, OnOk, IfSome};
ghost use Rattle.std.specs.Io.KnownBytes.{IsAtEnd};
ghost use Rattle.yaml_base.specs.scripts.Script as notation;
ghost use Rattle.yaml_emitter.specs.Given.{seen_settings};
ghost use Rattle.yaml_tool.specs.Runs.{IsFault, ReadsAll};
ghost use Rattle.yaml_tool.specs.Scripts.{seen_numbered, script_with, ContinuesScript, IsFaultOf};

use crate::answers::run_answer_t;
use crate::scripts::{Progress, Script, ScriptError, finish, take_lines};
use memchr::memchr;
use std::alloc::Allocator;
use std::io::{ErrorKind, Read};

/// The size of a part in bytes.
const PART_SIZE: usize = 16_384;

/// A script of which a prefix was read.
#[derive(Drop)]
struct ScriptPrefix<A: Allocator> {
    /// The settings and events of the lines before the last.
    progress: Progress<A>,
    /// The last line's number.
    number: u64,
    /// The last line, as far as it was read.
    line: Vec<u8, A>,
}

impl<A: Allocator + Copy> ScriptPrefix<A> {
    /// Makes the state before anything was read.
    fn new(alloc: A) -> ScriptPrefix<A>
        ensures { (bytes : List ℕ) → script_with result bytes ≡ notation.script_of bytes }
    {
        ScriptPrefix {
            progress: Progress::new(alloc),
            number: 1,
            line: Vec::new(alloc),
        }
    }

    /// Appends the next part, and parses the lines that end in it. A long line is searched at most twice.
    fn take_part(&mut self, alloc: A, part: &[u8]) -> Result<(), ScriptError>
        ensures taken { OnOk result ((more : List ℕ) → script_with self.old (part.now ++ more) ≡ script_with self.new more) }
        ensures fault { IfErr result (λ error. (more : List ℕ) → IsFaultOf error (script_with self.old (part.now ++ more))) }
    {
        let Ok(()) = self.line.extend_from_slice(part) else {
            return Err(ScriptError::OutOfMemory);
        };
        if memchr(b'\n', part).is_none() {
            return Ok(());
        }
        if self.line.len() as u64 > u64::MAX - self.number {
            return Err(ScriptError::OutOfMemory);
        }
        let (number, last) = take_lines(
            alloc,
            &mut self.progress,
            self.number,
            self.line.as_slice(),
        )?;
        // The vector keeps its capacity.
        let Ok(last) = Vec::from_slice(alloc, last) else {
            return Err(ScriptError::OutOfMemory);
        };
        self.number = number;
        self.line.clear();
        match self.line.extend_from_slice(last.as_slice()) {
            Ok(()) => Ok(()),
            Err(_) => Err(ScriptError::OutOfMemory),
        }
    }

    /// Parses the last line, and returns the whole script.
    fn finish(self, alloc: A) -> Result<Script<A>, ScriptError>
        ensures understood { IfOk result
            (λ script. script_with self [] ≡ notation.understood (seen_settings script.settings) (map seen_numbered script.events.items)) }
        ensures fault { IfErr result (λ error. IsFaultOf error (script_with self [])) }
    {
        if self.line.len() as u64 > u64::MAX - self.number {
            return Err(ScriptError::OutOfMemory);
        }
        finish(alloc, self.progress, self.number, self.line.as_slice())
    }
}

/// Reads the input after a bad line to its end, and returns the result of the run.
fn after_fault<R: Read>(reader: &mut R, error: ScriptError) -> run_answer_t
    ensures fault { (script : notation.Script) → IsFaultOf error script → IsFault result script }
    ensures read { ReadsAll result (R.remaining reader.new) }
{
    let ScriptError::BadLine(line) = error else {
        return run_answer_t::NoMemory;
    };
    let mut part = [0; PART_SIZE];
    // A reader may never end, so the reads are counted.
    let mut turns = u64::MAX;
    while turns > 0 {
        turns -= 1;
        match reader.read(&mut part) {
            Ok(0) => return run_answer_t::BadLine(line),
            Ok(_) => {}
            Err(error) => {
                if error.kind() != ErrorKind::Interrupted {
                    return run_answer_t::ReadFailed;
                }
            }
        }
    }
    run_answer_t::ReadFailed
}

/// Reads a part and parses it. Returns whether more may follow. After a bad line the input is read to its end.
fn read_part<A: Allocator + Copy, R: Read>(
    alloc: A,
    reader: &mut R,
    script: &mut ScriptPrefix<A>,
) -> Result<bool, run_answer_t>
    ensures goes_on { OnOk result (ContinuesScript script.old (R.remaining reader.old) script.new (R.remaining reader.new)) }
    ensures end { IfOk result (λ more. more ≡ false → IsAtEnd (R.remaining reader.new)) }
    ensures fault { IfErr result (λ answer. IfSome (R.remaining reader.old) (λ left. IsFault answer (script_with script.old left))) }
    ensures read { IfErr result (λ answer. ReadsAll answer (R.remaining reader.new)) }
{
    let mut part = [0; PART_SIZE];
    match reader.read(&mut part) {
        Ok(count) => match script.take_part(alloc, &part[..count]) {
            Ok(()) => Ok(count > 0),
            Err(error) => Err(after_fault(reader, error)),
        },
        Err(error) => match error.kind() {
            ErrorKind::Interrupted => Ok(true),
            ErrorKind::OutOfMemory => Err(run_answer_t::NoMemory),
            _ => Err(run_answer_t::ReadFailed),
        },
    }
}

/// Parses a script, and reads it to its end even if a line is bad.
///
/// # Errors
///
/// `BadLine` with the number of the first bad line, `ReadFailed` if the reader fails, `NoMemory` if memory runs out.
pub fn read_script_from<A: Allocator + Copy, R: Read>(
    alloc: A,
    reader: &mut R,
) -> Result<Script<A>, run_answer_t>
    ensures understood { IfOk result
        (λ script. IfSome (R.remaining reader.old)
        (λ left. notation.script_of left ≡ notation.understood (seen_settings script.settings) (map seen_numbered script.events.items))) }
    ensures fault { IfErr result (λ answer. IfSome (R.remaining reader.old) (λ left. IsFault answer (notation.script_of left))) }
    ensures end { OnOk result (IsAtEnd (R.remaining reader.new)) }
    ensures read { IfErr result (λ answer. ReadsAll answer (R.remaining reader.new)) }
{
    let mut script = ScriptPrefix::new(alloc);
    // A reader may never end, so the reads are counted.
    let mut turns = u64::MAX;
    'parts: while turns > 0 {
        turns -= 1;
        if !read_part(alloc, reader, &mut script)? {
            return match script.finish(alloc) {
                Ok(script) => Ok(script),
                Err(ScriptError::BadLine(line)) => Err(run_answer_t::BadLine(line)),
                Err(ScriptError::OutOfMemory) => Err(run_answer_t::NoMemory),
            };
        }
    }
    Err(run_answer_t::ReadFailed)
}
