//! The files and streams that the program reads.
ghost use Rattle.std.specs.IoError.{error_kind};
ghost use Rattle.std.specs.Prelude.{◌≡◌, ℕ, List, Option, None, Some, IfErr, IfOk, IfSome, MatchOption};

use std::fs::File;
use std::io;
use std::io::{ErrorKind, Read, Stdin};

/// The name of standard input among the files that are read, and of standard output as the file that is written.
pub const STREAM: &str = "-";

/// A source of files, by name.
pub trait Sources {
    // The bytes of what has a name, if they are known.
    ghost bytes_of: { Self → List ℕ → Option (List ℕ) } = { λ _ _. None };

    type Reader: Read + Drop;

    /// Returns a reader of what has this name. What is known isn't missing.
    fn open(&self, name: &str) -> io::Result<Self::Reader>
        ensures known { IfOk result (λ reader. IfSome (bytes_of self.now name.now) (λ bytes. Self.Reader.remaining reader ≡ Some bytes)) }
        ensures missing { IfErr result (λ error. error_kind error ≡ ErrorKind.NotFound → bytes_of self.now name.now ≡ None) };
}

/// A file, or standard input.
#[derive(Drop)]
pub enum Source {
    Stream(Stdin),
    File(File),
}

impl Read for Source {
    fn read(&mut self, buf: &mut [u8]) -> io::Result<usize> {
        match self {
            Source::Stream(stream) => stream.read(buf),
            Source::File(file) => file.read(buf),
        }
    }
}

/// The files of the system, and standard input for its name.
impl Sources for HostRuntime {
    type Reader = Source;

    fn open(&self, name: &str) -> io::Result<Source> {
        if name == STREAM {
            return Ok(Source::Stream(self.stdin()));
        }
        match File::open(self, name) {
            Ok(file) => Ok(Source::File(file)),
            Err(error) => Err(error),
        }
    }
}

/// Returns all bytes of what has this name, or `None` if nothing has it.
///
/// # Errors
///
/// That of opening or reading it.
pub fn read_if_there<S: Sources + AllocGlobal>(
    sources: &S,
    name: &str,
) -> io::Result<Option<Vec<u8>>>
    ensures { IfOk result (λ found. MatchOption found (S.bytes_of sources.now name.now ≡ None)
        (λ bytes. (there : List ℕ) → S.bytes_of sources.now name.now ≡ Some there → bytes.items ≡ there)) }
{
    let mut bytes = Vec::new(sources.alloc());
    match sources.open(name) {
        Ok(mut reader) => match reader.read_to_end(&mut bytes) {
            Ok(_) => Ok(Some(bytes)),
            Err(error) => Err(error),
        },
        Err(error) if error.kind() == ErrorKind::NotFound => Ok(None),
        Err(error) => Err(error),
    }
}

/// Returns all bytes of what has this name.
///
/// # Errors
///
/// That of opening or reading it.
pub fn read_file<S: Sources + AllocGlobal>(sources: &S, name: &str) -> io::Result<Vec<u8>>
    ensures { IfOk result (λ bytes. (there : List ℕ) → S.bytes_of sources.now name.now ≡ Some there → bytes.items ≡ there) }
{
    let mut bytes = Vec::new(sources.alloc());
    match sources.open(name) {
        Ok(mut reader) => match reader.read_to_end(&mut bytes) {
            Ok(_) => Ok(bytes),
            Err(error) => Err(error),
        },
        Err(error) => Err(error),
    }
}
