//! The path to a serializer's place within its value.
use crate::error::Error;
use crate::scalars::Scalar;
use std::alloc::{AllocError, Global};
use std::fmt::{Display, Write};
use std::str;

/// The kind of a level of the path.
#[derive(Clone, Copy)]
pub(crate) enum LevelKind {
    Sequence,
    Map,
    /// A variant with a tag, or a flattened map: it has neither a start nor an end of its own.
    Unwritten,
}

/// The step from a level to the node that is written next.
#[derive(Clone, Copy)]
enum Step {
    /// Nothing: it has no entry, or the entry is whole.
    Between,
    /// The next node is a key.
    InKey,
    /// A key, whose text ends at this byte of the keys.
    Key(usize),
    /// A key that is neither a text nor an integer.
    OtherKey,
    /// The item of this index.
    Item(usize),
}

#[derive(Clone, Copy)]
struct Level {
    kind: LevelKind,
    step: Step,
    /// The place at which its key begins among the bytes of all keys.
    start: usize,
}

/// The path to a serializer's place within its value.
#[derive(Drop)]
pub(crate) struct Path {
    alloc: Global,
    /// The innermost last.
    levels: Vec<Level>,
    /// The keys of all levels, in UTF-8, one after another.
    keys: Vec<u8>,
}

impl Path {
    pub(crate) fn new(alloc: Global) -> Path {
        Path {
            alloc,
            levels: Vec::new(alloc),
            keys: Vec::new(alloc),
        }
    }

    pub(crate) fn enter(&mut self, kind: LevelKind) -> Result<(), Error> {
        let step = match kind {
            LevelKind::Sequence => Step::Item(0),
            LevelKind::Map | LevelKind::Unwritten => Step::Between,
        };
        let start = self.keys.len();
        self.levels.push(Level { kind, step, start })?;
        Ok(())
    }

    /// Leaves the innermost level, if there is one, and returns whether it is one that has no end of its own.
    pub(crate) fn leave(&mut self) -> bool {
        match self.levels.pop() {
            Some(level) => {
                self.keys.truncate(level.start);
                matches!(level.kind, LevelKind::Unwritten)
            }
            None => false,
        }
    }

    /// Says that the next node is a key.
    pub(crate) fn begin_key(&mut self) {
        if let Some(level) = self.levels.last_mut() {
            level.step = Step::InKey;
            self.keys.truncate(level.start);
        }
    }

    /// Passes a node that is whole.
    pub(crate) fn pass(&mut self) {
        if let Some(level) = self.levels.last_mut() {
            level.step = match level.step {
                Step::InKey => Step::OtherKey,
                Step::Item(index) => Step::Item(index.saturating_add(1)),
                Step::Between | Step::Key(_) | Step::OtherKey => Step::Between,
            };
        }
    }

    /// Passes a text, which is kept if it is a key.
    pub(crate) fn pass_text(&mut self, text: &str) -> Result<(), Error> {
        if !self.is_in_key() {
            self.pass();
            return Ok(());
        }
        self.keys.extend_from_slice(text.as_bytes())?;
        let end = self.keys.len();
        if let Some(level) = self.levels.last_mut() {
            level.step = Step::Key(end);
        }
        Ok(())
    }

    /// Passes a node that is neither a text nor a collection: an integer is kept if it is a key.
    pub(crate) fn pass_scalar(&mut self, scalar: Scalar<'_>) -> Result<(), Error> {
        match scalar {
            Scalar::Int(value) => self.pass_integer(&value),
            Scalar::Unsigned(value) => self.pass_integer(&value),
            Scalar::WideInt(value) => self.pass_integer(&value),
            Scalar::WideUnsigned(value) => self.pass_integer(&value),
            _ => {
                self.pass();
                Ok(())
            }
        }
    }

    /// Passes an integer, which is kept if it is a key.
    fn pass_integer<T: Display>(&mut self, value: &T) -> Result<(), Error> {
        if self.is_in_key() {
            let text = text_of(self.alloc, value)?;
            return self.pass_text(text.as_str());
        }
        self.pass();
        Ok(())
    }

    fn is_in_key(&self) -> bool {
        match self.levels.last() {
            Some(level) => matches!(level.step, Step::InKey),
            None => false,
        }
    }

    /// Returns an answer, of whose error this is the path.
    pub(crate) fn located(&self, answer: Result<(), Error>) -> Result<(), Error> {
        match answer {
            Ok(()) => Ok(()),
            Err(Error { cause, .. }) => Err(Error {
                cause,
                path: self.to_text(),
            }),
        }
    }

    /// Returns the path as a text; `None` if it is empty, or there is no memory for it.
    fn to_text(&self) -> Option<String> {
        let mut text = String::new(self.alloc);
        for level in &self.levels {
            self.append(level, &mut text).ok()?;
        }
        if text.is_empty() { None } else { Some(text) }
    }

    /// Appends the step from a level.
    fn append(&self, level: &Level, text: &mut String) -> Result<(), AllocError> {
        match level.step {
            Step::Between | Step::InKey => Ok(()),
            Step::Item(index) => write!(text, "[{index}]"),
            Step::Key(end) => append_key(self.keys.get(level.start..end), text),
            Step::OtherKey => append_key(None, text),
        }
    }
}

/// Returns the text that a value prints.
pub(crate) fn text_of<T: Display>(alloc: Global, value: &T) -> Result<String, AllocError> {
    format!(in alloc; "{value}")
}

/// Appends a key; `?` if it is unknown.
fn append_key(key: Option<&[u8]>, text: &mut String) -> Result<(), AllocError> {
    if !text.is_empty() {
        text.push('.')?;
    }
    let key = match key {
        Some(key) => str::from_utf8(key).unwrap_or("?"),
        None => "?",
    };
    text.push_str(key)
}
