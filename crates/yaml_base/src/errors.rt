//! The errors of the emitter's calls.
ghost use Rattle.std.specs.Prelude.{◌≡◌, Some};
ghost use Rattle.yaml_base.specs.Errors.{error_type_of, problem_text, display_text};

use std::error::Error;
use std::fmt;

/// The layer that a refusal comes from.
#[derive(Clone, Copy, PartialEq, Eq, Debug)]
pub enum yaml_error_type_t {
    /// A growth was refused.
    YAML_MEMORY_ERROR,
    /// The output passed its limit.
    YAML_WRITER_ERROR,
    /// The events, or what they hold, can't be written.
    YAML_EMITTER_ERROR,
}

/// The reason why a call was refused.
#[derive(Clone, Copy, PartialEq, Eq, Debug)]
pub enum yaml_error_t {
    /// The first event isn't STREAM-START.
    ExpectedStreamStart,
    /// Between documents another event than DOCUMENT-START or STREAM-END.
    ExpectedDocumentStart,
    /// After a document's root another event than DOCUMENT-END.
    ExpectedDocumentEnd,
    /// An event that begins no node, at a place that needs a node.
    ExpectedNode,
    /// An event after STREAM-END.
    ExpectedNothing,
    /// A version other than 1.1 and 1.2.
    IncompatibleVersion,
    /// An empty tag handle.
    TagHandleEmpty,
    /// A tag handle that doesn't start with `!`.
    TagHandleStart,
    /// A tag handle that doesn't end with `!`.
    TagHandleEnd,
    /// Between the two `!` of a tag handle another character than `0-9`, `A-Z`, `a-z`, `_` and `-`.
    TagHandleAlphabet,
    /// An empty tag prefix.
    TagPrefixEmpty,
    /// A tag handle that the document gave before.
    DuplicateDirective,
    /// An empty anchor.
    AnchorEmpty,
    /// In an anchor another character than `0-9`, `A-Z`, `a-z`, `_` and `-`.
    AnchorAlphabet,
    /// An empty alias.
    AliasEmpty,
    /// In an alias another character than `0-9`, `A-Z`, `a-z`, `_` and `-`.
    AliasAlphabet,
    /// An empty tag that would have to be written.
    TagEmpty,
    /// A scalar whose tag isn't written and whose two implicit flags are off.
    NoTagNorImplicit,
    /// More than 1,000,000 collections open at once.
    TooDeep,
    /// The encoded text passes the output's limit.
    WriteError,
    /// A growth was refused.
    Memory,
}

impl yaml_error_t {
    /// Returns the layer that the refusal comes from.
    pub fn kind(self) -> yaml_error_type_t
        ensures { result ≡ error_type_of self }
    {
        match self {
            yaml_error_t::WriteError => yaml_error_type_t::YAML_WRITER_ERROR,
            yaml_error_t::Memory => yaml_error_type_t::YAML_MEMORY_ERROR,
            _ => yaml_error_type_t::YAML_EMITTER_ERROR,
        }
    }

    /// Returns the text of the refusal; empty for a refused growth.
    pub fn problem(self) -> &'static str
        ensures { result.now ≡ problem_text self }
    {
        match self {
            yaml_error_t::ExpectedStreamStart => "expected STREAM-START",
            yaml_error_t::ExpectedDocumentStart => "expected DOCUMENT-START or STREAM-END",
            yaml_error_t::ExpectedDocumentEnd => "expected DOCUMENT-END",
            yaml_error_t::ExpectedNode =>
                "expected SCALAR, SEQUENCE-START, MAPPING-START, or ALIAS",
            yaml_error_t::ExpectedNothing => "expected nothing after STREAM-END",
            yaml_error_t::IncompatibleVersion => "incompatible %YAML directive",
            yaml_error_t::TagHandleEmpty => "tag handle must not be empty",
            yaml_error_t::TagHandleStart => "tag handle must start with '!'",
            yaml_error_t::TagHandleEnd => "tag handle must end with '!'",
            yaml_error_t::TagHandleAlphabet =>
                "tag handle must contain alphanumerical characters only",
            yaml_error_t::TagPrefixEmpty => "tag prefix must not be empty",
            yaml_error_t::DuplicateDirective => "duplicate %TAG directive",
            yaml_error_t::AnchorEmpty => "anchor value must not be empty",
            yaml_error_t::AnchorAlphabet =>
                "anchor value must contain alphanumerical characters only",
            yaml_error_t::AliasEmpty => "alias value must not be empty",
            yaml_error_t::AliasAlphabet =>
                "alias value must contain alphanumerical characters only",
            yaml_error_t::TagEmpty => "tag value must not be empty",
            yaml_error_t::NoTagNorImplicit => "neither tag nor implicit flags are specified",
            yaml_error_t::TooDeep => "nesting too deep",
            yaml_error_t::WriteError => "write error",
            yaml_error_t::Memory => "",
        }
    }
}

/// The problem's text; `out of memory` for a refused growth.
impl fmt::Display for yaml_error_t {
    ghost output = { λ error. Some (display_text error) };

    fn fmt<W: fmt::Write>(&self, f: &mut fmt::Formatter<W>) -> fmt::Result {
        match self {
            yaml_error_t::Memory => f.write_str("out of memory"),
            error => f.write_str(error.problem()),
        }
    }
}

/// Lets `?` turn it into a caller's own error.
impl Error for yaml_error_t {}
