//! Canonical YAML read as a value.
ghost use Rattle.std.specs.Prelude.{◌≡◌, ◌≢◌, ◌⊎◌, IfErr, IfOk, Some};
ghost use Rattle.yaml_base.specs.Encoding.{encode};
ghost use Rattle.yaml_base.specs.Settings.{utf8};
ghost use Rattle.yaml_base.specs.values.TypedValues.{TypedValue, WritesValue};
ghost use Rattle.yaml_base.specs.graphs.DumpedText.{document_text};
ghost use Rattle.yaml_read.specs.AllowedKeys.{KeysAllow};
ghost use Rattle.yaml_read.specs.HeldKeys.{TextRead};
ghost use Rattle.yaml_read.specs.Readable.{CanBeRead};
ghost use Rattle.yaml_read.specs.RepeatedKeys.{IsPlacedBy};
ghost use Rattle.yaml_read.specs.Stepped.{NodeStepped};
ghost use Rattle.yaml_value.specs.OpenLevels.{seen_levels};
ghost use Rattle.yaml_value.specs.SeenValues.{seen_value};

use crate::cuts::after;
use crate::errors::{KeyStop, ReadError, Stop};
use crate::heads::{Kind, read_scalar, read_tag};
use crate::keys::follow_by;
use crate::levels::{Next, Words, begin, settle};
use crate::positions::{key_error_of, text_of};
use std::alloc::Allocator;
use yaml_value::{Keys, Level, Value};

const LIST_WORDS: Words = Words {
    bracket: "[",
    end: "]",
    lead: "",
};

const MAP_WORDS: Words = Words {
    bracket: "{",
    end: "}",
    lead: "? ",
};

/// Reads the next node, from its tag on.
fn step<'a, A: Allocator + Copy>(
    alloc: A,
    levels: &mut Vec<Level<A>, A>,
    text: &'a str,
) -> Result<Next<'a, A>, Stop>
    ensures { NodeStepped (seen_levels levels.old.items) (seen_levels levels.new.items) text.now result }
{
    match read_tag(text) {
        Ok((kind, behind)) => match kind {
            Kind::List => {
                let level = Level::Items(Vec::new(alloc));
                begin(levels, level, text, behind, &LIST_WORDS)
            }
            Kind::Map => {
                let level = Level::Pairs(Vec::new(alloc));
                begin(levels, level, text, behind, &MAP_WORDS)
            }
            _ => match read_scalar(alloc, kind, behind) {
                Ok((value, rest)) => settle(levels, value, rest),
                Err(stop) => Err(stop),
            },
        },
        Err(stop) => Err(stop),
    }
}

/// Reads a document's text as its value, with such keys.
fn read_text<A: Allocator + Copy>(alloc: A, text: &str, keys: Keys) -> Result<Value<A>, KeyStop>
    ensures { TextRead keys text.now result }
{
    let mut rest = match after(text, "---\n") {
        Ok(rest) => rest,
        Err(stop) => return Err(KeyStop::Other(stop)),
    };
    let mut levels = Vec::new(alloc);
    let mut held = Vec::new(alloc);
    'nodes: loop {
        match step(alloc, &mut levels, rest) {
            Ok(next) => match next {
                Next::Done(value) => return Ok(value),
                Next::Node(next) => {
                    match follow_by(alloc, keys, &mut held, levels.as_slice(), next) {
                        Ok(()) => rest = next,
                        Err(stop) => return Err(stop),
                    }
                }
            },
            Err(stop) => return Err(KeyStop::Other(stop)),
        }
    }
}

/// Returns the value of these canonical bytes. They are exactly those that `write_canonical` writes of it; nothing else is
/// accepted.
///
/// # Errors
/// `NotCanonical` if the bytes are no value's, with the position of the first word that is impossible there.
/// `TooDeep` if a list or a map begins within 1,000 others; its tag begins there. `Memory` if an allocation fails.
pub fn read_canonical<A: Allocator + Copy>(alloc: A, bytes: &[u8]) -> Result<Value<A>, ReadError>
    ensures read { IfOk result (λ value. WritesValue (seen_value value) bytes.now) }
    ensures complete { IfErr result (λ error. (error ≡ ReadError.Memory)
        ⊎ ((value : TypedValue) → CanBeRead value → encode (Some utf8) (document_text value) ≢ bytes.now)) }
    ensures placed { IfErr result (IsPlacedBy Keys.MayRepeat bytes.now) }
{
    read_canonical_with(alloc, bytes, Keys::MayRepeat)
}

/// Returns the value of these canonical bytes, as `read_canonical`. If keys must differ, it refuses a map that has a key twice, on which
/// readers of YAML disagree.
///
/// # Errors
/// As `read_canonical`, and `DuplicateKey` if keys must differ. The first fault of the text is told; a key is compared as soon as the
/// `: ` after it is read.
pub fn read_canonical_with<A: Allocator + Copy>(
    alloc: A,
    bytes: &[u8],
    keys: Keys,
) -> Result<Value<A>, ReadError>
    ensures read { IfOk result (λ value. WritesValue (seen_value value) bytes.now) }
    ensures keys { IfOk result (λ value. KeysAllow keys (seen_value value)) }
    ensures complete { IfErr result (λ error. (error ≡ ReadError.Memory)
        ⊎ ((value : TypedValue) → CanBeRead value → KeysAllow keys value → encode (Some utf8) (document_text value) ≢ bytes.now)) }
    ensures placed { IfErr result (IsPlacedBy keys bytes.now) }
{
    match text_of(bytes) {
        Ok(text) => match read_text(alloc, text, keys) {
            Ok(value) => Ok(value),
            Err(stop) => Err(key_error_of(bytes, stop)),
        },
        Err(error) => Err(error),
    }
}
