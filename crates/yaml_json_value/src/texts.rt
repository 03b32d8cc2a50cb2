//! JSON texts as typed values.
ghost use Rattle.std.specs.Prelude.{◌≡◌, IfErr, IfOk};
ghost use Rattle.yaml_value.specs.SeenValues.{seen_value};
ghost use Rattle.yaml_json_value.specs.Typed.{ExplainsValueError, IsCanonicalOf, IsJson, IsValueOf, names_differ};
ghost use Rattle.yaml_json_value.specs.Walked.{IsForValues};

use crate::error::{Stop, ValueError};
use crate::walk::read_value;
use bumpalo::Bump;
use std::alloc::Allocator;
use yaml_json::{
    JsonError, JsonSettings, Tokens, ValueSettings, position_of, yaml_error_t, yaml_from_json,
};
use yaml_value::{Keys, Value, write_canonical};

/// Returns whether the names of an object must differ, as the keys of a map.
fn are_unique(keys: Keys) -> bool
    ensures { result ≡ names_differ keys }
{
    match keys {
        Keys::Unique => true,
        Keys::MayRepeat => false,
    }
}

/// Returns the settings by which a text is checked: arrays and objects nest at most 1,000 deep, as deep as canonical values may.
fn settings(keys: Keys) -> JsonSettings
    ensures { IsForValues keys result }
{
    JsonSettings {
        values: ValueSettings {
            flow: true,
            ..ValueSettings::default()
        },
        unique_names: are_unique(keys),
    }
}

/// Returns the value of a JSON text whose numbers are integers of 64 bits. Names are texts, and all keeps its order.
///
/// The text is read twice: `yaml_from_json` finds the first fault, and then its tokens become the value.
///
/// # Errors
///
/// `Json` if `yaml_from_json` refuses the text, with arrays and objects that nest at most 1,000 deep and, unless keys may repeat, each
/// name once in its object, or if an allocation fails. `NotInteger` if the text is JSON, and a number isn't an integer of 64 bits.
pub fn value_from_json<A: Allocator + Copy>(
    alloc: A,
    text: &str,
    keys: Keys,
) -> Result<Value<A>, ValueError>
    ensures read { IfOk result (λ value. IsValueOf keys text.now (seen_value value)) }
    ensures why { IfErr result (ExplainsValueError keys text.now) }
{
    match yaml_from_json(alloc, text, settings(keys)) {
        Ok(_yaml) => value_of(alloc, text),
        Err(error) => Err(ValueError::Json(error)),
    }
}

/// Returns the canonical bytes of the value of a JSON text, as `write_canonical` writes them.
///
/// # Errors
///
/// As by `value_from_json`.
pub fn canonical_from_json<A: Allocator + Copy>(
    alloc: A,
    text: &str,
    keys: Keys,
) -> Result<Vec<u8, A>, ValueError>
    ensures written { IfOk result (λ bytes. IsCanonicalOf keys text.now bytes.items) }
    ensures why { IfErr result (ExplainsValueError keys text.now) }
{
    match value_from_json(alloc, text, keys) {
        Ok(value) => match write_canonical(alloc, &value) {
            Ok(bytes) => Ok(bytes),
            Err(yaml_error_t::TooDeep) => unreachable!(),
            Err(_) => Err(ValueError::Json(JsonError::Emitter(yaml_error_t::Memory))),
        },
        Err(error) => Err(error),
    }
}

/// Returns the value of a text that is JSON.
fn value_of<A: Allocator + Copy>(alloc: A, text: &str) -> Result<Value<A>, ValueError>
    requires { IsJson Keys.MayRepeat text.now }
    ensures read { (mode : Keys) → IsJson mode text.now → IfOk result (λ value. IsValueOf mode text.now (seen_value value)) }
    ensures why { (mode : Keys) → IsJson mode text.now → IfErr result (ExplainsValueError mode text.now) }
{
    let arena = Bump::new(alloc);
    let mut reader = Tokens::new(alloc, &arena, text);
    match read_value(alloc, &mut reader) {
        Ok(value) => Ok(value),
        Err(Stop::NotInteger) => {
            let position = position_of(text.as_bytes(), reader.last_offset());
            Err(ValueError::NotInteger { position })
        }
        Err(Stop::Memory) => Err(ValueError::Json(JsonError::Emitter(yaml_error_t::Memory))),
        Err(Stop::Misplaced) => unreachable!(),
    }
}
