//! The canonical bytes of the value of a file's JSON text.
ghost use Rattle.std.specs.Prelude.{◌≡◌, ◌∷◌, [], ℕ, List, IfErr, IfOk, IsUtf8, OnOk, Some, map};
ghost use Rattle.json2yaml.specs.Conversions.{IsCanonicalOfJsonFiles, keys_of};
ghost use Rattle.yaml_json_value.specs.Typed.{IsCanonicalOf};
ghost use Rattle.yaml_program.specs.Conversions.{HaveNoYaml, OfNames, RefusesFiles, WroteStream};
ghost use Rattle.yaml_program.specs.Faults as statuses;

use crate::failures::{failure_of_value, refused};
use std::alloc::Global;
use std::io::Write;
use std::str;
use yaml_base::position_of;
use yaml_json::JsonSettings;
use yaml_json_value::{Keys, canonical_from_json};
use yaml_program::{Failure, Reason, STREAM, Sources, read_file};

/// Returns whether names must differ, as the keys of a map.
pub fn keys_by(settings: &JsonSettings) -> Keys
    ensures { result ≡ keys_of settings.now.unique_names }
{
    if settings.unique_names {
        Keys::Unique
    } else {
        Keys::MayRepeat
    }
}

/// Returns the canonical bytes of the value of a JSON text, if the bytes are one.
fn canonical_bytes(alloc: Global, bytes: &[u8], keys: Keys) -> Result<Vec<u8>, Failure>
    ensures written { IfOk result (λ written. IsUtf8 bytes.now × IsCanonicalOf keys bytes.now written.items) }
    ensures refused { IfErr result (λ failure. statuses.failure_status failure ≡ 1
        → HaveNoYaml (IsCanonicalOfJsonFiles keys) (bytes.now ∷ [])) }
{
    let text = match str::from_utf8(bytes) {
        Ok(text) => text,
        Err(error) => {
            let position = position_of(bytes, error.valid_up_to());
            return Err(refused(position, "not UTF-8"));
        }
    };
    match canonical_from_json(alloc, text, keys) {
        Ok(written) => Ok(written),
        Err(error) => Err(failure_of_value(error)),
    }
}

/// Writes the canonical bytes of the value of a file's JSON text.
///
/// # Errors
///
/// The failure.
fn send_text<S: Sources + AllocGlobal, W: Write>(
    keys: Keys,
    sources: &S,
    name: &str,
    sink: &mut W,
) -> Result<(), Failure>
    ensures wrote { OnOk result ((file : List ℕ) → S.bytes_of sources.now name.now ≡ Some file
        → WroteStream (IsCanonicalOfJsonFiles keys) (file ∷ []) (W.contents sink.old) (W.contents sink.new)) }
    ensures refused { IfErr result (λ failure. statuses.failure_status failure ≡ 1
        → (file : List ℕ) → S.bytes_of sources.now name.now ≡ Some file → HaveNoYaml (IsCanonicalOfJsonFiles keys) (file ∷ [])) }
{
    let bytes = match read_file(sources, name) {
        Ok(bytes) => bytes,
        Err(error) => return Err(Failure::ReadFailed(error)),
    };
    match canonical_bytes(sources.alloc(), bytes.as_slice(), keys) {
        Ok(written) => match sink.write_all(written.as_slice()) {
            Ok(()) => Ok(()),
            Err(error) => Err(Failure::WriteFailed(error)),
        },
        Err(error) => Err(error),
    }
}

/// Writes the canonical bytes of the value of the JSON text of a file, or of standard input if none is named.
///
/// # Errors
///
/// The failure, with the name of the file at which it occurred, if it was at one that is named. A second file is refused.
pub fn send_canonical<'a, S: Sources + AllocGlobal, W: Write>(
    keys: Keys,
    sources: &S,
    names: &[&'a str],
    sink: &mut W,
) -> Result<(), (Option<&'a str>, Failure)>
    ensures wrote { OnOk result (OfNames (S.bytes_of sources.now) (map (λ name. name.now) names.now) (λ files.
        WroteStream (IsCanonicalOfJsonFiles keys) files (W.contents sink.old) (W.contents sink.new))) }
    ensures refused { IfErr result (λ stop.
        RefusesFiles (S.bytes_of sources.now) (IsCanonicalOfJsonFiles keys) (map (λ name. name.now) names.now) stop.1) }
{
    let Some((name, others)) = names.split_first() else {
        return match send_text(keys, sources, STREAM, sink) {
            Ok(()) => Ok(()),
            Err(error) => Err((None, error)),
        };
    };
    if let Some((second, _)) = others.split_first() {
        return Err((Some(*second), SECOND_FILE));
    }
    match send_text(keys, sources, name, sink) {
        Ok(()) => Ok(()),
        Err(error) => Err((Some(*name), error)),
    }
}

/// The failure for a second file.
const SECOND_FILE: Failure = Failure::Refused {
    place: None,
    reason: Reason::Words("a second file, and --deterministic writes one document"),
};
