//! A caller that keeps a store: an entry is the canonical bytes of a value and their SHA-256.
ghost use Rattle.std.specs.Prelude.{◌≡◌, ◌≢◌, ◌↔◌, ◌⊎◌, ◌<◌, Decides, Err, IfErr, IfOk, List, ℕ};
ghost use Rattle.sha2.specs.Sha256.{sha256};
ghost use Rattle.yaml_base.specs.values.TypedValues.{TypedValue, most_nested, nesting};
ghost use Rattle.yaml_read.specs.AllowedKeys.{KeysAllow};
ghost use Rattle.yaml_read.specs.Readable.{CanBeRead};
ghost use Rattle.yaml_value.specs.SeenValues.{seen_value};
ghost use Rattle.yaml_caller.specs.Store.{IsEntryOf, IsSealErrorOf, TellsPlace};

use sha2::{Digest, Sha256};
use std::alloc::Allocator;
use thiserror::Error;
use yaml_base::yaml_error_t;
use yaml_read::laws::written_values_are_read;
use yaml_read::{ReadError, has_unique_keys, read_canonical_with};
use yaml_value::{Keys, Value, write_canonical};

/// A value as a store keeps it.
#[derive(Drop)]
pub struct Entry<A: Allocator> {
    /// The canonical bytes of the value.
    pub bytes: Vec<u8, A>,
    /// The SHA-256 of these bytes.
    pub digest: [u8; 32],
}

/// The reason why a value isn't sealed.
#[derive(Clone, Copy, Debug, Drop, Error, PartialEq, Eq)]
pub enum SealError {
    /// More than 1,000 lists and maps lie within one another.
    #[error("lists and maps nest too deep")]
    TooDeep,
    /// A map has a key twice, and keys must differ.
    #[error("a map has a key twice")]
    DuplicateKey,
    /// An allocation failed.
    #[error("out of memory")]
    Memory,
}

/// The reason why an entry isn't opened.
#[derive(Clone, Copy, Debug, Drop, Error, PartialEq, Eq)]
pub enum OpenError {
    /// The digest isn't the SHA-256 of the bytes.
    #[error("the digest isn't the SHA-256 of the bytes")]
    DigestDiffers,
    /// The bytes aren't read as a value.
    #[error(transparent)]
    NotRead(ReadError),
}

/// Returns why a value isn't sealed if writing it, or comparing its keys, gives this error.
fn seal_error(error: yaml_error_t) -> SealError
    ensures too_deep { (result ≡ SealError.TooDeep) ↔ (error ≡ yaml_error_t.TooDeep) }
    ensures others { (result ≡ SealError.TooDeep) ⊎ (result ≡ SealError.Memory) }
{
    match error {
        yaml_error_t::TooDeep => SealError::TooDeep,
        _ => SealError::Memory,
    }
}

/// Checks that no map of a value has a key twice, if keys must differ.
fn check_keys<A: Allocator + Copy>(alloc: A, value: &Value<A>, keys: Keys) -> Result<(), SealError>
    ensures keys { IfOk result (λ done. KeysAllow keys (seen_value value.now)) }
    ensures failed { IfErr result (IsSealErrorOf keys (seen_value value.now)) }
{
    match keys {
        Keys::Unique => match has_unique_keys(alloc, value) {
            Ok(true) => Ok(()),
            Ok(false) => Err(SealError::DuplicateKey),
            Err(error) => Err(seal_error(error)),
        },
        Keys::MayRepeat => Ok(()),
    }
}

/// Returns the entry of a value. If keys must differ, it refuses a value in which a map has a key twice, on which readers of YAML
/// disagree.
///
/// # Errors
/// `TooDeep` exactly if more than 1,000 lists and maps lie within one another, also if a map has a key twice. `DuplicateKey` only if
/// keys must differ and a map has a key twice. `Memory` if an allocation fails.
pub fn seal<A: Allocator + Copy>(
    alloc: A,
    value: &Value<A>,
    keys: Keys,
) -> Result<Entry<A>, SealError>
    ensures sealed { IfOk result (λ entry. IsEntryOf (seen_value value.now) entry.bytes.items entry.digest) }
    ensures keys { IfOk result (λ entry. KeysAllow keys (seen_value value.now)) }
    ensures too_deep { (result ≡ Err SealError.TooDeep) ↔ (most_nested < nesting (seen_value value.now)) }
    ensures failed { IfErr result (IsSealErrorOf keys (seen_value value.now)) }
{
    let bytes = match write_canonical(alloc, value) {
        Ok(bytes) => bytes,
        Err(error) => return Err(seal_error(error)),
    };
    match check_keys(alloc, value, keys) {
        Ok(()) => {
            let digest = Sha256::digest(bytes.as_slice());
            Ok(Entry { bytes, digest })
        }
        Err(error) => Err(error),
    }
}

/// Returns whether the bytes have this digest.
fn has_digest(bytes: &[u8], digest: &[u8; 32]) -> bool
    ensures { Decides result (digest.now ≡ sha256 bytes.now) }
{
    Sha256::digest(bytes).as_slice() == digest.as_slice()
}

/// Returns the value of an entry. The entry is the one that `seal` makes of this value: neither other bytes nor another
/// digest are accepted, nor a map that has a key twice if keys must differ.
///
/// # Errors
/// `DigestDiffers` exactly if the digest isn't the SHA-256 of the bytes. Else `NotRead` with the error of `read_canonical_with`: the
/// bytes aren't canonical, a map has a key twice and keys must differ, or an allocation fails.
pub fn open<A: Allocator + Copy>(
    alloc: A,
    entry: &Entry<A>,
    keys: Keys,
) -> Result<Value<A>, OpenError>
    ensures opened { IfOk result (λ value. IsEntryOf (seen_value value) entry.now.bytes.items entry.now.digest) }
    ensures keys { IfOk result (λ value. KeysAllow keys (seen_value value)) }
    ensures differs { (result ≡ Err OpenError.DigestDiffers) ↔ (entry.now.digest ≢ sha256 entry.now.bytes.items) }
    ensures complete { IfErr result (λ error. (error ≡ OpenError.NotRead ReadError.Memory)
        ⊎ ((value : TypedValue) → CanBeRead value → KeysAllow keys value → IsEntryOf value entry.now.bytes.items entry.now.digest → ⊥)) }
    ensures placed { IfErr result (TellsPlace keys entry.now.bytes.items) }
{
    if !has_digest(entry.bytes.as_slice(), &entry.digest) {
        return Err(OpenError::DigestDiffers);
    }
    match read_canonical_with(alloc, entry.bytes.as_slice(), keys) {
        Ok(value) => Ok(value),
        Err(error) => Err(OpenError::NotRead(error)),
    }
}

/// Seals a value and opens the entry, both by the same `keys`. The value that is opened is the same; only want of memory keeps it from
/// being opened.
///
/// # Errors
/// As `seal`. The inner error is that of opening: `NotRead(ReadError::Memory)`, if an allocation fails.
pub fn sealed_and_opened<A: Allocator + Copy>(
    alloc: A,
    value: &Value<A>,
    keys: Keys,
) -> Result<Result<Value<A>, OpenError>, SealError>
    ensures same { IfOk result (λ opened. IfOk opened (λ found. seen_value found ≡ seen_value value.now)) }
    ensures opened { IfOk result (λ opened. IfErr opened (λ error. error ≡ OpenError.NotRead ReadError.Memory)) }
    ensures too_deep { (result ≡ Err SealError.TooDeep) ↔ (most_nested < nesting (seen_value value.now)) }
    ensures failed { IfErr result (IsSealErrorOf keys (seen_value value.now)) }
{
    let entry = seal(alloc, value, keys)?;
    // A law: a value that was written can be read.
    written_values_are_read::<A>();
    Ok(open(alloc, &entry, keys))
}

/// States that a value has one entry, and an entry one value.
pub fn entries_are_values()
    ensures entries { (value : TypedValue) (bytes digest other_bytes other_digest : List ℕ) → IsEntryOf value bytes digest
        → IsEntryOf value other_bytes other_digest → (bytes ≡ other_bytes) × (digest ≡ other_digest) }
    ensures values { (first second : TypedValue) (bytes digest : List ℕ) → IsEntryOf first bytes digest → IsEntryOf second bytes digest
        → first ≡ second }
{}
