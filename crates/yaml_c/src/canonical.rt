//! The check of canonical bytes of typed values.
ghost use Rattle.std.specs.Prelude.{◌≡◌};
ghost use Rattle.yaml_c.specs.CanonicalAnswers.{IsCheck, keys_given};

use crate::results::CallResult;
use crate::statuses::{DONE, DUPLICATE_NAME, NO_MEMORY, NOT_CANONICAL, TOO_DEEP};
use std::alloc::Global;
use yaml_read::{Keys, ReadError, read_canonical_with};

/// The options by which canonical bytes are checked, and made of JSON. Zeros are the defaults. See the header.
#[repr(C)]
#[derive(Clone, Copy)]
pub struct CanonicalOptions {
    pub allow_duplicates: u32,
}

pub(crate) fn keys_from(given: &CanonicalOptions) -> Keys
    ensures { result ≡ keys_given given.now }
{
    if given.allow_duplicates == 0 {
        Keys::Unique
    } else {
        Keys::MayRepeat
    }
}

/// Tells whether bytes are the canonical bytes of a value. See the header.
#[unsafe(no_mangle)]
pub extern "C" fn yaml_is_canonical(
    alloc: Global,
    bytes: &[u8],
    options: &CanonicalOptions,
    report: &mut CallResult,
) -> i32
    ensures { IsCheck options.now bytes.now result report.new }
{
    *report = CallResult::nothing();
    match read_canonical_with(alloc, bytes, keys_from(options)) {
        Ok(_value) => DONE,
        Err(ReadError::NotCanonical { position }) => {
            *report = CallResult::at_place(position);
            NOT_CANONICAL
        }
        Err(ReadError::TooDeep { position }) => {
            *report = CallResult::at_place(position);
            TOO_DEEP
        }
        Err(ReadError::DuplicateKey { position }) => {
            *report = CallResult::at_place(position);
            DUPLICATE_NAME
        }
        // `read_canonical_with` doesn't return it.
        Err(ReadError::NotNumbered) => NOT_CANONICAL,
        Err(ReadError::Memory) => NO_MEMORY,
    }
}
