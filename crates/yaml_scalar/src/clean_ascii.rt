//! Texts of ASCII without control characters, recognised by vectors that cover them.
ghost use Rattle.std.specs.Prelude.{◌≡◌, ◌+◌, ◌≤◌, length, map, true};
ghost use Rattle.std.specs.Simd.Lanes.{mask_l};
ghost use Rattle.yaml_scalar.specs.CleanBytes.{IsClean, is_unclean};

use std::simd::prelude::*;

/// Returns the bytes of a vector that are control characters or beyond ASCII. With the top bit flipped, they are those below 0xA0.
fn unclean<const N: usize>(bytes: Simd<u8, N>) -> u64
    requires { N ≤ 64 }
    ensures { result ≡ mask_l (map is_unclean bytes.entry) }
{
    (bytes ^ Simd::splat(0x80))
        .simd_lt(Simd::splat(0xA0))
        .to_bitmask()
}

/// Returns whether all bytes are clean, if the first and the last `N` of them are all.
fn are_ends_clean<const N: usize>(bytes: &[u8]) -> bool
    requires lanes { N ≤ 64 }
    requires covers { (N ≤ length bytes.now) × (length bytes.now ≤ N + N) }
    ensures { result ≡ true → IsClean bytes.now }
{
    let last = bytes.len() - N;
    (unclean::<N>(Simd::from_slice(bytes)) == 0)
        & (unclean::<N>(Simd::from_slice(&bytes[last..])) == 0)
}

/// Returns whether all bytes are clean; there are sixteen or more.
fn are_many_clean(bytes: &[u8]) -> bool
    requires { 16 ≤ length bytes.now }
    ensures { result ≡ true → IsClean bytes.now }
{
    let last = bytes.len() - 16;
    let mut place = 0;
    while place < last {
        if unclean(u8x16::from_slice(&bytes[place..])) != 0 {
            return false;
        }
        place += 16;
    }
    unclean(u8x16::from_slice(&bytes[last..])) == 0
}

/// Returns whether a text is known to hold no control character and none beyond ASCII. Nothing is known of the shortest texts.
pub(crate) fn is_clean_ascii(text: &str) -> bool
    ensures { result ≡ true → IsClean text.now }
{
    let bytes = text.as_bytes();
    match bytes.len() {
        0..=3 => false,
        4..=8 => are_ends_clean::<4>(bytes),
        9..=15 => are_ends_clean::<8>(bytes),
        _ => are_many_clean(bytes),
    }
}
