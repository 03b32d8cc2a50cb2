//! A store of sealed values, as the documents show it.
use crate::tests::equal;
use std::alloc::Global;
use std::process::Abort;
use yaml_caller::{Entry, OpenError, SealError, open, seal};
use yaml_read::{Keys, Position, ReadError, Value};

/// Returns the entry of an integer.
fn sealed_integer(alloc: Global, number: i64) -> Result<Entry<Global>, SealError> {
    seal(alloc, &Value::Int(number), Keys::Unique)
}

/// Returns the integer of an entry; `None` if it holds another value.
fn opened_integer(alloc: Global, entry: &Entry<Global>) -> Result<Option<i64>, OpenError> {
    match &open(alloc, entry, Keys::Unique)? {
        Value::Int(number) => Ok(Some(*number)),
        _ => Ok(None),
    }
}

/// The SHA-256 of `---`, `!!int "7"`, a line each, by `sha256sum`.
const DIGEST_OF_7: [u8; 32] = [
    0x05, 0xde, 0x8d, 0x50, 0x14, 0x68, 0x5c, 0x87, 0xe9, 0xf5, 0x7c, 0xdb, 0x26, 0xb2, 0x20, 0x0e,
    0x0b, 0x27, 0x01, 0x7e, 0x62, 0xcc, 0x4d, 0xac, 0xe3, 0x49, 0x87, 0xf4, 0x9f, 0x80, 0x94, 0x4d,
];

/// The SHA-256 of `---`, `!!int "07"`, a line each, by `sha256sum`.
const DIGEST_OF_07: [u8; 32] = [
    0xe7, 0x56, 0xbb, 0xf8, 0xa5, 0x0e, 0xc5, 0x4a, 0xd6, 0xb7, 0x6d, 0x05, 0x4f, 0xc6, 0x81, 0xa7,
    0xad, 0x02, 0x7f, 0xee, 0x7e, 0x0e, 0x2a, 0x66, 0xad, 0x3a, 0xad, 0x9a, 0xda, 0x8a, 0xe9, 0xdc,
];

#[test]
fn what_was_sealed_is_opened(rt: HostRuntime) {
    let entry = sealed_integer(rt.alloc(), 7).expect(&rt, "no memory");
    let bytes: &[u8] = b"---\n!!int \"7\"\n";
    equal(&rt, &entry.bytes.as_slice(), &bytes);
    equal(&rt, &entry.digest, &DIGEST_OF_7);
    equal(&rt, &opened_integer(rt.alloc(), &entry), &Ok(Some(7)));
}

/// Checks that an entry of these bytes isn't opened.
fn check_refused(
    rt: &impl Abort,
    alloc: Global,
    bytes: &[u8],
    digest: [u8; 32],
    wanted: OpenError,
) {
    let bytes = Vec::from_slice(alloc, bytes).expect(rt, "no memory");
    let opened = opened_integer(alloc, &Entry { bytes, digest });
    equal(rt, &opened, &Err(wanted));
}

/// Bytes, and the digest of others.
const CHANGED: &[(&[u8], [u8; 32])] = &[
    (b"---\n!!int \"7\"\n", DIGEST_OF_07),
    (b"---\n!!int \"8\"\n", DIGEST_OF_7),
];

#[test]
fn what_was_changed_is_refused(rt: HostRuntime) {
    for (bytes, digest) in CHANGED {
        check_refused(&rt, rt.alloc(), bytes, *digest, OpenError::DigestDiffers);
    }
}

#[test]
fn what_isnt_canonical_is_refused_under_its_digest(rt: HostRuntime) {
    let wanted = OpenError::NotRead(ReadError::NotCanonical {
        position: Position { line: 2, column: 7 },
    });
    let bytes = b"---\n!!int \"07\"\n";
    check_refused(&rt, rt.alloc(), bytes, DIGEST_OF_07, wanted);
}

/// A map that has the key 7 twice. The second begins at line 5, column 5.
const REPEATING: &[u8] =
    b"---\n!!map {\n  ? !!int \"7\"\n  : !!int \"1\",\n  ? !!int \"7\"\n  : !!int \"2\",\n}\n";

/// Its SHA-256, by `sha256sum`.
const DIGEST_OF_REPEATING: [u8; 32] = [
    0x06, 0xbc, 0x8e, 0x98, 0xe6, 0x26, 0xc3, 0xdb, 0xd6, 0x8b, 0x24, 0x7b, 0x63, 0xa1, 0x09, 0xea,
    0x6f, 0x69, 0xe0, 0xfc, 0x78, 0xed, 0xd1, 0x42, 0x97, 0x9c, 0xfe, 0x73, 0xcd, 0x11, 0xae, 0x91,
];

/// Returns this map.
fn repeating(rt: &impl Abort, alloc: Global) -> Value<Global> {
    let first = (Value::Int(7), Value::Int(1));
    let second = (Value::Int(7), Value::Int(2));
    Value::Map(vec![in alloc; first, second].expect(rt, "no memory"))
}

#[test]
fn a_map_with_a_key_twice_is_sealed_if_keys_may_repeat(rt: HostRuntime) {
    let value = repeating(&rt, rt.alloc());
    let refused = seal(rt.alloc(), &value, Keys::Unique).err();
    equal(&rt, &refused, &Some(SealError::DuplicateKey));
    let entry = seal(rt.alloc(), &value, Keys::MayRepeat).expect(&rt, "not sealed");
    equal(&rt, &entry.bytes.as_slice(), &REPEATING);
    equal(&rt, &entry.digest, &DIGEST_OF_REPEATING);
    drop(value);
}

#[test]
fn a_map_with_a_key_twice_is_opened_if_keys_may_repeat(rt: HostRuntime) {
    let bytes = Vec::from_slice(rt.alloc(), REPEATING).expect(&rt, "no memory");
    let digest = DIGEST_OF_REPEATING;
    let entry = Entry { bytes, digest };
    let reason = ReadError::DuplicateKey {
        position: Position { line: 5, column: 5 },
    };
    let refused = open(rt.alloc(), &entry, Keys::Unique).err();
    equal(&rt, &refused, &Some(OpenError::NotRead(reason)));
    let opened = open(rt.alloc(), &entry, Keys::MayRepeat).err();
    equal(&rt, &opened, &None);
}
