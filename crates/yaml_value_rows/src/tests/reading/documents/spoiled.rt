//! The bytes of dumps with one byte changed.
use super::read_and_dumped;
use super::taken::taken;
use crate::tests::equal;
use std::alloc::Global;
use std::process::Abort;

/// Returns the bytes with this one in place of the one at an offset.
pub(super) fn replaced(
    rt: &impl Abort,
    alloc: Global,
    bytes: &[u8],
    offset: usize,
    byte: u8,
) -> Vec<u8> {
    let mut spoiled = Vec::from_slice(alloc, bytes).expect(rt, "no memory");
    if let Some(place) = spoiled.get_mut(offset) {
        *place = byte;
    }
    spoiled
}

/// Bytes that occur in such texts, or nowhere.
const OTHERS: &[u8] =
    b"\0\t\n !\"%&*,-./0123479:<>?@ADEFZ[\\]_abdilnqrstxz{|}~\x7F\x80\xA9\xC3\xFF";

/// Returns how many other bytes at an offset are read. Each of them gives a document that is dumped as these bytes.
fn count_read(rt: &impl Abort, alloc: Global, bytes: &[u8], offset: usize) -> usize {
    let mut count = 0usize;
    for byte in OTHERS {
        let spoiled = replaced(rt, alloc, bytes, offset, *byte);
        if spoiled.as_slice() != bytes && read_and_dumped(rt, alloc, spoiled.as_slice()).is_none() {
            count = count.saturating_add(1);
        }
    }
    count
}

/// Checks that some are read, of all offsets.
fn check_changed(rt: &impl Abort, alloc: Global, bytes: &[u8]) {
    let mut count = 0usize;
    for offset in 0..bytes.len() {
        count = count.saturating_add(count_read(rt, alloc, bytes, offset));
    }
    equal(rt, &(bytes, count > 0), &(bytes, true));
}

/// In each text some byte of a tag can be another.
#[test]
fn a_byte_changed_is_refused_or_gives_another_document(rt: HostRuntime) {
    for (_, text) in taken() {
        check_changed(&rt, rt.alloc(), text.as_bytes());
    }
}

/// Checks that the first bytes of a dump, cut off at an offset, are none.
fn check_cut(rt: &impl Abort, alloc: Global, bytes: &[u8]) {
    for length in 0..bytes.len() {
        let answer = read_and_dumped(rt, alloc, bytes.split_at(length).0);
        equal(rt, &answer.is_some(), &true);
    }
}

#[test]
fn what_is_cut_off_is_refused(rt: HostRuntime) {
    for (_, text) in taken() {
        check_cut(&rt, rt.alloc(), text.as_bytes());
    }
}
