//! Random values, written and read back, also with one byte changed, and with memory refused.
use super::refused::refuse_growths;
use super::{push, read, written};
use crate::tests::equal;
use std::alloc::Global;
use std::process::Abort;
use yaml_read::{ReadError, Value};
use yaml_test_allocator::Refusing;

/// Numbers that follow from a seed (a linear congruence, of which the high bits are used).
#[derive(Drop)]
pub(super) struct Random {
    pub(super) state: u64,
}

impl Random {
    pub(super) fn next(&mut self) -> u64 {
        self.state = self
            .state
            .wrapping_mul(6_364_136_223_846_793_005)
            .wrapping_add(1_442_695_040_888_963_407);
        self.state >> 16
    }

    /// Returns a number below a bound, which isn't 0.
    pub(super) fn below(&mut self, bound: u64) -> u64 {
        self.next().checked_rem(bound).unwrap_or(0)
    }

    /// Returns the same of an index.
    pub(super) fn small(&mut self, bound: usize) -> usize {
        let bound = u64::try_from(bound).unwrap_or(1);
        usize::try_from(self.below(bound)).unwrap_or(0)
    }

    /// Returns one of these, of which there is at least one.
    pub(super) fn pick<T: Copy>(&mut self, all: &[T], other: T) -> T {
        match all.get(self.small(all.len())) {
            Some(one) => *one,
            None => other,
        }
    }
}

/// Characters that are written in ways of their own.
const CHARACTERS: &[char] = &[
    'a',
    ' ',
    '"',
    '\\',
    '\n',
    '\r',
    '\t',
    '\0',
    '\u{1}',
    '\u{7}',
    '\u{1B}',
    '\u{7F}',
    '\u{85}',
    '\u{9F}',
    '\u{A0}',
    'é',
    '\u{2028}',
    '\u{2029}',
    '\u{D7FF}',
    '\u{E000}',
    '\u{FEFF}',
    '\u{FFFD}',
    '\u{FFFE}',
    '\u{FFFF}',
    '\u{10000}',
    '\u{10FFFF}',
];

/// Returns one of the characters, or any other.
fn random_character(random: &mut Random) -> char {
    if random.below(3) > 0 {
        return random.pick(CHARACTERS, 'a');
    }
    char::from_u32(u32::try_from(random.below(0x11_0000)).unwrap_or(0)).unwrap_or(' ')
}

pub(super) fn random_text(rt: &impl Abort, alloc: Global, random: &mut Random) -> String {
    let mut text = String::new(alloc);
    for _ in 0..random.below(6) {
        text.push(random_character(random)).expect(rt, "no memory");
    }
    text
}

/// Returns a number of any size, and of either sign.
fn random_integer(random: &mut Random) -> i64 {
    let bits = random.next().wrapping_mul(random.next()) >> 1u32;
    let shift = u32::try_from(random.below(63)).unwrap_or(0);
    let number = i64::try_from(bits.wrapping_shr(shift)).unwrap_or(0);
    match random.below(2) {
        0 => number,
        _ => number.wrapping_neg(),
    }
}

fn random_scalar(rt: &impl Abort, alloc: Global, random: &mut Random) -> Value<Global> {
    match random.below(6) {
        0 => Value::Null,
        1 => Value::Bool(random.below(2) == 0),
        2 | 3 => Value::Int(random_integer(random)),
        _ => Value::Text(random_text(rt, alloc, random)),
    }
}

/// Makes a list of the last values, at most so many.
fn take_items(
    rt: &impl Abort,
    alloc: Global,
    values: &mut Vec<Value<Global>>,
    count: u64,
) -> Value<Global> {
    let mut items = Vec::new(alloc);
    for _ in 0..count {
        if let Some(value) = values.pop() {
            push(rt, &mut items, value);
        }
    }
    Value::List(items)
}

/// Makes a map of the last values, at most so many pairs.
fn take_pairs(
    rt: &impl Abort,
    alloc: Global,
    values: &mut Vec<Value<Global>>,
    count: u64,
) -> Value<Global> {
    let mut pairs = Vec::new(alloc);
    for _ in 0..count {
        let key = values.pop().unwrap_or(Value::Null);
        let value = values.pop().unwrap_or(Value::Null);
        push(rt, &mut pairs, (key, value));
    }
    Value::Map(pairs)
}

/// Returns a value of at most 30 parts: each is a scalar, or a list or a map of some before it.
fn random_value(rt: &impl Abort, alloc: Global, random: &mut Random) -> Value<Global> {
    let mut values = Vec::new(alloc);
    for _ in 0..random.below(30).saturating_add(1) {
        let count = random.below(5);
        let value = match random.below(4) {
            0 => take_items(rt, alloc, &mut values, count),
            1 => take_pairs(rt, alloc, &mut values, count),
            _ => random_scalar(rt, alloc, random),
        };
        push(rt, &mut values, value);
    }
    values.pop().unwrap_or(Value::Null)
}

/// Returns the canonical bytes of a random value.
fn random_bytes(rt: &impl Abort, alloc: Global, random: &mut Random) -> Vec<u8> {
    let value = random_value(rt, alloc, random);
    written(rt, alloc, &value)
}

/// Returns the bytes with one of them changed to another, or left out.
fn spoiled(rt: &impl Abort, alloc: Global, random: &mut Random, bytes: &[u8]) -> Vec<u8> {
    let mut spoiled = Vec::from_slice(alloc, bytes).expect(rt, "no memory");
    let offset = random.small(bytes.len());
    if random.below(8) > 0 {
        let change = u8::try_from(random.below(255).saturating_add(1)).unwrap_or(1);
        if let Some(byte) = spoiled.get_mut(offset) {
            *byte ^= change;
        }
    } else if offset < spoiled.len() {
        let _left_out = spoiled.remove(offset);
    }
    spoiled
}

/// Reads a value and writes it again, which gives the same bytes; or returns why it isn't read.
fn read_and_written(rt: &impl Abort, alloc: Global, bytes: &[u8]) -> Option<ReadError> {
    match read(alloc, bytes) {
        Ok(value) => {
            let again = written(rt, alloc, &value);
            equal(rt, &again.as_slice(), &bytes);
            None
        }
        Err(error) => Some(error),
    }
}

/// Checks that the bytes of a value are read, and that with one of them changed they are those of another value, or not canonical.
/// Returns whether these are read.
fn check_random(rt: &impl Abort, alloc: Global, random: &mut Random) -> bool {
    let bytes = random_bytes(rt, alloc, random);
    equal(rt, &read_and_written(rt, alloc, bytes.as_slice()), &None);
    let other = spoiled(rt, alloc, random, bytes.as_slice());
    match read_and_written(rt, alloc, other.as_slice()) {
        None => true,
        Some(error) => {
            let is_named = matches!(error, ReadError::NotCanonical { .. });
            equal(rt, &(error, is_named), &(error, true));
            false
        }
    }
}

#[test]
fn random_values_are_read_back(rt: HostRuntime) {
    let mut random = Random { state: 56 };
    let mut others = 0usize;
    for _ in 0..10_000 {
        if check_random(&rt, rt.alloc(), &mut random) {
            others = others.saturating_add(1);
        }
    }
    equal(&rt, &(others > 0), &true);
}

#[test]
fn a_refused_growth_is_reported(rt: HostRuntime) {
    let heap = Refusing::new(rt.alloc());
    let mut random = Random { state: 57 };
    for _ in 0..100 {
        let bytes = random_bytes(&rt, rt.alloc(), &mut random);
        refuse_growths(&rt, &heap, bytes.as_slice());
    }
}
