//! Texts of scalars that have been written. The scalars that wait next use their memory again.

ghost use Rattle.std.specs.Prelude.{◌≡◌, ◌≤◌, [], chars, drop, vec_capacity, vec_len};
ghost use Rattle.yaml_base.specs.Seen.{seen_events};
ghost use Rattle.yaml_emitter.specs.BorrowedTexts.{CopiesText};

use crate::engine::WaitingEvents;
use crate::queue::drop_first;
use std::alloc::Allocator;
use std::mem;
use yaml_base::{YAML_SCALAR_EVENT, yaml_error_t};

/// Minimum capacity of a copy in bytes, so that most that follow fit it.
const LEAST_BYTES: usize = 64;
/// Maximum capacity of a text that is kept, in bytes.
const MOST_BYTES: usize = 1024;

/// Two texts, since seldom more than two scalars wait.
#[derive(Drop)]
pub(crate) struct SpareTexts<A: Allocator> {
    first: Option<String<A>>,
    second: Option<String<A>>,
}

impl<A: Allocator> SpareTexts<A> {
    /// Makes spare texts of which none is kept.
    pub(crate) fn new() -> SpareTexts<A> {
        SpareTexts {
            first: None,
            second: None,
        }
    }

    /// Returns a copy of a text, in the memory of a kept text if there is one.
    pub(crate) fn copied(&mut self, alloc: A, text: &str) -> Result<String<A>, yaml_error_t>
        ensures { CopiesText (chars text.now) result }
    {
        let second = self.second.take();
        match mem::replace(&mut self.first, second) {
            Some(spare) => filled(spare, text),
            None => match String::with_capacity(alloc, text.len().max(LEAST_BYTES)) {
                Ok(room) => filled(room, text),
                Err(_) => Err(yaml_error_t::Memory),
            },
        }
    }

    /// Drops the first `count` events of a queue. If these are all, keeps texts of its scalars.
    pub(crate) fn release(&mut self, queue: &mut WaitingEvents<A>, count: usize)
        requires { count ≤ vec_len queue.old }
        ensures rest { seen_events queue.new.items ≡ drop count (seen_events queue.old.items) }
        ensures room { vec_capacity queue.new ≡ vec_capacity queue.old }
    {
        if count == queue.len() {
            self.keep_texts(queue);
        } else {
            drop_first(queue, count);
        }
    }

    /// Empties a queue, and keeps texts of its scalars, unless they take too much memory.
    fn keep_texts(&mut self, queue: &mut WaitingEvents<A>)
        ensures items { queue.new.items ≡ [] }
        ensures capacity { vec_capacity queue.new ≡ vec_capacity queue.old }
    {
        'events: while let Some(event) = queue.pop() {
            match event {
                YAML_SCALAR_EVENT {
                    anchor,
                    tag,
                    value,
                    ..
                } => {
                    drop(anchor);
                    drop(tag);
                    if value.capacity() > MOST_BYTES {
                        drop(value);
                    } else if self.first.is_none() {
                        self.first = Some(value);
                    } else {
                        self.second = Some(value);
                    }
                }
                other => drop(other),
            }
        }
    }
}

/// Returns a text put into the memory of another one.
fn filled<A: Allocator>(room: String<A>, text: &str) -> Result<String<A>, yaml_error_t>
    ensures { CopiesText (chars text.now) result }
{
    let mut copy = room;
    copy.clear();
    match copy.push_str(text) {
        Ok(()) => Ok(copy),
        Err(_) => Err(yaml_error_t::Memory),
    }
}
