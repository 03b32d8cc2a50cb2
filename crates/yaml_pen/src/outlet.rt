//! The way of bytes to the output: a buffer, and the output to which it is flushed, within a limit.
ghost use Rattle.std.specs.Prelude.{◌≡◌, ◌≤◌, [], ◌∷◌, ◌+◌, length, drop, IfOk};
ghost use Rattle.yaml_base.specs.Prefix.{IsPrefix};
ghost use Rattle.yaml_pen.specs.Page.{buffer_size};
ghost use Rattle.yaml_pen.specs.Outlet.{Appended, Emptied, FlushesBuffer, HasSoundOutput, whole_output};

use crate::taken::TakenBytes;
use arrayvec::ArrayVec;
use std::alloc::{AllocError, Allocator};
use std::marker::Model;
use std::mem;
use yaml_base::yaml_error_t;

/// The number of bytes that the buffer holds.
pub(crate) const BUFFER_SIZE: usize = 16_384;

#[derive(Drop)]
pub(crate) struct Outlet<A: Allocator> {
    buffer: Box<ArrayVec<u8, BUFFER_SIZE>, A>,
    // The bytes that the caller hasn't taken.
    output: Vec<u8, A>,
    taken: TakenBytes,
    taken_count: usize,
    // The length of the whole output after the last good flush, with the taken bytes.
    kept: usize,
    limit: usize,
    error: Option<yaml_error_t>,
}

impl<A: Allocator> Model for Outlet<A> {
    ghost use Rattle.yaml_pen.specs.Outlet.{OutletState, IsOutlet, bytes_of};

    ghost Value = { OutletState };

    ghost view = { λ o. bytes_of o.kept o.buffer.value.items o.taken.bytes o.output.items o.limit o.error };

    ghost invariant = { λ o. IsOutlet o.kept o.taken_count o.buffer.value.items o.taken.bytes o.output.items o.limit o.error };
}

impl<A: Allocator> Outlet<A> {
    #[tactic(auto, unfolding(crate::specs::Outlet::whole_output))]
    pub(crate) fn new(alloc: A) -> Result<Outlet<A>, AllocError>
    where
        A: Copy,
        ensures { IfOk result (λ o. o ≡ record { all = []; output = []; taken = 0; limit = usize.MAX; error = None }) }
    {
        let buffer = Box::new(alloc, ArrayVec::new()).map_err(|_| AllocError)?;
        Ok(Outlet {
            buffer,
            output: Vec::new(alloc),
            taken: TakenBytes::new(),
            taken_count: 0,
            kept: 0,
            limit: usize::MAX,
            error: None,
        })
    }

    /// Sets the maximum output size in bytes.
    pub(crate) fn set_limit(&mut self, limit: usize)
        requires bytes { self.old.all ≡ [] }
        requires error { self.old.error ≡ None }
        ensures { self.new ≡ record self.old { limit = limit } }
    {
        self.limit = limit;
    }

    /// Puts the first few bytes into the empty buffer.
    pub(crate) fn begin(&mut self, bytes: &[u8])
        requires few { length bytes.now ≤ 4 }
        requires bytes { self.old.all ≡ [] }
        requires error { self.old.error ≡ None }
        ensures bytes { self.new ≡ record self.old { all = bytes.now } }
        ensures sound { HasSoundOutput self.new }
    {
        let _ = self.buffer.try_extend_from_slice(bytes);
    }

    /// Empties the buffer into the output.
    pub(crate) fn flush(&mut self) -> Result<(), yaml_error_t>
        ensures emptied { Emptied self.old self.new result }
        ensures output { IsPrefix self.old.output self.new.output }
        ensures empty { self.old.error ≡ None → self.old.output ≡ self.old.all → self.new ≡ self.old }
    {
        if let Some(error) = self.error {
            return Err(error);
        }
        if self.buffer.is_empty() {
            return Ok(());
        }
        let answer = flush_after_taken(
            self.buffer.as_slice(),
            &mut self.output,
            &self.taken,
            self.taken_count,
            self.limit,
        );
        match answer {
            Ok(()) => {
                self.kept = self.taken_count + self.output.len();
                self.buffer.clear();
                Ok(())
            }
            Err(error) => {
                self.error = Some(error);
                Err(error)
            }
        }
    }

    /// Returns the output that the caller hasn't taken.
    #[tactic(auto, unfolding(crate::specs::Outlet::whole_output))]
    pub(crate) fn output(&self) -> &[u8]
        ensures { result.now ≡ drop self.now.taken self.now.output }
    {
        self.output.as_slice()
    }

    /// Returns the output that the caller hasn't taken, which then counts as taken.
    #[tactic(auto, unfolding(crate::specs::Outlet::whole_output))]
    pub(crate) fn take_output(&mut self) -> Vec<u8, A>
    where
        A: Copy,
        ensures rest { result.items ≡ drop self.old.taken self.old.output }
        ensures taken { self.new ≡ record self.old { taken = length self.old.output } }
    {
        let none = Vec::new(*self.output.allocator());
        let rest = mem::replace(&mut self.output, none);
        self.taken = self.taken.with(rest.as_slice());
        self.taken_count += rest.len();
        rest
    }

    /// Counts the rest of the output as taken, and keeps its memory for the next bytes.
    #[tactic(auto, unfolding(crate::specs::Outlet::whole_output))]
    pub(crate) fn consume_output(&mut self)
        ensures { self.new ≡ record self.old { taken = length self.old.output } }
    {
        self.taken = self.taken.with(self.output.as_slice());
        self.taken_count += self.output.len();
        self.output.clear();
    }

    pub(crate) fn error(&self) -> Option<yaml_error_t>
        ensures { result ≡ self.now.error }
    {
        self.error
    }

    /// Appends bytes whole, or none of them if the flush that makes room for them fails.
    #[inline(always)]
    pub(crate) fn append(&mut self, bytes: &[u8]) -> Result<(), yaml_error_t>
        requires { length bytes.now ≤ buffer_size }
        ensures { Appended bytes.now self.old self.new result }
    {
        if bytes.len() == 1 {
            self.push(bytes[0])
        } else {
            self.append_all(bytes)
        }
    }

    fn append_all(&mut self, bytes: &[u8]) -> Result<(), yaml_error_t>
        requires { length bytes.now ≤ buffer_size }
        ensures { Appended bytes.now self.old self.new result }
    {
        if let Some(error) = self.error {
            return Err(error);
        }
        if self.buffer.remaining_capacity() < bytes.len() {
            self.flush()?;
        }
        let _ = self.buffer.try_extend_from_slice(bytes);
        Ok(())
    }

    // One byte is a store.
    fn push(&mut self, byte: u8) -> Result<(), yaml_error_t>
        ensures { Appended (byte ∷ []) self.old self.new result }
    {
        if let Some(error) = self.error {
            return Err(error);
        }
        if self.buffer.is_full() {
            self.flush()?;
        }
        self.buffer.push(byte);
        Ok(())
    }
}

// Taken bytes count for the limit, too.
fn flush_after_taken<A: Allocator>(
    buffer: &[u8],
    output: &mut Vec<u8, A>,
    taken: &TakenBytes,
    taken_count: usize,
    limit: usize,
) -> Result<(), yaml_error_t>
    requires within { length (whole_output taken.now.bytes output.old.items) ≤ limit }
    requires counted { taken_count ≡ length taken.now.bytes }
    ensures sound_output { FlushesBuffer buffer.now (whole_output taken.now.bytes output.old.items) (whole_output taken.now.bytes output.new.items)
        limit result }
    ensures longer { length (whole_output taken.now.bytes output.new.items) ≡ taken_count + length output.new.items }
{
    flush_buffer(buffer, output, limit - taken_count)
}

// The limit cuts at any byte. All memory is reserved before a byte is appended.
fn flush_buffer<A: Allocator>(
    buffer: &[u8],
    output: &mut Vec<u8, A>,
    limit: usize,
) -> Result<(), yaml_error_t>
    requires { length output.old.items ≤ limit }
    ensures { FlushesBuffer buffer.now output.old.items output.new.items limit result }
{
    let room = limit - output.len();
    if buffer.len() <= room {
        output
            .extend_from_slice(buffer)
            .map_err(|_| yaml_error_t::Memory)
    } else {
        output
            .extend_from_slice(&buffer[..room])
            .map_err(|_| yaml_error_t::Memory)?;
        Err(yaml_error_t::WriteError)
    }
}
