//! The writer: its state, its start, its output and its end.
ghost use Rattle.std.specs.Prelude.{◌≡◌, ◌≤◌, length, IfOk, IfErr, OnErr, OnOk, [], None, Err, true, false, chars};
ghost use Rattle.std.specs.Io.KnownBytes.{Appends};
ghost use Rattle.yaml_base.specs.Seen.{seen_scalar_style};
ghost use Rattle.std.specs.Option.{option_or};
ghost use Rattle.yaml_emitter.specs.Emits.{IsPromised};
ghost use Rattle.yaml_emitter.specs.Given.{seen_settings};
ghost use Rattle.yaml_emitter.specs.StandsAfter.{StandsAfter};
ghost use Rattle.yaml_emitter.specs.BorrowedTexts.{seen_name};
ghost use Rattle.yaml_emitter.specs.State.{with_all_taken};
ghost use Rattle.yaml_pen.specs.Page.{output_left};
ghost use Rattle.yaml_base.specs.Sinks.{AppendsFirst};
ghost use Rattle.yaml_writer.specs.Unfinished.{IsUnfinished, IsUnfinishedBy};
ghost use Rattle.yaml_writer.specs.Writing.{Finishes, FinishesBy, Gives, IsNewWriter, awaits_node, is_implicit, scalar_event, writer_over};

use crate::ends::DocumentEnd;
use crate::giving::{end_stream, give, plain_start, scalar_content, use_up};
use std::alloc::Allocator;
use std::io;
use std::marker::Model;
use yaml_base::{
    YAML_ANY_ENCODING, YAML_STREAM_START_EVENT, write_to_sink, yaml_error_t, yaml_scalar_style_t,
};
use yaml_emitter::{
    CollectionKind, ScalarContent, Settings, yaml_emitter_consume_output, yaml_emitter_emit_scalar,
    yaml_emitter_t, yaml_emitter_take_output,
};

/// Writes values, one call each, into a vector of bytes.
pub struct Writer<A: Allocator> {
    pub(crate) alloc: A,
    pub(crate) emitter: yaml_emitter_t<A>,
    pub(crate) canonical: bool,
    /// The innermost last.
    pub(crate) levels: Vec<CollectionKind, A>,
    pub(crate) anchor: Option<String<A>>,
    pub(crate) tag: Option<String<A>>,
}

// Not derived, so that a function that drops a writer has one call for it in place of one for each part.
impl<A: Allocator> Drop for Writer<A> {
    fn drop(self) {
        let Writer {
            alloc: _,
            emitter: _,
            canonical: _,
            levels: _,
            anchor: _,
            tag: _,
        } = self;
    }
}

impl<A: Allocator> Model for Writer<A> {
    ghost use Rattle.yaml_writer.specs.Writing.{WriterState};
    ghost use Rattle.yaml_writer.specs.Inside.{writer_state_of, IsWriter};

    ghost Value = { WriterState };

    ghost view = { writer_state_of };

    ghost invariant = { IsWriter };
}

impl<A: Allocator + Copy> Writer<A> {
    /// Makes a writer at the start of its first document.
    ///
    /// # Errors
    /// `Memory` if an allocation of the writer fails. An error of its emitter comes with the next call.
    pub fn new(alloc: A, settings: Settings) -> Result<Self, yaml_error_t>
        ensures made { IfOk result (λ writer. IsNewWriter (seen_settings settings) writer) }
        ensures memory { IfErr result (λ error. error ≡ yaml_error_t.Memory) }
    {
        let Ok(mut emitter) = yaml_emitter_t::with_settings(alloc, settings) else {
            return Err(yaml_error_t::Memory);
        };
        let encoding = YAML_ANY_ENCODING;
        // An error stays with the emitter.
        let _ = give(&mut emitter, YAML_STREAM_START_EVENT { encoding });
        let _ = give(&mut emitter, plain_start(alloc));
        Ok(Writer {
            alloc,
            emitter,
            canonical: settings.canonical,
            levels: Vec::new(alloc),
            anchor: None,
            tag: None,
        })
    }

    /// Makes a writer that goes on with an emitter, whose next event is its next node. `into_emitter` returns the emitter. The
    /// documents of the stream, and the collections that the writer opens in them, are left to the emitter.
    pub fn over(alloc: A, emitter: yaml_emitter_t<A>) -> Self
        requires { emitter.has_output ≡ true }
        ensures { result ≡ writer_over emitter }
    {
        let canonical = emitter.is_canonical();
        Writer {
            alloc,
            emitter,
            canonical,
            levels: Vec::new(alloc),
            anchor: None,
            tag: None,
        }
    }

    /// Returns the emitter in its present state. An anchor and a tag whose node wasn't given are dropped.
    pub fn into_emitter(self) -> yaml_emitter_t<A>
        ensures value { result ≡ self.emitter }
        ensures output { result.has_output ≡ true }
    {
        let Writer {
            alloc: _,
            emitter,
            canonical: _,
            levels: _,
            anchor: _,
            tag: _,
        } = self;
        emitter
    }

    /// Gives a scalar to the emitter, with the properties of the next node, and this tag if none was given. If it has no tag,
    /// none need be written. If it has to wait and there is no memory to copy it, nothing changes.
    pub(crate) fn scalar<'a>(
        &mut self,
        own: Option<&'a str>,
        value: &'a str,
        style: yaml_scalar_style_t,
    ) -> Result<(), yaml_error_t>
        ensures { Gives self.old (scalar_event self.old (option_or self.old.tag (seen_name own.entry)) (chars value.now)
            (seen_scalar_style style)) result self.new }
    {
        if self.awaits_node() {
            return self.scalar_with_properties(own, value, style);
        }
        let implicit = own.is_none();
        let content = ScalarContent {
            anchor: None,
            tag: own,
            value,
            plain_implicit: implicit,
            quoted_implicit: implicit,
            style,
        };
        yaml_emitter_emit_scalar(&mut self.emitter, &content)
    }

    /// Does the same as `scalar` if an anchor or a tag awaits its node. Out of line, so that `scalar` is inlined.
    #[inline(never)]
    fn scalar_with_properties(
        &mut self,
        own: Option<&str>,
        value: &str,
        style: yaml_scalar_style_t,
    ) -> Result<(), yaml_error_t>
        ensures { Gives self.old (scalar_event self.old (option_or self.old.tag (seen_name own.entry)) (chars value.now)
            (seen_scalar_style style)) result self.new }
    {
        let content = scalar_content(&self.anchor, &self.tag, own, value, style);
        let answer = yaml_emitter_emit_scalar(&mut self.emitter, &content);
        if self.emitter.has_taken(answer) {
            use_up(&mut self.anchor, &mut self.tag);
        }
        answer
    }

    /// Returns whether an anchor or a tag was given whose node wasn't yet.
    pub fn awaits_node(&self) -> bool
        ensures { result ≡ awaits_node self.now }
    {
        self.anchor.is_some() || self.tag.is_some()
    }

    /// States what a caller may rely on of the emitter, whatever was called before.
    pub fn promised(&self)
        ensures stands { StandsAfter self.now.emitter.given self.now.emitter.events self.now.emitter }
        ensures taken { self.now.emitter.page.taken ≤ length self.now.emitter.page.output }
        ensures promised { IsPromised self.now.emitter }
    {
        self.emitter.promised();
    }

    /// Returns the first error of the emitter, which each event after it returns, too.
    pub fn error(&self) -> Option<yaml_error_t>
        ensures { result ≡ self.now.emitter.error }
    {
        self.emitter.error()
    }

    /// Returns the bytes of the stream that were flushed so far and not taken before, so that a stream of any length can
    /// be sent onwards while it is written: the bytes that these calls return, and then those of `finish`, are together the
    /// stream. A document's bytes are flushed at its end at the latest, by `next_document` or `finish`.
    ///
    /// It may be called at any time, also after an error, and takes no memory. All else stays: the collections that are open,
    /// the anchor and the tag of the next node, and the emitter's error. The limit counts the bytes that were taken, too.
    pub fn take_output(&mut self) -> Vec<u8, A>
        ensures left { result.items ≡ output_left self.old.emitter.page }
        ensures kept { self.new ≡ record self.old { emitter = with_all_taken self.old.emitter } }
    {
        yaml_emitter_take_output(&mut self.emitter)
    }

    /// Hands the bytes that `take_output` would return on to a sink; they are then taken, too. So a stream of any length is
    /// written in the memory of 16,384 bytes, of the longest text and of the open collections: send after each document, or, as its
    /// bytes are flushed 16,384 at a time, after each call.
    ///
    /// All else of the writer stays.
    ///
    /// # Errors
    /// That of the sink, but for `Interrupted`, after which the write is tried again; `WriteZero` if it takes no byte. Then nothing
    /// of the writer changes: all these bytes are left, and the sink has a beginning of them, which may be empty.
    pub fn send<W: io::Write>(&mut self, sink: &mut W) -> io::Result<()>
        ensures sent { OnOk result (Appends (W.contents sink.old) (W.contents sink.new) (output_left self.old.emitter.page)) }
        ensures kept { OnOk result (self.new ≡ record self.old { emitter = with_all_taken self.old.emitter }) }
        ensures left { OnErr result (self.new ≡ self.old) }
        ensures first { OnErr result (AppendsFirst (W.contents sink.old) (W.contents sink.new) (output_left self.old.emitter.page)) }
    {
        match write_to_sink(sink, self.emitter.output()) {
            Ok(()) => {
                yaml_emitter_consume_output(&mut self.emitter);
                Ok(())
            }
            Err(error) => Err(error),
        }
    }

    /// Ends the document and the stream, and returns the bytes of the stream that weren't taken before. A stream of more
    /// documents than one comes by `next_document`.
    ///
    /// # Errors
    /// `ExpectedNode` if an anchor or a tag awaits its node. Else the first error of the emitter, as `ExpectedNode` if a document
    /// has no root, or a collection is still open. `WriteError` if the bytes pass the limit. `Memory` if an allocation fails.
    pub fn finish(self) -> Result<Vec<u8, A>, yaml_error_t>
        ensures awaited { awaits_node self ≡ true → result ≡ Err yaml_error_t.ExpectedNode }
        ensures finishes { IfOk result (λ bytes. Finishes self.emitter bytes.items) }
        ensures unfinished { awaits_node self ≡ false → IfErr result (λ error. IsUnfinished self.emitter error) }
    {
        self.finish_with(DocumentEnd::Implicit)
    }

    /// Does the same as `finish`, but writes the document's end as `...` if that is asked for.
    ///
    /// # Errors
    /// Those of `finish`.
    pub fn finish_with(self, end: DocumentEnd) -> Result<Vec<u8, A>, yaml_error_t>
        ensures awaited { awaits_node self ≡ true → result ≡ Err yaml_error_t.ExpectedNode }
        ensures finishes { IfOk result (λ bytes. FinishesBy (is_implicit end) self.emitter bytes.items) }
        ensures unfinished { awaits_node self ≡ false → IfErr result (λ error. IsUnfinishedBy (is_implicit end) self.emitter error) }
    {
        if self.awaits_node() {
            return Err(yaml_error_t::ExpectedNode);
        }
        let mut emitter = self.into_emitter();
        match end_stream(&mut emitter, end) {
            Ok(()) => Ok(yaml_emitter_take_output(&mut emitter)),
            Err(error) => Err(error),
        }
    }
}
