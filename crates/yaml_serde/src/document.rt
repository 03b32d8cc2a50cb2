//! A document that is being written.
ghost use Rattle.std.specs.Prelude.{◌≡◌, ◌+◌, ◌≤◌, ℕ, chars, Bool, false, true, None, Ok, OnOk, Some, length};
ghost use Rattle.yaml_writer.specs.Writing.{Begins, WriterState, awaits_node, text_event};
ghost use Rattle.yaml_serde.specs.Forms.{begin_event, form_of};
ghost use Rattle.yaml_serde.specs.Outlets.{BeginsKept, BeginsSent, HandsOn, Outside, Stands, some_outside};
ghost use Rattle.yaml_serde.specs.ValueCalls.{GivesValue, SendsValue};
ghost use Rattle.yaml_serde.specs.Variants.{GivesAndSends, GivesCollection};

use crate::error::{Cause, Error};
use crate::outlet::{Handing, Outlet, hand_on};
use crate::scalars::{Scalar, give_scalar};
use std::alloc::Global;
use std::io::Write;
use std::marker::{Brand, PhantomData};
use yaml_writer::{
    CollectionKind, ValueSettings, Writer, YAML_BLOCK_MAPPING_STYLE, YAML_BLOCK_SEQUENCE_STYLE,
    YAML_FLOW_MAPPING_STYLE, YAML_FLOW_SEQUENCE_STYLE, yaml_error_t,
};

/// A type that names the state before a document.
pub(crate) trait Given {
    ghost outside: { Outside };
}

/// A target that a value is written to, by the state of its writer.
pub(crate) trait Target {
    ghost state: { Self → WriterState };

    ghost in_flow: { Self → Bool };

    /// The most collections that the writer may have open.
    ghost most: { Self → ℕ };

    /// Writes a node that is neither a text nor a collection.
    fn scalar(&mut self, scalar: Scalar<'_>) -> Result<(), Error>;

    fn text(&mut self, value: &str) -> Result<(), Error>
        ensures { OnOk result (GivesAndSends (state self.old) (text_event (state self.old) (chars value.now)) (state self.new)) };

    /// Begins a collection, unless it is too deep.
    fn begin(&mut self, kind: CollectionKind) -> Result<(), Error>
        ensures begun { OnOk result (GivesCollection (in_flow self.old) kind (state self.old) (state self.new)) }
        ensures depth { OnOk result (length (state self.new).levels ≤ most self.old) };

    /// Ends the innermost collection that was begun here.
    fn end(&mut self) -> Result<(), Error>;

    /// Gives the next node a tag.
    fn tagged(&mut self, tag: &str) -> Result<(), Error>
        ensures { OnOk result (state self.new ≡ record (state self.old) { tag = Some (chars tag.now) }) };
}

/// The caller of a generic function chooses it.
impl Given for Brand {
    ghost outside = { some_outside };
}

/// A document being written: its writer, and the place to which the bytes go.
#[derive(Drop)]
pub(crate) struct Document<'w, 'a, G: Given, W: Write> {
    writer: &'w mut Writer<Global>,
    outlet: Outlet<'a, W>,
    /// The number of the writer's collections that are no part of the document.
    base: usize,
    settings: ValueSettings,
    marker: PhantomData<G>,
    ghost stands: { Stands W.contents G.outside outlet base writer.now },
    ghost lent: { writer.ghost_name ≡ G.outside.lent },
    ghost form: { form_of settings ≡ G.outside.form },
}

impl<'w, 'a, G: Given, W: Write> Document<'w, 'a, G, W> {
    /// Makes a document whose bytes stay with the writer; the sink gets none.
    pub(crate) fn kept(
        writer: &'w mut Writer<Global>,
        nowhere: &'a mut W,
        settings: ValueSettings,
    ) -> Document<'w, 'a, G, W>
        requires { BeginsKept G.outside (form_of settings) writer.now writer.ghost_name }
    {
        let base = writer.depth();
        Document {
            writer,
            outlet: Outlet {
                sink: nowhere,
                handing: Handing::Kept,
            },
            base,
            settings,
            marker: PhantomData,
        }
    }

    /// Makes a document whose bytes are handed on to a sink.
    pub(crate) fn sent(
        writer: &'w mut Writer<Global>,
        sink: &'a mut W,
        settings: ValueSettings,
    ) -> Document<'w, 'a, G, W>
        requires { BeginsSent G.outside (form_of settings) writer.now writer.ghost_name (W.contents sink.now) sink.ghost_name }
    {
        let base = writer.depth();
        Document {
            writer,
            outlet: Outlet {
                sink,
                handing: Handing::Open,
            },
            base,
            settings,
            marker: PhantomData,
        }
    }

    /// Hands on the flushed bytes, once an event was given.
    fn settle(&mut self, given: Result<(), yaml_error_t>) -> Result<(), Error>
        ensures given { OnOk result (given ≡ Ok tt) }
        ensures hands { given ≡ Ok tt → HandsOn W.contents self.old.outlet.handing self.old.outlet self.old.writer.now result
            self.new.outlet self.new.writer.now }
    {
        given?;
        hand_on(self.writer, &mut self.outlet)
    }

    /// Returns the writer, the sink as far as the document was handed on, and the sink's error, if it has one.
    pub(crate) fn into_parts(self) -> (&'w mut Writer<Global>, &'a mut W, Result<(), Error>)
        requires { G.outside.keeps ≡ false }
        ensures lent { result.0.ghost_name ≡ G.outside.lent }
        ensures same { result.1.ghost_name ≡ G.outside.name }
        ensures sends { SendsValue G.outside.form G.outside.held G.outside.start.emitter result.2 (W.contents result.1.now) result.0.now.emitter }
    {
        let Document { writer, outlet, .. } = self;
        let Outlet { sink, handing } = outlet;
        writer.promised();
        if let Handing::Failed(error) = handing {
            return (writer, sink, Err(Error::from(Cause::Sink(error))));
        }
        (writer, sink, Ok(()))
    }

    /// Returns the writer, the sink, and the writer's error, if it has one; `ExpectedNode` if something that the document
    /// opened isn't ended, or an anchor or a tag awaits its node.
    pub(crate) fn into_writer(self) -> (&'w mut Writer<Global>, &'a mut W, Result<(), Error>)
        requires { G.outside.keeps ≡ true }
        ensures lent { result.0.ghost_name ≡ G.outside.lent }
        ensures gives { GivesValue G.outside.form G.outside.start result.2 result.0.now }
    {
        let Document {
            writer,
            outlet,
            base,
            ..
        } = self;
        let Outlet { sink, handing: _ } = outlet;
        let whole = check_whole(writer, base);
        (writer, sink, whole)
    }
}

impl<G: Given, W: Write> Target for Document<'_, '_, G, W> {
    ghost state = { λ document. document.writer.now };

    ghost in_flow = { λ document. document.settings.flow };

    ghost most = { λ document. document.base + document.settings.depth };

    fn scalar(&mut self, scalar: Scalar<'_>) -> Result<(), Error> {
        let given = give_scalar(self.writer, scalar);
        self.settle(given)
    }

    fn text(&mut self, value: &str) -> Result<(), Error> {
        let given = self.writer.text(value);
        self.settle(given)
    }

    fn begin(&mut self, kind: CollectionKind) -> Result<(), Error> {
        if self.writer.depth().saturating_sub(self.base) >= self.settings.depth {
            return Err(Error::from(Cause::TooDeep));
        }
        let begun = start(self.writer, kind, &self.settings);
        self.settle(begun)
    }

    fn end(&mut self) -> Result<(), Error> {
        if self.writer.depth() <= self.base {
            return Err(Error::from(yaml_error_t::ExpectedDocumentEnd));
        }
        let ended = self.writer.end();
        self.settle(ended)
    }

    fn tagged(&mut self, tag: &str) -> Result<(), Error> {
        Ok(self.writer.tagged(tag)?)
    }
}

/// Gives a writer the start of a collection.
fn start(
    writer: &mut Writer<Global>,
    kind: CollectionKind,
    settings: &ValueSettings,
) -> Result<(), yaml_error_t>
    ensures { Begins kind writer.old (begin_event settings.now.flow kind writer.old) result writer.new }
{
    match kind {
        CollectionKind::Sequence => writer.begin_sequence(if settings.flow {
            YAML_FLOW_SEQUENCE_STYLE
        } else {
            YAML_BLOCK_SEQUENCE_STYLE
        }),
        CollectionKind::Mapping => writer.begin_mapping(if settings.flow {
            YAML_FLOW_MAPPING_STYLE
        } else {
            YAML_BLOCK_MAPPING_STYLE
        }),
    }
}

/// Returns the error of a writer, if it has one; `ExpectedNode` if it has another number of open collections, or an anchor or a tag
/// awaits its node.
fn check_whole(writer: &Writer<Global>, base: usize) -> Result<(), Error>
    ensures whole { OnOk result ((length writer.now.levels ≡ base) × (awaits_node writer.now ≡ false)) }
    ensures sound { OnOk result (writer.now.emitter.error ≡ None) }
{
    match writer.error() {
        Some(error) => Err(Error::from(error)),
        None if writer.depth() == base && !writer.awaits_node() => Ok(()),
        None => Err(Error::from(yaml_error_t::ExpectedNode)),
    }
}
