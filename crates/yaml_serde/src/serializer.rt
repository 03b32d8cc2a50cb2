//! The serializer over a document.
ghost use Rattle.std.specs.Prelude.{◌++◌, ◌≡◌, ◌≤◌, chars, IfOk, OnOk, length, string_bytes};
ghost use Rattle.serde.specs.Spelling.{spelled};
ghost use Rattle.serde.specs.declared.name.NameKind.TheVariants as kind;
ghost use Rattle.yaml_base.specs.declared.kinds.CollectionKind.TheVariants.{Mapping};
ghost use Rattle.yaml_serde.specs.Variants.{BeginsVariant, GivesAndSends, GivesCollection};
ghost use Rattle.yaml_writer.specs.Writing.{text_event};
ghost use Rattle.yaml_serde.specs.declared.settings.Variants.TheVariants as variants;

use crate::document::Target;
use crate::error::{Cause, Error};
use crate::path::{LevelKind, Path, text_of};
use crate::scalars::Scalar;
use crate::settings::Variants;
use serde::{Case, NameKind, Serialize, Serializer};
use std::alloc::{AllocError, Global};
use std::fmt::Display;
use yaml_writer::CollectionKind;

/// The subject of the next call.
#[derive(Clone, Copy)]
enum Next {
    /// A node.
    Node,
    /// The data of a variant, whose tag is given.
    Data,
    /// The key of a map of one entry, whose start isn't written: the name of a variant makes it that variant.
    Entry,
    /// The key of a map of one entry that is the data of a variant; the map's start isn't written.
    EntryOfData,
    /// A map whose members go into the one that is open.
    Members,
}

/// Writes the calls that a value sends.
struct ValueSerializer<D: Target> {
    alloc: Global,
    document: D,
    variants: Variants,
    next: Next,
    path: Path,
}

/// Returns a document with a value more, and the answer of the value's own `serialize`, with the path to its error.
pub(crate) fn with_value<T: Serialize, D: Target>(
    alloc: Global,
    document: D,
    value: &T,
    variants: Variants,
) -> (D, Result<(), Error>) {
    let mut serializer = ValueSerializer {
        alloc,
        document,
        variants,
        next: Next::Node,
        path: Path::new(alloc),
    };
    let answer = value.serialize(&mut serializer);
    let ValueSerializer {
        alloc: _,
        document,
        variants: _,
        next: _,
        path,
    } = serializer;
    (document, path.located(answer))
}

impl<D: Target> ValueSerializer<D> {
    /// Prepares for a node that is no map.
    fn prepare_node(&mut self) -> Result<(), Error> {
        match self.next {
            Next::Members => Err(Error::from(Cause::Flattened)),
            Next::Entry | Next::EntryOfData => self.open_map(),
            Next::Node | Next::Data => {
                self.next = Next::Node;
                Ok(())
            }
        }
    }

    /// Writes the start of a map of one entry that is no variant.
    fn open_entry(&mut self) -> Result<(), Error> {
        match self.next {
            Next::Entry | Next::EntryOfData => self.open_map(),
            Next::Node | Next::Data | Next::Members => Ok(()),
        }
    }

    fn open_map(&mut self) -> Result<(), Error>
        ensures begun { OnOk result (GivesCollection (D.in_flow self.old.document) Mapping (D.state self.old.document) (D.state self.new.document)) }
        ensures depth { OnOk result (length (D.state self.new.document).levels ≤ D.most self.old.document) }
    {
        self.path.enter(LevelKind::Map)?;
        self.next = Next::Node;
        self.document.begin(CollectionKind::Mapping)
    }

    fn enter_unwritten(&mut self, next: Next) -> Result<(), Error>
        ensures { D.state self.new.document ≡ D.state self.old.document }
    {
        self.path.enter(LevelKind::Unwritten)?;
        self.next = next;
        Ok(())
    }

    /// Begins a variant with data, in place of a map of one entry.
    fn begin_variant(&mut self, name: &str, case: Case) -> Result<(), Error>
        ensures { OnOk result (BeginsVariant self.old.variants (D.in_flow self.old.document) (spelled case kind.Variant name.now)
            (D.state self.old.document) (D.state self.new.document)) }
    {
        match self.variants {
            Variants::Tags => self.begin_tagged(name, case),
            Variants::OneKeyMap => self.begin_keyed(name, case),
        }
    }

    /// Gives the next node the tag of a variant.
    fn begin_tagged(&mut self, name: &str, case: Case) -> Result<(), Error>
        ensures { OnOk result (BeginsVariant variants.Tags (D.in_flow self.old.document) (spelled case kind.Variant name.now)
            (D.state self.old.document) (D.state self.new.document)) }
    {
        let tag = spelled_text(self.alloc, "!", NameKind::Variant, name, case)?;
        self.document.tagged(tag.as_str())?;
        self.enter_unwritten(Next::Data)
    }

    /// Begins a map, whose first key is the name of a variant.
    fn begin_keyed(&mut self, name: &str, case: Case) -> Result<(), Error>
        ensures { OnOk result (BeginsVariant variants.OneKeyMap (D.in_flow self.old.document) (spelled case kind.Variant name.now)
            (D.state self.old.document) (D.state self.new.document)) }
    {
        let key = spelled_text(self.alloc, "", NameKind::Variant, name, case)?;
        self.open_map()?;
        self.path.begin_key();
        self.give_text(key.as_str())
    }

    /// Writes a text as the next node.
    fn give_text(&mut self, value: &str) -> Result<(), Error>
        ensures { OnOk result (GivesAndSends (D.state self.old.document) (text_event (D.state self.old.document) (chars value.now))
            (D.state self.new.document)) }
    {
        self.document.text(value)?;
        self.path.pass_text(value)
    }

    fn text(&mut self, value: &str) -> Result<(), Error> {
        self.prepare_node()?;
        self.give_text(value)
    }

    /// Writes a node that is neither a text nor a collection.
    fn node(&mut self, scalar: Scalar<'_>) -> Result<(), Error> {
        self.prepare_node()?;
        self.document.scalar(scalar)?;
        self.path.pass_scalar(scalar)
    }

    /// Ends the innermost collection, which is no level of the path any more.
    fn end_collection(&mut self) -> Result<(), Error> {
        self.document.end()?;
        self.path.pass();
        Ok(())
    }

    fn name(&mut self, kind: NameKind, name: &str, case: Case) -> Result<(), Error> {
        if matches!(case, Case::AsIs) {
            return self.text(name);
        }
        let spelled = spelled_text(self.alloc, "", kind, name, case)?;
        self.text(spelled.as_str())
    }
}

/// Returns a name as it is spelled, after a prefix.
fn spelled_text(
    alloc: Global,
    prefix: &str,
    kind: NameKind,
    name: &str,
    case: Case,
) -> Result<String, AllocError>
    ensures { IfOk result (λ text. string_bytes text ≡ prefix.now ++ spelled case kind name.now) }
{
    let mut text = String::from_str(alloc, prefix)?;
    case.append(kind, name, &mut text)?;
    Ok(text)
}

impl<D: Target> Serializer for ValueSerializer<D> {
    type Error = Error;

    fn bool(&mut self, v: bool) -> Result<(), Error> {
        self.node(Scalar::Bool(v))
    }

    fn i64(&mut self, v: i64) -> Result<(), Error> {
        self.node(Scalar::Int(v))
    }

    fn u64(&mut self, v: u64) -> Result<(), Error> {
        self.node(Scalar::Unsigned(v))
    }

    fn i128(&mut self, v: i128) -> Result<(), Error> {
        self.node(Scalar::WideInt(v))
    }

    fn u128(&mut self, v: u128) -> Result<(), Error> {
        self.node(Scalar::WideUnsigned(v))
    }

    fn f32(&mut self, v: f32) -> Result<(), Error> {
        self.node(Scalar::Single(v))
    }

    fn f64(&mut self, v: f64) -> Result<(), Error> {
        self.node(Scalar::Float(v))
    }

    fn char(&mut self, v: char) -> Result<(), Error> {
        let mut buffer = [0; 4];
        self.text(v.encode_utf8(&mut buffer))
    }

    fn str(&mut self, v: &str) -> Result<(), Error> {
        self.text(v)
    }

    /// Writes bytes. Their tag says that the text is base64; a node can't have it beside the tag of a variant.
    fn bytes(&mut self, v: &[u8]) -> Result<(), Error> {
        if matches!(self.next, Next::Data) {
            return Err(Error::from(Cause::TwoTags));
        }
        self.node(Scalar::Bytes(v))
    }

    fn unit(&mut self) -> Result<(), Error> {
        if matches!(self.next, Next::Members) {
            self.next = Next::Node;
            return Ok(());
        }
        self.node(Scalar::Null)
    }

    fn str_cased(&mut self, name: &str, case: Case) -> Result<(), Error> {
        self.name(NameKind::Variant, name, case)
    }

    fn begin_seq(&mut self, _len: Option<usize>) -> Result<(), Error> {
        self.prepare_node()?;
        self.document.begin(CollectionKind::Sequence)?;
        self.path.enter(LevelKind::Sequence)
    }

    fn end_seq(&mut self) -> Result<(), Error> {
        self.open_entry()?;
        self.path.leave();
        self.end_collection()
    }

    /// Begins a map. One of one entry waits for its key, which may be the name of a variant.
    fn begin_map(&mut self, len: Option<usize>) -> Result<(), Error> {
        self.open_entry()?;
        match (self.next, len) {
            (Next::Members, _) => self.enter_unwritten(Next::Node),
            (Next::Data, Some(1)) => {
                self.next = Next::EntryOfData;
                Ok(())
            }
            (_, Some(1)) => {
                self.next = Next::Entry;
                Ok(())
            }
            _ => self.open_map(),
        }
    }

    fn end_map(&mut self) -> Result<(), Error> {
        self.open_entry()?;
        if self.path.leave() {
            self.path.pass();
            return Ok(());
        }
        self.end_collection()
    }

    fn key_cased(&mut self, name: &str, case: Case) -> Result<(), Error> {
        self.begin_key()?;
        self.name(NameKind::Field, name, case)
    }

    /// Takes a key that is the name of a variant. In a flattened map it is a key like others.
    fn variant_key(&mut self, name: &str, case: Case) -> Result<(), Error> {
        match self.next {
            Next::Entry => self.begin_variant(name, case),
            Next::EntryOfData => Err(Error::from(Cause::TwoTags)),
            Next::Node | Next::Data | Next::Members => {
                self.path.begin_key();
                self.name(NameKind::Variant, name, case)
            }
        }
    }

    fn begin_key(&mut self) -> Result<(), Error> {
        self.open_entry()?;
        self.path.begin_key();
        Ok(())
    }

    fn end_key(&mut self) -> Result<(), Error> {
        Ok(())
    }

    fn flatten_next(&mut self) -> Result<(), Error> {
        self.open_entry()?;
        self.next = Next::Members;
        Ok(())
    }

    fn custom(&self, message: &str) -> Error {
        match String::from_str(self.alloc, message) {
            Ok(message) => Error::from(Cause::Custom(message)),
            Err(_) => Error::from(Cause::Memory),
        }
    }

    fn collect_str<T: Display>(&mut self, value: &T) -> Result<(), Error> {
        let text = text_of(self.alloc, value)?;
        self.text(text.as_str())
    }
}
