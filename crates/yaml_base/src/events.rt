//! Events: a stream of documents, piece by piece (YAML 1.1, section 3.2.2).
ghost use Rattle.std.specs.Prelude.{◌≡◌};
ghost use Rattle.yaml_base.specs.declared.events.yaml_event_t.TheVariants.{YAML_STREAM_END_EVENT};

use crate::directives::{yaml_tag_directive_t, yaml_version_directive_t};
use crate::encodings::yaml_encoding_t;
use crate::styles::{yaml_mapping_style_t, yaml_scalar_style_t, yaml_sequence_style_t};
use std::alloc::Allocator;

/// An event of a stream. An anchor names a node, an alias refers to the node of that name,
/// a tag says of what type a node is.
#[derive(Drop)]
#[derive_where(PartialEq, Eq, Debug)]
pub enum yaml_event_t<A: Allocator> {
    /// A stream begins.
    YAML_STREAM_START_EVENT {
        /// The encoding of the stream, if the emitter has none of its own.
        encoding: yaml_encoding_t,
    },
    /// A stream ends.
    YAML_STREAM_END_EVENT,
    /// A document begins.
    YAML_DOCUMENT_START_EVENT {
        /// The version to be written.
        version_directive: Option<yaml_version_directive_t>,
        /// The handles that shorten tags in this document.
        tag_directives: Vec<yaml_tag_directive_t<A>, A>,
        /// Whether `---` may be left out.
        implicit: bool,
    },
    /// A document ends.
    YAML_DOCUMENT_END_EVENT {
        /// Whether `...` may be left out.
        implicit: bool,
    },
    /// Another occurrence of a node.
    YAML_ALIAS_EVENT {
        /// The name of that node.
        anchor: String<A>,
    },
    /// A scalar.
    YAML_SCALAR_EVENT {
        /// Its name.
        anchor: Option<String<A>>,
        /// Its tag.
        tag: Option<String<A>>,
        /// Its text.
        value: String<A>,
        /// Whether the tag may be left out if the scalar is plain.
        plain_implicit: bool,
        /// Whether the tag may be left out in any other style.
        quoted_implicit: bool,
        /// The style in which it is to be written.
        style: yaml_scalar_style_t,
    },
    /// A sequence begins. Its items follow.
    YAML_SEQUENCE_START_EVENT {
        /// Its name.
        anchor: Option<String<A>>,
        /// Its tag.
        tag: Option<String<A>>,
        /// Whether the tag may be left out.
        implicit: bool,
        /// The style in which it is to be written.
        style: yaml_sequence_style_t,
    },
    /// A sequence ends.
    YAML_SEQUENCE_END_EVENT,
    /// A mapping begins. Its pairs follow, each a key and a value.
    YAML_MAPPING_START_EVENT {
        /// Its name.
        anchor: Option<String<A>>,
        /// Its tag.
        tag: Option<String<A>>,
        /// Whether the tag may be left out.
        implicit: bool,
        /// The style in which it is to be written.
        style: yaml_mapping_style_t,
    },
    /// A mapping ends.
    YAML_MAPPING_END_EVENT,
}

/// STREAM-END.
impl<A: Allocator> Default for yaml_event_t<A> {
    ghost is_default = { λ event. event ≡ YAML_STREAM_END_EVENT };

    fn default() -> Self {
        yaml_event_t::YAML_STREAM_END_EVENT
    }
}
