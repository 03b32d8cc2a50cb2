//! Laws of layouts, each the contract of a function that does nothing.
ghost use Rattle.std.specs.Prelude.{List};
ghost use Rattle.yaml_base.specs.Event.{Event};
ghost use Rattle.yaml_base.specs.Meaning.{CanonicalBytesRead, MeaningIsKept};
ghost use Rattle.yaml_base.specs.Settings.{Settings};
ghost use Rattle.yaml_base.specs.StreamLaw.{PortableReadsBack, StreamReadsBack};
ghost use Rattle.yaml_base.specs.WrittenTexts.{BodiesAreTidy, StreamsAgree, TextsHoldRaw};
ghost use Rattle.yaml_emitter.specs.Emits.{UntakenIsTold};
ghost use Rattle.yaml_emitter.specs.EncodedAlike as encoded;
ghost use Rattle.yaml_emitter.specs.Promises.{Promised};
ghost use Rattle.yaml_emitter.specs.StandsAfter.{StandsAfter};
ghost use Rattle.yaml_emitter.specs.State.{State};
ghost use Rattle.yaml_emitter.specs.Uncut.{OutputReads, OutputReadsBack, OutputTells, OutputTellsContent};

pub use yaml_base::laws::{
    breaks_agree, bytes_have_one_text, canonical_documents_have_texts, documents_unfold,
    encodings_agree, layout_has_one_piece_each, limit_cuts_the_output, list_has_one_tree,
    pieces_stand, plain_holds_no_indicator, ready_events_stay_ready, refused_exactly,
    tree_is_found, whole_stream_is_ready,
};
pub use yaml_mark::laws::{
    escaped_text_reads, portable_suffix_holds_no_flow_indicator, written_tag_reads,
    written_tag_stays_one_word,
};

/// States that every scalar in the layout of an accepted list reads back: its text, read at its place by the rules of its
/// style, gives exactly its value, and each nonempty line of it after the first begins with at least two spaces.
pub fn meaning_is_kept()
    ensures { MeaningIsKept }
{}

/// States which characters the text of a well-formed event stream holds unescaped: only printable ones, the CR of line breaks,
/// and tabs if blanks are literal, so Unicode scalar values; only ASCII unless `unicode` is set; and neither U+2028 nor U+2029
/// in portable mode or with the line breaks of YAML 1.2 (section 5.4).
pub fn texts_hold_raw()
    ensures { TextsHoldRaw }
{}

/// States that every scalar in the layout of a well-formed event stream is tidy: each nonempty line of it after the first is
/// indented deeper than the block around it and isn't of blanks alone, a space precedes a break in a block style only, and a
/// plain text has no blank and no break at its edges.
pub fn bodies_are_tidy()
    ensures { BodiesAreTidy }
{}

/// States that the encoding doesn't change the text: under settings that differ in the encoding alone, the bytes of a
/// well-formed event stream, decoded without their byte order mark, give the same characters.
pub fn streams_agree()
    ensures { StreamsAgree }
{}

/// States that output in UTF-16 has the text of output in UTF-8: its first two bytes are the byte order mark, and the rest
/// decodes to the characters of the UTF-8 output, if no limit cuts them.
pub fn encoded_alike()
    ensures { encoded.EncodedAlike }
{}

/// States that in canonical mode the bytes of an accepted list read back, if no limit cuts them: a reader with definitions
/// of its own finds in them every document's version, directives, nodes, anchors, tags and values.
pub fn canonical_bytes_read()
    ensures { CanonicalBytesRead }
{}

/// States that the output of an accepted list in canonical mode, if no limit cuts it, reads as the list's content. So, under
/// equal settings, equal outputs come only from equal contents.
pub fn canonical_output_reads()
    ensures reads { (given : Settings) (events : List Event) → OutputReads given events }
    ensures tells { (given : Settings) (first second : List Event) → OutputTells given first second }
{}

/// States that in every mode the bytes of a well-formed event stream read back, if no limit cuts them: a reader of YAML with
/// definitions of its own finds in them documents that agree with the events, in version and directives, and node for node in
/// kind, anchor, alias, written tag, value and entries. If portable mode is off, two kinds of streams are excepted, which
/// readers of YAML read differently: one whose first document is written as nothing at all, an empty plain root without `---`;
/// and one in which a flow indicator (`,` `[` `]`) follows a tag's handle, where readers end the tag.
pub fn streams_read_back()
    ensures { StreamReadsBack }
{}

/// States that in portable mode the bytes read back, as in `streams_read_back`, with the line breaks of YAML 1.1 and with
/// those of 1.2.
pub fn portable_streams_read_back()
    ensures { PortableReadsBack }
{}

/// States that the output of a well-formed event stream in every mode, if no limit cuts it, reads back, with the same two
/// kinds of streams excepted. So, under equal settings, equal outputs come only from streams of the same content.
pub fn output_tells_content()
    ensures reads { (given : Settings) (events : List Event) → OutputReadsBack given events }
    ensures tells { (given : Settings) (first second : List Event) → OutputTellsContent given first second }
{}

/// States how the caller of `yaml_emitter_emit_scalar` tells a scalar that wasn't taken: the call failed, and the emitter has no error.
pub fn untaken_scalar_is_told()
    ensures { UntakenIsTold }
{}

/// States that an emitter that has been given some events (`StandsAfter`) keeps every promise about them (`Promised`).
pub(crate) fn standing_is_promised()
    ensures { (given : Settings) (all : List Event) (state : State) → StandsAfter given all state → Promised given all state }
{}
