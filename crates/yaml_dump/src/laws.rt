//! Laws of dumped graphs, each the contract of a function that does nothing.

ghost use Rattle.yaml_dump.specs.DumpsTell.{DumpsTell};
ghost use Rattle.yaml_dump.specs.EqualBytes as equal;
ghost use Rattle.yaml_dump.specs.GraphTrees.{DumpedTreesUnfold};
ghost use Rattle.yaml_dump.specs.TypedDumps.{TypedDumpsReadBack};

pub use yaml_emitter::laws::{
    bodies_are_tidy, breaks_agree, bytes_have_one_text, canonical_bytes_read,
    canonical_documents_have_texts, canonical_output_reads, documents_unfold, encoded_alike,
    encodings_agree, escaped_text_reads, layout_has_one_piece_each, limit_cuts_the_output,
    list_has_one_tree, meaning_is_kept, output_tells_content, pieces_stand,
    plain_holds_no_indicator, portable_streams_read_back, portable_suffix_holds_no_flow_indicator,
    ready_events_stay_ready, refused_exactly, streams_agree, streams_read_back, texts_hold_raw,
    tree_is_found, untaken_scalar_is_told, whole_stream_is_ready, written_tag_reads,
    written_tag_stays_one_word,
};

/// States the consequences of a dump, and of emitting events in order.
pub fn dumps_tell()
    ensures { DumpsTell }
{}

/// States that documents that agree with the events of dumped graphs unfold these graphs, each its own, except for styles:
/// the same nodes are shared, at each place the tag is the node's (if none was read, that of its kind), and version and
/// directives are the graph's.
pub fn dumped_trees_unfold()
    ensures { DumpedTreesUnfold }
{}

/// States that equal bytes mean equal graphs: if two streams of dumped documents have the same output under the same
/// settings, and no limit cuts it, their documents pair off with the same versions and directives, and the parts of their
/// graphs that the roots reach are isomorphic. One bijection of node numbers takes root to root, and keeps kinds, tags,
/// values, and children in order (`Isomorphic`). This holds in canonical mode, and in every mode for streams that read back (see
/// `streams_read_back` of `yaml_emitter`). So whoever has only the bytes, and knows that a dump wrote them, knows the graphs.
pub fn equal_bytes_tell_graphs()
    ensures canonical { equal.EqualBytesTellGraphs }
    ensures readable { equal.EqualReadableBytesTellGraphs }
    ensures read { equal.OneReading }
    ensures read_back { equal.OneReadingBack }
{}

/// States that isomorphic graphs give equal bytes in canonical mode, whatever their nodes' numbers and styles, if
/// the documents have the same versions, directives and explicit ends, and the streams ask for the same encoding.
pub fn equal_graphs_give_bytes()
    ensures { equal.IsomorphicGraphsDumpEqually }
{}

/// States that documents that were dumped with their types read back as their graphs with all their tags, whether the type
/// repository of YAML 1.1 or the core schema of YAML 1.2 resolves them. This holds for an emitter that was given the typed events
/// of a whole stream of documents and has no error. If portable mode is off, two kinds of streams are excepted (see
/// `streams_read_back` of `yaml_emitter`).
pub fn typed_dumps_read_back()
    ensures { TypedDumpsReadBack }
{}
