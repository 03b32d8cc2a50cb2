//! Laws of the definitions, each the contract of a function that does nothing: the promises that they make together.
ghost use Rattle.yaml_base.specs.Encoding.{OneText};
ghost use Rattle.yaml_base.specs.Grammar.{OneTree};
ghost use Rattle.yaml_base.specs.Laws.{BreaksAgree, EncodingsAgree, LimitCuts, PlainHoldsNoIndicator, TreeIsFound};
ghost use Rattle.yaml_base.specs.Laws.{CanonicalOutputIsText, DumpsHaveTexts, OneTextEach};
ghost use Rattle.yaml_base.specs.Layout.{OnePieceEach};
ghost use Rattle.yaml_base.specs.Pieces.{PiecesStand};
ghost use Rattle.yaml_base.specs.Ready.{ReadyStays, WholeStreamIsReady};
ghost use Rattle.yaml_base.specs.Refusal.{RefusedExactly};
ghost use Rattle.yaml_base.specs.graphs.Unfolding.{DocumentsUnfold};

/// States that a list of events is the events of at most one tree.
pub fn list_has_one_tree()
    ensures { OneTree }
{}

/// States that bytes are the encoding of at most one text of Unicode scalar values.
pub fn bytes_have_one_text()
    ensures { OneText }
{}

/// States that a layout has one piece for each event.
pub fn layout_has_one_piece_each()
    ensures { OnePieceEach }
{}

/// States that written pieces are final: every accepted continuation begins with them, unless it closes a collection just opened.
pub fn pieces_stand()
    ensures { PiecesStand }
{}

/// States that an event that is ready stays ready as the list grows.
pub fn ready_events_stay_ready()
    ensures { ReadyStays }
{}

/// States that after events that begin an accepted list, the next event is refused exactly if no accepted list continues
/// with it.
pub fn refused_exactly()
    ensures { RefusedExactly }
{}

/// States that all events of a whole stream are ready.
pub fn whole_stream_is_ready()
    ensures { WholeStreamIsReady }
{}

/// States that the events of a graph that has nodes, each number in which names one, are those of a document whose tree
/// unfolds it.
pub fn documents_unfold()
    ensures { DocumentsUnfold }
{}

/// States that under the settings of canonical values the bytes of one document that has no directives, and whose end is implicit, are
/// the encoding of one text, which is defined by recursion over the tree of its events (`DumpedText`). So they are of one dumped
/// document, whose tree unfolds its graph. The canonical text of a typed value is that of its tree by definition.
pub fn canonical_documents_have_texts()
    ensures output { CanonicalOutputIsText }
    ensures dumped { DumpsHaveTexts }
    ensures one { OneTextEach }
{}

/// States that the tree of a whole stream's events is found.
pub fn tree_is_found()
    ensures { TreeIsFound }
{}

/// States that a text that reads as a plain scalar holds no `:` before a blank, a break or its end, and no `#` after a
/// blank or a break; in flow none of `,` `?` `:` `[` `]` `{` `}` (YAML 1.1, section 9.1.3).
pub fn plain_holds_no_indicator()
    ensures { PlainHoldsNoIndicator }
{}

/// States that under settings that differ in the limit alone, the output under the smaller limit is the first bytes of the other.
pub fn limit_cuts_the_output()
    ensures { LimitCuts }
{}

/// States that under settings that differ in the encoding alone, the bytes of a layout are one text: without their mark, they
/// decode to the same characters, if these are Unicode scalar values.
pub fn encodings_agree()
    ensures { EncodingsAgree }
{}

/// States that in portable mode the layout is the same with the line breaks of YAML 1.1 and with those of 1.2, so a promise about
/// one holds for the other.
pub fn breaks_agree()
    ensures { BreaksAgree }
{}
