//! Laws of canonical bytes and their words, the contracts of functions that do nothing.
ghost use Rattle.std.specs.Prelude.{◌-◌, ◌<◌, ◌≡◌, ◌⊎◌, IfErr, IfOk, List, Result, Some, Vec, length, take, ℕ};
ghost use Rattle.yaml_base.specs.Encoding.{encode};
ghost use Rattle.yaml_base.specs.Settings.{utf8};
ghost use Rattle.yaml_base.specs.graphs.Isomorphic.{Isomorphic};
ghost use Rattle.yaml_base.specs.graphs.Meetings.{Graph};
ghost use Rattle.yaml_base.specs.values.TypedValues.{TypedValue, WritesValue, most_nested, nesting};
ghost use Rattle.yaml_base.specs.graphs.DumpedText.{document_text};
ghost use Rattle.yaml_read.specs.DocumentTexts.{AreDumpedBytes};
ghost use Rattle.yaml_read.specs.Grammar.{behind_value, node};
ghost use Rattle.yaml_read.specs.Opened.{HasRead, IsOpen};
ghost use Rattle.yaml_read.specs.Places.{BreaksOff};
ghost use Rattle.yaml_read.specs.ReadBack.{IsAnswerTo};
ghost use Rattle.yaml_read.specs.Readable.{CanBeRead};
ghost use Rattle.yaml_read.specs.Remaining.{IsDue, IsRead};
ghost use Rattle.yaml_read.specs.RepeatedKeys.{IsPlacedBy};
ghost use Rattle.yaml_read.specs.TextsAndWords.{BeginsText, BeginsValue, BeginsWith, GoesOnWith};
ghost use Rattle.yaml_read.specs.declared.errors.ReadError.TheVariants as told;
ghost use Rattle.yaml_read.specs.declared.errors.ReadError.{ReadError};
ghost use Rattle.yaml_value.specs.OpenLevels.{OpenLevel};
ghost use Rattle.yaml_value.specs.SeenValues.{seen_value};
ghost use Rattle.yaml_value.specs.declared.keys.Keys.TheVariants.{MayRepeat};
ghost use Rattle.yaml_value.specs.declared.value.Value.{Value};

use std::alloc::Allocator;

/// States that a value that was written is read back. A value that `write_canonical` wrote, which nests at most 1,000 deep, can be
/// read; and what `read_canonical` answers to the canonical bytes of a value that can be read is this value, or `Memory`.
pub fn written_values_are_read<A: Allocator>()
    ensures readable { (value : Value A) (bytes : List ℕ) → WritesValue (seen_value value) bytes → ¬ (most_nested < nesting (seen_value value))
        → CanBeRead (seen_value value) }
    ensures read { (value : TypedValue) (bytes : Vec ℕ A) (answer : Result (Value A) ReadError) → CanBeRead value → WritesValue value bytes.items
        → IsAnswerTo bytes.items answer → IfOk answer (λ found. seen_value found ≡ value) × IfErr answer (λ error. error ≡ told.Memory) }
{}

/// States that the words that the grammar allows at a node and after one are those with which texts of values go on there. If a text
/// has a node there, or goes on after one, it has words of these; and any of these words begin the text of some value, or go on
/// in one.
pub fn words_are_those_of_texts()
    ensures at_node { (root : TypedValue) (levels : List OpenLevel) (bytes : List ℕ) → IsDue root levels bytes
        → BeginsWith (node (length levels)) bytes }
    ensures behind_node { (root : TypedValue) (levels : List OpenLevel) (value : TypedValue) (bytes : List ℕ) → IsRead root levels value bytes
        → BeginsWith (behind_value levels) bytes }
    ensures begins { (levels : List OpenLevel) (words : List (List ℕ)) → length levels < most_nested → node (length levels) words
        → BeginsText levels words }
    ensures goes_on { (levels : List OpenLevel) (value : TypedValue) (words : List (List ℕ)) → behind_value levels words
        → GoesOnWith levels value words }
{}

/// States that the bytes before a missing word are the beginning of a canonical text: in a node, unless the greatest depth is
/// reached, and after one.
pub fn texts_begin_up_to_places()
    ensures in_node { (whole : List ℕ) (levels : List OpenLevel) (bytes : List ℕ) (left : ℕ) → IsOpen whole levels bytes
        → length levels < most_nested → BreaksOff (node (length levels)) bytes left → BeginsValue (take (length whole - left) whole) }
    ensures behind_node { (whole : List ℕ) (levels : List OpenLevel) (value : TypedValue) (bytes : List ℕ) (left : ℕ)
        → HasRead whole levels value bytes → BreaksOff (behind_value levels) bytes left → BeginsValue (take (length whole - left) whole) }
{}

/// States that bytes have one place of their fault. Two errors that have their position in the same bytes are the same, unless one of
/// them is `Memory`; and no other error has a position in the canonical bytes of a value that can be read.
pub fn bytes_have_one_place()
    ensures one { (bytes : List ℕ) (one other : ReadError) → IsPlacedBy MayRepeat bytes one → IsPlacedBy MayRepeat bytes other
        → (one ≡ told.Memory) ⊎ ((other ≡ told.Memory) ⊎ (one ≡ other)) }
    ensures nowhere { (value : TypedValue) (error : ReadError) → CanBeRead value
        → IsPlacedBy MayRepeat (encode (Some utf8) (document_text value)) error → error ≡ told.Memory }
{}

/// States that documents whose dumps have the same canonical bytes say the same: the parts of their graphs that the roots reach are
/// isomorphic.
pub fn dumped_bytes_tell_graphs()
    ensures { (one other : Graph) (bytes : List ℕ) → AreDumpedBytes one bytes → AreDumpedBytes other bytes → Isomorphic one other }
{}
