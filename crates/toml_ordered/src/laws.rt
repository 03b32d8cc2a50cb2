//! A law of the definitions, the contract of a function that does nothing.
ghost use Rattle.toml_ordered.specs.Sorted.{OrderedIsSorted};

/// States that the document that is read in order, its tables sorted, is the table that `toml` reads of the same text; and one is
/// refused if and only if the other is.
pub fn ordered_is_sorted()
    ensures { OrderedIsSorted }
{}
