//! Laws of the definitions, each the contract of a function that does nothing.
ghost use Rattle.yaml_toml.specs.Several.{DocumentsAreRead};
ghost use Rattle.yaml_toml.specs.Walk.{ScalarsHaveNumbers};

/// States that the documents of several texts, each begun by `next_document` after the one before, are read back as the tables of
/// the texts, in order.
pub fn documents_are_read()
    ensures { DocumentsAreRead }
{}

/// States that the characters of each float of TOML that is neither infinite nor `nan`, without underscores and a `+` before them, are
/// a number of JSON.
pub fn floats_are_numbers()
    ensures { ScalarsHaveNumbers }
{}
