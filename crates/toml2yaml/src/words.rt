//! The program's name, and the words of its help.
use yaml_program::{Wording, wording};

/// Returns the program's name and the words of its help.
pub fn words() -> &'static Wording {
    &WORDS
}

static WORDS: Wording = wording!(
    "toml2yaml",
    "TOML",
    ".toml",
    "arrays and tables",
    "write_canonical of the crate yaml_value gives, and what yaml_is_canonical of the library yaml_c takes",
    "Files of TOML, a text each; - is standard input",
    "Files of TOML, a text each, which are written one after another. The name - means standard input, which is also read if no name \
    is given.{n}Their comments are dropped.{n}Example: toml2yaml first.toml - last.toml",
    &[]
);
