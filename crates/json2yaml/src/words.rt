//! The program's name, and the words of its help.
use yaml_program::{Wording, wording};

/// Returns the program's name and the words of its help.
pub fn words() -> &'static Wording {
    &WORDS
}

static WORDS: Wording = wording!(
    "json2yaml",
    "JSON",
    ".json",
    "arrays and objects",
    "--deterministic writes, what write_canonical of the crate yaml_value and yaml_canonical_from_json of the library yaml_c give, and what \
    yaml_is_canonical of that library takes",
    "Files of JSON texts; - is standard input",
    "Files of JSON texts, which are written one after another. The name - means standard input, which is also read if no name \
    is given.{n}Example: json2yaml first.json - last.json",
    &[
        (
            "allow-duplicates",
            "Lets a name come several times in one object",
            "Lets a name come several times in one object, which is refused otherwise. Many readers refuse such YAML.\
            {n}Example: json2yaml --allow-duplicates in.json",
            &[],
        ),
        (
            "deterministic",
            "Writes one text as the canonical bytes of its value, to hash or to sign",
            "Writes the canonical bytes of the value of one text, as UTF-8: equal values have equal bytes, which can be hashed and signed. Spaces \
            and escapes of the text don't count, the order of names does. A number that isn't an integer of 64 bits is refused, and so are more \
            than 1000 levels and a second text or file. No option can change these bytes, so it can't be used with those that change others: \
            only with --output, --each, --check and --allow-duplicates.{n}Example: json2yaml --deterministic in.json",
            &[
                "heading",
                "indent",
                "width",
                "depth",
                "encoding",
                "line-break",
                "limit",
                "flow",
                "canonical",
                "no-portable",
                "no-document-start",
                "no-indented-sequences",
                "no-literal-blanks",
                "no-unicode",
                "double-quotes",
            ],
        ),
    ]
);
