//! A program's name, and the words of its help.

/// The words of a program: its name, its format, and the help for its arguments, in a line and at length. The macro `wording` makes them.
#[derive(Clone, Copy)]
pub struct Wording {
    /// The program's name.
    pub name: &'static str,
    /// The format of its texts, as `JSON`.
    pub format: &'static str,
    pub about: &'static str,
    pub files: &'static str,
    pub files_long: &'static str,
    pub output: &'static str,
    pub indent: &'static str,
    pub width: &'static str,
    pub encoding: &'static str,
    pub line_break: &'static str,
    pub limit: &'static str,
    pub heading: &'static str,
    pub each: &'static str,
    pub each_long: &'static str,
    pub depth: &'static str,
    pub depth_long: &'static str,
    /// The options without a value, each with the options that it refuses.
    pub flags: &'static [(
        &'static str,
        &'static str,
        &'static str,
        &'static [&'static str],
    )],
    /// Those that only this program has.
    pub own_flags: &'static [(
        &'static str,
        &'static str,
        &'static str,
        &'static [&'static str],
    )],
}

/// Makes the wording of a program. The arguments are its name, its format, the ending of its files, the format's word for collections, the
/// calls that give or take canonical bytes, the help for its files in a line and at length, and its own options.
#[macro_export]
macro_rules! wording {
    (
        $program:literal, $format:literal, $ending:literal, $collections:literal, $canonical_calls:literal, $files:literal, $files_long:literal,
        $own_flags:expr
    ) => {
        $crate::Wording {
            name: $program,
            format: $format,
            about: concat!("Writes ", $format, " texts as YAML, a document each"),
            files: $files,
            files_long: $files_long,
            output: concat!(
                "The file to write in place of standard output. It is made or replaced after all texts are written.{n}Example: ",
                $program, " -o out.yaml in", $ending
            ),
            indent: concat!("Columns for each level, 2 to 9; 2 by default.{n}Example: ", $program, " --indent=4 in", $ending),
            width: concat!(
                "Folds a text of several words at the first space past this column, so a line may be longer; never, if it is negative. A \
                column up to twice the indent is taken for 80. Never by default. With --flow a line also breaks between items past it.{n}Example: ",
                $program, " --width=80 in", $ending
            ),
            encoding: concat!(
                "The encoding of the output; utf-8 by default. UTF-16 begins with a byte order mark. A heading is always in UTF-8, so this option and \
                --heading refuse each other.{n}Example: ",
                $program, " --encoding=utf-16le in", $ending
            ),
            line_break: concat!(
                "The break that ends each line, but the lines of --heading, which end with LF; lf by default.{n}Example: ",
                $program, " --line-break=crlf in", $ending
            ),
            limit: concat!(
                "The most bytes that a stream may have, without its heading. More are refused, as a write error. No limit by default.{n}Example: ",
                $program, " --limit=1000000 in", $ending
            ),
            heading: concat!(
                "Writes a text before all else, each line of it as a comment, after # and a space.{n}Example: ",
                $program, " --heading=Generated in", $ending
            ),
            each: concat!("Writes each FILE", $ending, " to FILE.yaml beside it"),
            each_long: concat!(
                "Writes each file to one beside it, whose name ends in .yaml in place of ", $ending, ". Each appears whole or not at all. \
                A text that is refused writes no file; the others are written.{n}Example: ",
                $program, " --each first", $ending, " last", $ending
            ),
            depth: concat!("How deep ", $collections, " may nest, up to 10000 [default: 1000]"),
            depth_long: concat!(
                "How deep ", $collections, " may nest: up to 10000, and up to 1000000 with --flow and neither --width nor --canonical, so \
                that a document is one line; 1000 by default.{n}Example: ",
                $program, " --depth=5000 deep", $ending
            ),
            flags: $crate::flags!($program, $ending, $collections, $canonical_calls),
            own_flags: $own_flags,
        }
    };
}
