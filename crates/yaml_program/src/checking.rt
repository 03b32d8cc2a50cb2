//! The comparison of a file with the YAML that would be written to it.
ghost use Rattle.std.specs.Prelude.{◌≡◌, ◌≢◌, ◌≤◌, ◌⊎◌, IfSome, codes, false, flat_map, true};
ghost use Rattle.yaml_program.specs.Conversions.{Differs, HaveNoYaml, HaveYaml, IsThere, OfFiles, heading_of, names_of};
ghost use Rattle.std.specs.Fmt.InlineText.{inline_text};
ghost use Rattle.yaml_base.specs.Quoting.{quoted_text};
ghost use Rattle.yaml_program.specs.Messages.{IsDifferenceLine, IsNameLine, Tells, difference_words, message_line};

use crate::arguments::Conversion;
use crate::differences::{are_same, first_difference};
use crate::faults::{Failure, give_up, report};
use crate::formats::Format;
use crate::messages::{Loss, Messages, Part, line_of};
use crate::sending::send_all;
use crate::sources::{Sources, read_if_there};
use std::io::Write;
use yaml_base::Quoted;

/// Reports that a file is missing to which YAML would be written.
fn tell_missing<W: Write>(name: &str, faults: &mut Messages<W>) -> u8
    ensures status { result ≡ 1 }
    ensures told { Tells W.contents faults.old faults.new (IsNameLine faults.old.words.now.name.now name.now (codes " would be written")) }
{
    let shown = faults.loss.part(Quoted(name));
    faults.tell(&line_of(
        faults.words.name,
        shown.as_str(),
        " would be written",
        "",
        "",
    ));
    1
}

/// Returns a line of a file in a message, in quotes if it is UTF-8.
fn line_part(line: &[u8], loss: &mut Loss) -> Part
    ensures shown { loss.new.is_some ≡ false → IfSome (quoted_text line.now) (λ shown. inline_text result ≡ shown) }
    ensures kept { loss.new.is_some ≡ false → loss.old.is_some ≡ false }
{
    match str::from_utf8(line) {
        Ok(text) => loss.part(Quoted(text)),
        Err(_) => loss.part("bytes that aren't UTF-8"),
    }
}

/// Returns the texts of a message about the first line in which a file differs.
fn difference_line<'a>(
    program: &'a str,
    name: &'a str,
    number: &'a str,
    old: &'a str,
    new: &'a str,
) -> [&'a str; 10]
    ensures { flat_map (λ text. text.now) result ≡ message_line program.now (difference_words name.now number.now old.now new.now) }
{
    [
        program,
        ": ",
        name,
        " would be changed at line ",
        number,
        ": ",
        old,
        " would be ",
        new,
        "\n",
    ]
}

/// Reports the first line in which a file differs from the YAML that would be written to it.
fn tell_difference<W: Write>(name: &str, there: &[u8], yaml: &[u8], faults: &mut Messages<W>) -> u8
    requires { there.now ≢ yaml.now }
    ensures status { result ≡ 1 }
    ensures told { Tells W.contents faults.old faults.new (IsDifferenceLine faults.old.words.now.name.now name.now there.now yaml.now) }
{
    let difference = first_difference(there, yaml);
    let shown = faults.loss.part(Quoted(name));
    let number = faults.loss.part(difference.number);
    let old = line_part(difference.old, &mut faults.loss);
    let new = line_part(difference.new, &mut faults.loss);
    faults.tell(&difference_line(
        faults.words.name,
        shown.as_str(),
        number.as_str(),
        old.as_str(),
        new.as_str(),
    ));
    1
}

/// Compares a file with the YAML that would be written to it, reports a difference or a failure, and returns the status.
pub fn check<F: Format, S: Sources + AllocGlobal, W: Write>(
    sources: &S,
    conversion: &Conversion<'_, F>,
    name: &str,
    faults: &mut Messages<W>,
) -> u8
    ensures known { result ≤ 3 }
    ensures stream { result ≡ 0 → OfFiles (S.bytes_of sources.now) conversion.now (HaveYaml (F.is_yaml conversion.now.format)) }
    ensures there { result ≡ 0 → IsThere (S.bytes_of sources.now) (F.is_yaml conversion.now.format) (heading_of conversion.now) (names_of conversion.now)
        name.now }
    ensures differs { result ≡ 1 → OfFiles (S.bytes_of sources.now) conversion.now (λ files. HaveNoYaml (F.is_yaml conversion.now.format) files
        ⊎ Differs (S.bytes_of sources.now) (F.is_yaml conversion.now.format) (heading_of conversion.now) files name.now) }
    ensures understood { result ≢ 2 }
{
    let mut yaml = Vec::new(sources.alloc());
    if let Err(stop) = send_all(sources, conversion, &mut yaml) {
        return report(Err(stop), None, faults);
    }
    match read_if_there(sources, name) {
        Ok(Some(there)) => {
            if are_same(yaml.as_slice(), there.as_slice()) {
                0
            } else {
                tell_difference(name, there.as_slice(), yaml.as_slice(), faults)
            }
        }
        Ok(None) => tell_missing(name, faults),
        Err(error) => give_up(Failure::ReadFailed(error), Some(name), faults),
    }
}
