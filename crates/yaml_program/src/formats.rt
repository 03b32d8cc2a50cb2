//! The formats that a program converts.
ghost use Rattle.std.specs.Prelude.{◌≡◌, ℕ, Bool, List, IfErr, OnOk, map};
ghost use Rattle.clap.specs.declared.parser.matches.ArgMatches.{ArgMatches};
ghost use Rattle.yaml_program.specs.Conversions.{OfNames, RefusesFiles, WroteStream};

use crate::faults::Failure;
use crate::sources::Sources;
use crate::words::Wording;
use clap::ArgMatches;
use std::io::Write;

/// A format of texts, with the settings by which they are written as YAML.
pub trait Format {
    // True if the bytes are the stream of the texts of these files, by these settings.
    ghost is_yaml: { Self → List (List ℕ) → List ℕ → Type 0 };

    // True if the settings are those that the options ask for.
    ghost is_asked_by: { ArgMatches → Self → Type 0 };

    // Whether collections may nest as deep as the settings say.
    ghost allows_depth: { Self → Bool };

    // The ending of the names of files of such texts.
    ghost ending: { List ℕ };

    /// Returns the name of the program that reads such texts, and the words of its help.
    fn words() -> &'static Wording;

    /// Returns the format with the settings that the options ask for.
    fn from_options(matches: &ArgMatches<'_>) -> Self
        ensures { is_asked_by matches.now result };

    /// Returns the ending of the names of files of such texts, as `.json`.
    fn ending(&self) -> &'static str
        ensures { result.now ≡ ending };

    /// Returns whether collections may nest as deep as the settings say.
    fn allows_depth(&self) -> bool
        ensures { result ≡ allows_depth self.now };

    /// Writes the YAML of the texts of these files as one stream. If no file is named, standard input is read.
    ///
    /// # Errors
    ///
    /// The failure, with the name of the file at which it occurred, if it was at one that is named.
    fn send_files<'a, S: Sources + AllocGlobal, W: Write>(
        &self,
        sources: &S,
        names: &[&'a str],
        sink: &mut W,
    ) -> Result<(), (Option<&'a str>, Failure)>
        ensures wrote { OnOk result (OfNames (S.bytes_of sources.now) (map (λ name. name.now) names.now) (λ files.
            WroteStream (is_yaml self.now) files (W.contents sink.old) (W.contents sink.new))) }
        ensures refused { IfErr result (λ stop. RefusesFiles (S.bytes_of sources.now) (is_yaml self.now) (map (λ name. name.now) names.now) stop.1) };
}
