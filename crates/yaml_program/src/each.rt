//! The conversion of each file by itself, to one beside it.
ghost use Rattle.std.specs.List.{Any};
ghost use Rattle.std.specs.Prelude.{◌≡◌, ◌≢◌, ◌≤◌, ◌⊎◌, ◌++◌, IfOk, codes, max};
ghost use Rattle.yaml_program.specs.Conversions.{EachIsDone, EndsOtherwise, IsDoneBeside, IsUndoneBeside, names_of};
ghost use Rattle.yaml_program.specs.Messages.{IsNameLine, Tells};

use crate::arguments::Conversion;
use crate::faults::run_out;
use crate::formats::Format;
use crate::messages::{Messages, line_of};
use crate::names::{stem_of, yaml_name};
use crate::program::perform;
use crate::sources::Sources;
use std::alloc::AllocError;
use std::io::{IsTerminal, Write};
use yaml_base::Quoted;

/// The number of files from which on a line on the terminal counts those that are done.
const MANY: usize = 20;

/// Converts a file whose name is a stem and the format's ending to the file beside it.
fn convert_stem<'a, F: Format + Copy + Drop, S: Sources + AllocGlobal, W: Write>(
    rt: &HostRuntime,
    sources: &S,
    conversion: &Conversion<'a, F>,
    names: (&'a str, &'a str),
    faults: &mut Messages<W>,
) -> Result<u8, AllocError>
    requires { names.0.now ≡ names.1.now ++ F.ending }
    ensures known { IfOk result (λ status. status ≤ 3) }
    ensures done { IfOk result (λ status. status ≡ 0 → IsDoneBeside F.is_yaml F.ending (S.bytes_of sources.now) conversion.now names.entry.0.now) }
    ensures undone { IfOk result (λ status. status ≡ 1 → IsUndoneBeside F.is_yaml F.ending (S.bytes_of sources.now) conversion.now names.entry.0.now) }
    ensures understood { IfOk result (λ status. status ≢ 2) }
{
    let (name, stem) = names;
    let target = yaml_name(sources.alloc(), stem)?;
    let mut files = Vec::new(sources.alloc());
    files.push(name)?;
    let one = Conversion {
        format: conversion.format,
        heading: conversion.heading,
        checks: conversion.checks,
        each: false,
        output: None,
        files,
    };
    Ok(perform(rt, sources, &one, target.as_str(), faults))
}

/// Reports that a name doesn't have the format's ending, and returns the status.
fn refuse_name<W: Write>(name: &str, ending: &str, faults: &mut Messages<W>) -> u8
    ensures status { result ≡ 2 }
    ensures told { Tells W.contents faults.old faults.new
        (IsNameLine faults.old.words.now.name.now name.now (codes ": --each wants names that end in " ++ ending.now)) }
{
    let shown = faults.loss.part(Quoted(name));
    let why = ": --each wants names that end in ";
    faults.tell(&line_of(faults.words.name, shown.as_str(), why, ending, ""));
    2
}

/// Converts a file to the file beside it, if its name has the format's ending.
fn convert_beside<'a, F: Format + Copy + Drop, S: Sources + AllocGlobal, W: Write>(
    rt: &HostRuntime,
    sources: &S,
    conversion: &Conversion<'a, F>,
    name: &'a str,
    faults: &mut Messages<W>,
) -> u8
    ensures known { result ≤ 3 }
    ensures done { result ≡ 0 → IsDoneBeside F.is_yaml F.ending (S.bytes_of sources.now) conversion.now name.now }
    ensures undone { result ≡ 1 → IsUndoneBeside F.is_yaml F.ending (S.bytes_of sources.now) conversion.now name.now }
    ensures otherwise { result ≡ 2 → EndsOtherwise F.ending name.now }
    ensures told { EndsOtherwise F.ending name.now → Tells W.contents faults.old faults.new
        (IsNameLine faults.old.words.now.name.now name.now (codes ": --each wants names that end in " ++ F.ending)) }
{
    let ending = conversion.format.ending();
    match stem_of(name, ending) {
        Some(stem) => match convert_stem(rt, sources, conversion, (name, stem), faults) {
            Ok(status) => status,
            Err(_) => run_out(faults),
        },
        None => refuse_name(name, ending, faults),
    }
}

/// Returns the worse of two statuses.
fn worse(first: u8, second: u8) -> u8
    requires low { first ≤ 3 }
    requires known { second ≤ 3 }
    ensures known { result ≤ 3 }
    ensures first { result ≡ 0 → first ≡ 0 }
    ensures second { result ≡ 0 → second ≡ 0 }
    ensures worst { result ≡ max first second }
    ensures one { (result ≡ first) ⊎ (result ≡ second) }
{
    if first < second { second } else { first }
}

/// Converts each file to the file beside it, reports each failure, and returns the worst status.
pub fn convert_each<F: Format + Copy + Drop, S: Sources + AllocGlobal, W: Write>(
    rt: &HostRuntime,
    sources: &S,
    conversion: &Conversion<'_, F>,
    faults: &mut Messages<W>,
) -> u8
    ensures known { result ≤ 3 }
    ensures done { result ≡ 0 → EachIsDone F.is_yaml F.ending (S.bytes_of sources.now) conversion.now (names_of conversion.now) }
    ensures undone { result ≡ 1 → Any (IsUndoneBeside F.is_yaml F.ending (S.bytes_of sources.now) conversion.now) (names_of conversion.now) }
    ensures otherwise { result ≡ 2 → Any (EndsOtherwise F.ending) (names_of conversion.now) }
{
    let names = conversion.files.as_slice();
    let tells = names.len() >= MANY && rt.stderr().is_terminal();
    let mut status = 0;
    let mut done = 0usize;
    for name in names {
        let one = convert_beside(rt, sources, conversion, name, faults);
        status = worse(status, one);
        done = done.saturating_add(1);
        if tells {
            faults.count(done, names.len());
        }
    }
    status
}
