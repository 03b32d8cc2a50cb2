//! Emitters, made and set.
ghost use Rattle.std.specs.Prelude.{◌≡◌, false};

use crate::tests::equal;
use std::alloc::Global;
use std::process::Abort;
use yaml_dump::{
    Quotes, Settings, YAML_CRLN_BREAK, YAML_UTF16LE_ENCODING, yaml_emitter_delete,
    yaml_emitter_initialize, yaml_emitter_set_break, yaml_emitter_set_canonical,
    yaml_emitter_set_encoding, yaml_emitter_set_indent, yaml_emitter_set_indented_sequences,
    yaml_emitter_set_line_breaks_1_2, yaml_emitter_set_output_string, yaml_emitter_set_portable,
    yaml_emitter_set_quotes, yaml_emitter_set_unicode, yaml_emitter_set_width, yaml_emitter_t,
    yaml_error_t,
};

/// Makes an emitter for a stream of at most `limit` bytes in UTF-16, with lines of at most 120 characters.
fn emitter_of(alloc: Global, limit: usize) -> Result<yaml_emitter_t<Global>, yaml_error_t> {
    let settings = Settings {
        limit,
        encoding: YAML_UTF16LE_ENCODING,
        width: Some(120),
        ..Settings::default()
    };
    yaml_emitter_t::with_settings(alloc, settings)
}

/// Sets how texts are written.
fn set_texts(emitter: &mut yaml_emitter_t<Global>)
    requires { emitter.old.started ≡ false }
    ensures { emitter.new.started ≡ false }
{
    yaml_emitter_set_canonical(emitter, false);
    yaml_emitter_set_unicode(emitter, true);
    yaml_emitter_set_quotes(emitter, Quotes::Double);
    yaml_emitter_set_portable(emitter, true);
}

/// Sets how lines are laid out.
fn set_lines(emitter: &mut yaml_emitter_t<Global>)
    requires { emitter.old.started ≡ false }
{
    yaml_emitter_set_indent(emitter, 4);
    yaml_emitter_set_width(emitter, 120);
    yaml_emitter_set_break(emitter, YAML_CRLN_BREAK);
    yaml_emitter_set_line_breaks_1_2(emitter, true);
    yaml_emitter_set_indented_sequences(emitter, true);
}

/// Makes an emitter with every setting set, for a stream of at most `limit` bytes.
fn emitter_set(alloc: Global, limit: usize) -> Result<yaml_emitter_t<Global>, yaml_error_t> {
    let mut emitter = yaml_emitter_initialize(alloc)?;
    yaml_emitter_set_output_string(&mut emitter, limit);
    yaml_emitter_set_encoding(&mut emitter, YAML_UTF16LE_ENCODING);
    set_texts(&mut emitter);
    set_lines(&mut emitter);
    Ok(emitter)
}

// Nothing was begun, and nothing is queued.
fn check_unstarted(rt: &impl Abort, emitter: &yaml_emitter_t<Global>) {
    let known = (emitter.has_output(), emitter.encoding_known());
    equal(rt, &known, &(true, true));
    let stream = (
        emitter.is_started(),
        emitter.is_opened(),
        emitter.is_closed(),
    );
    equal(rt, &stream, &(false, false, false));
    let made = (emitter.output(), emitter.error(), emitter.held());
    equal(rt, &made, &(b"".as_slice(), None, 0));
}

#[test]
fn an_emitter_is_set_before_its_stream(rt: HostRuntime) {
    let emitter = emitter_of(rt.alloc(), 1_000).expect(&rt, "no memory");
    check_unstarted(&rt, &emitter);
    yaml_emitter_delete(emitter);
    let emitter = emitter_set(rt.alloc(), 1_000).expect(&rt, "no memory");
    check_unstarted(&rt, &emitter);
    yaml_emitter_delete(emitter);
}
