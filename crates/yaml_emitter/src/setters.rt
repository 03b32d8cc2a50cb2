//! Setters of an emitter, called before the stream begins, and its getters.

ghost use Rattle.std.specs.Prelude.{◌≡◌, Some, None, false, true, [], length};
ghost use Rattle.yaml_base.specs.Seen.{seen_break, seen_encoding};
ghost use Rattle.yaml_pen.specs.Page.{output_left};
ghost use Rattle.yaml_emitter.specs.Given.{is_double};
ghost use Rattle.yaml_emitter.specs.State.{knows_encoding};

use crate::emitter::yaml_emitter_t;
use crate::settings::Quotes;
use std::alloc::Allocator;
use yaml_base::{yaml_break_t, yaml_encoding_t, yaml_error_t};

/// Drops the emitter and its output.
pub fn yaml_emitter_delete<A: Allocator>(emitter: yaml_emitter_t<A>) {
    drop(emitter);
}

/// Sets an output of at most `size` bytes. No output may be set before.
pub fn yaml_emitter_set_output_string<A: Allocator>(emitter: &mut yaml_emitter_t<A>, size: usize)
    requires { emitter.old.has_output ≡ false }
    ensures set { emitter.new
        ≡ record emitter.old {
          has_output = true;
          given = record emitter.old.given { limit = size };
          page = record emitter.old.page { limit = size };
        } }
{
    emitter.engine.machine.set_limit(size);
    emitter.engine.has_output = true;
}

/// Sets the encoding; ANY means that of the stream's start, or else UTF-8. No event may have been given, and no encoding set.
pub fn yaml_emitter_set_encoding<A: Allocator>(
    emitter: &mut yaml_emitter_t<A>,
    encoding: yaml_encoding_t,
)
    requires not_started { emitter.old.started ≡ false }
    requires unset { emitter.old.given.encoding ≡ None }
    ensures set { emitter.new ≡ record emitter.old { given = record emitter.old.given { encoding = seen_encoding encoding } } }
{
    emitter.engine.machine.given.encoding = encoding;
}

/// Sets whether the output is canonical: in flow, double-quoted, every tag written. No event may have been given.
pub fn yaml_emitter_set_canonical<A: Allocator>(emitter: &mut yaml_emitter_t<A>, canonical: bool)
    requires { emitter.old.started ≡ false }
    ensures set { emitter.new
        ≡ record emitter.old {
          given = record emitter.old.given { canonical = canonical };
          settings = record emitter.old.settings { canonical = canonical };
        } }
{
    emitter.engine.machine.given.canonical = canonical;
    emitter.engine.machine.settings.canonical = canonical;
}

/// Sets the indent in columns; 2 to 9 is kept, any other becomes 2. No event may have been given.
pub fn yaml_emitter_set_indent<A: Allocator>(emitter: &mut yaml_emitter_t<A>, indent: i32)
    requires { emitter.old.started ≡ false }
    ensures set { emitter.new ≡ record emitter.old { given = record emitter.old.given { indent = Some indent } } }
{
    emitter.engine.machine.given.indent = Some(indent);
}

/// Sets the column, in characters, past which lines are folded; a negative one means no limit. No event may have been given.
pub fn yaml_emitter_set_width<A: Allocator>(emitter: &mut yaml_emitter_t<A>, width: i32)
    requires { emitter.old.started ≡ false }
    ensures set { emitter.new ≡ record emitter.old { given = record emitter.old.given { width = Some width } } }
{
    emitter.engine.machine.given.width = Some(width);
}

/// Sets whether printable characters beyond ASCII are written unescaped. No event may have been given.
pub fn yaml_emitter_set_unicode<A: Allocator>(emitter: &mut yaml_emitter_t<A>, unicode: bool)
    requires { emitter.old.started ≡ false }
    ensures set { emitter.new ≡ record emitter.old { given = record emitter.old.given { unicode = unicode } } }
{
    emitter.engine.machine.given.unicode = unicode;
}

/// Sets the quotes of a scalar that isn't plain and that both kinds can hold. No event may have been given.
pub fn yaml_emitter_set_quotes<A: Allocator>(emitter: &mut yaml_emitter_t<A>, quotes: Quotes)
    requires { emitter.old.started ≡ false }
    ensures set { emitter.new ≡ record emitter.old { given = record emitter.old.given { double_quotes = is_double quotes } } }
{
    emitter.engine.machine.given.quotes = quotes;
}

/// Sets the line break; ANY means LF. No event may have been given.
pub fn yaml_emitter_set_break<A: Allocator>(
    emitter: &mut yaml_emitter_t<A>,
    line_break: yaml_break_t,
)
    requires { emitter.old.started ≡ false }
    ensures set { emitter.new ≡ record emitter.old { given = record emitter.old.given { line_break = seen_break line_break } } }
{
    emitter.engine.machine.given.line_break = line_break;
}

/// Sets whether the breaks U+2028 and U+2029, which are ordinary characters in YAML 1.2, are escaped, so that readers of both
/// versions find the same value. No event may have been given.
pub fn yaml_emitter_set_line_breaks_1_2<A: Allocator>(
    emitter: &mut yaml_emitter_t<A>,
    breaks12: bool,
)
    requires { emitter.old.started ≡ false }
    ensures set { emitter.new ≡ record emitter.old { given = record emitter.old.given { breaks12 = breaks12 } } }
{
    emitter.engine.machine.given.line_breaks_1_2 = breaks12;
}

/// Sets whether text that readers of YAML read differently, or not at all, is written in a form that they read alike: every
/// document begins with `---`; `,` `[` `]` after a tag's handle and U+2028 and U+2029 are escaped; a `!` that begins a `%TAG`
/// prefix isn't; and a root that begins with a blank or a line break is no block scalar. No event may have been given.
pub fn yaml_emitter_set_portable<A: Allocator>(emitter: &mut yaml_emitter_t<A>, portable: bool)
    requires { emitter.old.started ≡ false }
    ensures set { emitter.new ≡ record emitter.old { given = record emitter.old.given { portable = portable } } }
{
    emitter.engine.machine.given.portable = portable;
}

/// Sets whether a block sequence that is the key or the value of a pair is indented, as any other block collection is. No
/// event may have been given.
pub fn yaml_emitter_set_indented_sequences<A: Allocator>(
    emitter: &mut yaml_emitter_t<A>,
    indented: bool,
)
    requires { emitter.old.started ≡ false }
    ensures set { emitter.new ≡ record emitter.old { given = record emitter.old.given { indented_sequences = indented } } }
{
    emitter.engine.machine.given.indented_sequences = indented;
}

/// Sets whether blanks are literal: a scalar for which literal is asked is then literal even if it holds tabs, or spaces before
/// a break or at its end, provided that no nonempty line is of blanks alone. No event may have been given.
pub fn yaml_emitter_set_literal_blanks<A: Allocator>(emitter: &mut yaml_emitter_t<A>, literal: bool)
    requires { emitter.old.started ≡ false }
    ensures set { emitter.new ≡ record emitter.old { given = record emitter.old.given { literal_blanks = literal } } }
{
    emitter.engine.machine.given.literal_blanks = literal;
}

impl<A: Allocator> yaml_emitter_t<A> {
    /// Returns whether an event was given.
    pub fn is_started(&self) -> bool
        ensures { result ≡ self.now.started }
    {
        self.engine.started
    }

    /// Returns whether an output was set.
    pub fn has_output(&self) -> bool
        ensures { result ≡ self.now.has_output }
    {
        self.engine.has_output
    }

    /// Returns whether canonical form was set.
    pub fn is_canonical(&self) -> bool
        ensures { result ≡ self.now.given.canonical }
    {
        self.engine.machine.given.canonical
    }

    /// Returns whether the encoding was set, or the stream has begun.
    pub fn encoding_known(&self) -> bool
        ensures { result ≡ knows_encoding self.now }
    {
        self.engine.knows_encoding()
    }

    /// Returns whether the stream was opened as a whole, for documents to be dumped into it; an output is then set.
    pub fn is_opened(&self) -> bool
        ensures value { result ≡ self.now.opened }
        ensures output { self.now.opened ≡ true → self.now.has_output ≡ true }
    {
        self.engine.opened
    }

    /// Returns whether the stream was closed as a whole.
    pub fn is_closed(&self) -> bool
        ensures { result ≡ self.now.closed }
    {
        self.engine.closed
    }

    /// Notes that the stream was opened as a whole. An output must be set.
    pub fn mark_opened(&mut self)
        requires { self.old.has_output ≡ true }
        ensures set { self.new ≡ record self.old { opened = true } }
    {
        self.engine.opened = true;
    }

    /// Notes that the stream was closed as a whole.
    pub fn mark_closed(&mut self)
        ensures set { self.new ≡ record self.old { closed = true } }
    {
        self.engine.closed = true;
    }

    /// Returns the flushed bytes not yet taken; none if no output is set.
    pub fn output(&self) -> &[u8]
        ensures value { result.now ≡ output_left self.now.page }
        ensures untaken { self.now.page.taken ≡ 0 → result.now ≡ self.now.page.output }
        ensures unset { self.now.has_output ≡ false → result.now ≡ [] }
    {
        self.engine.machine.output()
    }

    /// Returns the first error, if there was one.
    pub fn error(&self) -> Option<yaml_error_t>
        ensures { result ≡ self.now.error }
    {
        self.engine.machine.error()
    }

    /// Returns the number of events that wait.
    pub fn held(&self) -> usize
        ensures { result ≡ length self.now.held }
    {
        self.engine.queue.len()
    }
}
