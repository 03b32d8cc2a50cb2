//! The choice of a scalar's style, and whether the bare tag `!` is written.
ghost use Rattle.std.specs.Prelude.{◌≡◌, MatchResult, true, false, ◌||◌, ◌&&◌};
ghost use Rattle.yaml_base.specs.Seen.{seen_scalar_style};
ghost use Rattle.yaml_base.specs.scalars.Style as spec;

use yaml_base::{
    YAML_ANY_SCALAR_STYLE, YAML_DOUBLE_QUOTED_SCALAR_STYLE, YAML_FOLDED_SCALAR_STYLE,
    YAML_LITERAL_SCALAR_STYLE, YAML_PLAIN_SCALAR_STYLE, YAML_SINGLE_QUOTED_SCALAR_STYLE,
    scalar_data_t, yaml_error_t, yaml_scalar_style_t,
};

/// The context of a scalar.
#[derive(Clone, Copy)]
struct Context {
    flow: bool,
    simple_key: bool,
}

/// Chooses a scalar's style, and whether the bare tag `!` precedes it.
///
/// `allowed` is the analysis of the value, and `empty` says that the value is empty; `tag_written` says that a tag is written,
/// and the two flags are the event's; `flow` and `simple_key` say whether the scalar is in flow and whether it is a simple key.
/// Any becomes plain; canonical mode, and a simple key that holds a break, need double quotes; plain gives way to single quotes,
/// and these and the block styles to double quotes, if they aren't possible.
///
/// # Errors
///
/// `NoTagNorImplicit` if no tag is written and both flags are off.
pub fn select_scalar_style(
    style: yaml_scalar_style_t,
    allowed: &scalar_data_t,
    empty: bool,
    tag_written: bool,
    plain_implicit: bool,
    quoted_implicit: bool,
    flow: bool,
    simple_key: bool,
    canonical: bool,
) -> Result<(yaml_scalar_style_t, bool), yaml_error_t>
    ensures { MatchResult result
        (λ given. (spec.lacks_tag_and_flags tag_written plain_implicit quoted_implicit ≡ false)
        × (record { style = seen_scalar_style given.0; bare = given.1 } ≡ spec.chosen allowed.now
        (seen_scalar_style style) empty tag_written plain_implicit quoted_implicit flow simple_key canonical))
        (λ error. (spec.lacks_tag_and_flags tag_written plain_implicit quoted_implicit ≡ true)
        × (error ≡ yaml_error_t.NoTagNorImplicit)) }
{
    if !tag_written && !plain_implicit && !quoted_implicit {
        return Err(yaml_error_t::NoTagNorImplicit);
    }
    let context = Context { flow, simple_key };
    let plain_fits = fits_plain(allowed, empty, tag_written, plain_implicit, context);
    let block_fits = allowed.block_allowed && !flow && !simple_key;
    let must_be_double = canonical || (simple_key && allowed.multiline);
    let asked = requested_style(must_be_double, style);
    let style = fitting_style(allowed, plain_fits, block_fits, asked);
    // A quoted scalar that has no tag and no flag gets the bare tag `!`.
    let bare = !tag_written & !quoted_implicit & !matches!(style, YAML_PLAIN_SCALAR_STYLE);
    Ok((style, bare))
}

/// Returns whether plain fits: the value allows it in its context and isn't empty in flow or as a simple key, and a tag or the
/// flag tells the scalar from a quoted one.
fn fits_plain(
    allowed: &scalar_data_t,
    empty: bool,
    tag_written: bool,
    plain_implicit: bool,
    context: Context,
) -> bool
    ensures { result ≡ spec.fits_plain allowed.now empty tag_written plain_implicit context.flow context.simple_key }
{
    let fits = if context.flow {
        allowed.flow_plain_allowed
    } else {
        allowed.block_plain_allowed
    };
    fits && !(empty && (context.flow || context.simple_key)) && (tag_written || plain_implicit)
}

/// Returns the style that is asked for.
fn requested_style(must_be_double: bool, style: yaml_scalar_style_t) -> yaml_scalar_style_t
    ensures { seen_scalar_style result ≡ spec.requested_style must_be_double (seen_scalar_style style) }
{
    if must_be_double {
        return YAML_DOUBLE_QUOTED_SCALAR_STYLE;
    }
    match style {
        YAML_ANY_SCALAR_STYLE => YAML_PLAIN_SCALAR_STYLE,
        _ => style,
    }
}

/// Returns the style asked for where it fits, for plain single quotes where these fit, else double quotes.
fn fitting_style(
    allowed: &scalar_data_t,
    plain_fits: bool,
    block_fits: bool,
    asked: yaml_scalar_style_t,
) -> yaml_scalar_style_t
    ensures { seen_scalar_style result ≡ spec.fitting_style allowed.now plain_fits block_fits (seen_scalar_style asked) }
{
    match asked {
        YAML_PLAIN_SCALAR_STYLE if plain_fits => YAML_PLAIN_SCALAR_STYLE,
        YAML_PLAIN_SCALAR_STYLE | YAML_SINGLE_QUOTED_SCALAR_STYLE
            if allowed.single_quoted_allowed => { YAML_SINGLE_QUOTED_SCALAR_STYLE }
        YAML_LITERAL_SCALAR_STYLE if block_fits => YAML_LITERAL_SCALAR_STYLE,
        YAML_FOLDED_SCALAR_STYLE if block_fits => YAML_FOLDED_SCALAR_STYLE,
        _ => YAML_DOUBLE_QUOTED_SCALAR_STYLE,
    }
}
