//! The layers below the emitter, each used by itself.
use crate::tests::{answers, equal};
use std::alloc::{AllocError, Global};
use yaml_dump::{
    Directives, Pen, YAML_ANY_SCALAR_STYLE, YAML_LN_BREAK, YAML_SINGLE_QUOTED_SCALAR_STYLE,
    YAML_UTF8_ENCODING, analyze_anchor, analyze_scalar, analyze_tag, select_scalar_style,
    write_double_quoted_scalar, yaml_error_t, yaml_scalar_style_t, yaml_tag_directive_t,
};

/// Returns a value between double quotes, without folds, as UTF-8.
fn quoted(alloc: Global, value: &str) -> Result<Vec<u8>, yaml_error_t> {
    let mut pen = Pen::new(alloc)?;
    pen.begin(YAML_UTF8_ENCODING, YAML_LN_BREAK);
    write_double_quoted_scalar(&mut pen, value, false, true, 2, i32::MAX)?;
    pen.flush()?;
    Vec::from_slice(alloc, pen.output()).map_err(|_| yaml_error_t::Memory)
}

/// Returns the style that a value takes as the root of a document, if none is asked for.
fn root_style(value: &str) -> Result<yaml_scalar_style_t, yaml_error_t> {
    let allowed = analyze_scalar(value, true, false);
    let empty = value.is_empty();
    let style = YAML_ANY_SCALAR_STYLE;
    let (style, _bare) = select_scalar_style(
        style, &allowed, empty, false, true, true, false, false, false,
    )?;
    Ok(style)
}

#[test]
fn a_pen_writes_a_text_whose_style_was_chosen(rt: HostRuntime) {
    let style = root_style("a: b");
    equal(&rt, &style, &Ok(YAML_SINGLE_QUOTED_SCALAR_STYLE));
    let yaml = quoted(rt.alloc(), "say \"hi\"\n");
    answers(&rt, yaml, &Ok("\"say \\\"hi\\\"\\n\""));
}

/// Returns a directive that shortens tags with this prefix.
fn shortening(
    alloc: Global,
    handle: &str,
    prefix: &str,
) -> Result<yaml_tag_directive_t<Global>, AllocError> {
    Ok(yaml_tag_directive_t {
        handle: String::from_str(alloc, handle)?,
        prefix: String::from_str(alloc, prefix)?,
    })
}

#[test]
fn a_tag_is_cut_after_its_prefix(rt: HostRuntime) {
    let directive = shortening(rt.alloc(), "!e!", "tag:e.com,2000:").expect(&rt, "no memory");
    let mut directives = Directives::new(rt.alloc());
    equal(&rt, &directives.append(&directive, false).is_ok(), &true);
    let cut = analyze_tag("tag:e.com,2000:note", &directives).expect(&rt, "a tag");
    equal(&rt, &(cut.directive, cut.prefix_length), &(Some(0), 15));
    drop(directives);
    drop(directive);
    let refused = analyze_anchor("a b", false);
    equal(&rt, &refused, &Err(yaml_error_t::AnchorAlphabet));
}
