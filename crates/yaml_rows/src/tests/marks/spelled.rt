//! The cursor after a directive's line. (`tests/scripts/rows` has directives and tags as they are written.)
ghost use Rattle.yaml_pen.specs.Page.{IsReady};

use crate::tests::pens::check_flushed;
use crate::tests::scalars::new_pen;
use crate::tests::{equal, write_spaced};
use std::alloc::Global;
use yaml_base::yaml_error_t;
use yaml_mark::{write_tag_content, write_tag_handle};
use yaml_pen::Pen;

#[tactic(auto, using(yaml_base::proofs::Literals::literal_unbroken))]
fn write_directive(pen: &mut Pen<Global>) -> Result<(), yaml_error_t>
    requires { IsReady pen.old }
    ensures { IsReady pen.new }
{
    write_spaced(pen, "%TAG")?;
    write_tag_handle(pen, "!e!")?;
    write_tag_content(pen, "!x", true)
}

#[test]
fn a_directive_line_is_separated(rt: HostRuntime) {
    let mut pen = new_pen(&rt, rt.alloc());
    let answer = write_directive(&mut pen);
    equal(&rt, &(pen.whitespace(), pen.indention()), &(false, false));
    equal(&rt, &answer, &Ok(()));
    check_flushed(&rt, &mut pen, "%TAG !e! %21x".as_bytes());
    drop(pen);
}
