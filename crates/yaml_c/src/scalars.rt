//! Scalars that a C program gives to an emitter, a call each.
ghost use Rattle.yaml_c.specs.Arena.{is_on, utf8_text};
ghost use Rattle.yaml_c.specs.Kept.{Changes, IsOpenEmitter};
ghost use Rattle.yaml_c.specs.Values.{GaveScalar, GaveText, Tells};
ghost use Rattle.yaml_c.specs.declared.values.Value.TheVariants as values;

use crate::handle::EmitterHandle;
use crate::results::CallResult;
use crate::values::{Value, give_scalar, give_text};
use std::alloc::Global;

/// Writes a text, which stays a text by both schemas of YAML. See the header.
#[unsafe(no_mangle)]
pub extern "C" fn yaml_c_emitter_text(
    alloc: Global,
    emitter: &mut EmitterHandle,
    text: &[u8],
    report: &mut CallResult,
) -> i32
    requires is_open { IsOpenEmitter emitter.old.state }
    ensures { Changes (Tells (GaveText (utf8_text text.now)) result report.new) emitter.old.state emitter.new.state }
{
    let mut boxed = emitter.take(alloc);
    let status = give_text(alloc, &mut *boxed, text, report);
    boxed.promised();
    emitter.put(boxed);
    status
}

/// Writes an integer. See the header.
#[unsafe(no_mangle)]
pub extern "C" fn yaml_c_emitter_int(
    alloc: Global,
    emitter: &mut EmitterHandle,
    value: i64,
    report: &mut CallResult,
) -> i32
    requires is_open { IsOpenEmitter emitter.old.state }
    ensures { Changes (Tells (GaveScalar (values.Int value)) result report.new) emitter.old.state emitter.new.state }
{
    let mut boxed = emitter.take(alloc);
    let status = give_scalar(alloc, &mut *boxed, Value::Int(value), report);
    boxed.promised();
    emitter.put(boxed);
    status
}

/// Writes an integer that isn't negative. See the header.
#[unsafe(no_mangle)]
pub extern "C" fn yaml_c_emitter_uint(
    alloc: Global,
    emitter: &mut EmitterHandle,
    value: u64,
    report: &mut CallResult,
) -> i32
    requires is_open { IsOpenEmitter emitter.old.state }
    ensures { Changes (Tells (GaveScalar (values.Unsigned value)) result report.new) emitter.old.state emitter.new.state }
{
    let mut boxed = emitter.take(alloc);
    let status = give_scalar(alloc, &mut *boxed, Value::Unsigned(value), report);
    boxed.promised();
    emitter.put(boxed);
    status
}

/// Writes a float. See the header.
#[unsafe(no_mangle)]
pub extern "C" fn yaml_c_emitter_double(
    alloc: Global,
    emitter: &mut EmitterHandle,
    value: f64,
    report: &mut CallResult,
) -> i32
    requires is_open { IsOpenEmitter emitter.old.state }
    ensures { Changes (Tells (GaveScalar (values.Double value)) result report.new) emitter.old.state emitter.new.state }
{
    let mut boxed = emitter.take(alloc);
    let status = give_scalar(alloc, &mut *boxed, Value::Double(value), report);
    boxed.promised();
    emitter.put(boxed);
    status
}

/// Writes a boolean. See the header.
#[unsafe(no_mangle)]
pub extern "C" fn yaml_c_emitter_bool(
    alloc: Global,
    emitter: &mut EmitterHandle,
    value: u32,
    report: &mut CallResult,
) -> i32
    requires is_open { IsOpenEmitter emitter.old.state }
    ensures { Changes (Tells (GaveScalar (values.Bool (is_on value))) result report.new) emitter.old.state emitter.new.state }
{
    let mut boxed = emitter.take(alloc);
    let status = give_scalar(alloc, &mut *boxed, Value::Bool(value != 0), report);
    boxed.promised();
    emitter.put(boxed);
    status
}

/// Writes `null`. See the header.
#[unsafe(no_mangle)]
pub extern "C" fn yaml_c_emitter_null(
    alloc: Global,
    emitter: &mut EmitterHandle,
    report: &mut CallResult,
) -> i32
    requires is_open { IsOpenEmitter emitter.old.state }
    ensures { Changes (Tells (GaveScalar values.Null) result report.new) emitter.old.state emitter.new.state }
{
    let mut boxed = emitter.take(alloc);
    let status = give_scalar(alloc, &mut *boxed, Value::Null, report);
    boxed.promised();
    emitter.put(boxed);
    status
}
