//! Writing bytes to a sink.
ghost use Rattle.std.specs.Prelude.{OnErr, OnOk};
ghost use Rattle.std.specs.Io.KnownBytes.{Appends};
ghost use Rattle.yaml_base.specs.Sinks.{AppendsFirst};

use std::io;
use std::io::{ErrorKind, Write};

/// Writes bytes to a sink: all of them, or a prefix if the sink fails.
///
/// # Errors
/// The sink's own, except `Interrupted`, after which the write is tried again. `WriteZero` if the sink takes no byte. `TimedOut` after
/// 2^64 - 1 writes. The sink then has a prefix of the bytes, which may be empty.
pub fn write_to_sink<W: Write>(sink: &mut W, bytes: &[u8]) -> io::Result<()>
    ensures whole { OnOk result (Appends (W.contents sink.old) (W.contents sink.new) bytes.now) }
    ensures first { OnErr result (AppendsFirst (W.contents sink.old) (W.contents sink.new) bytes.now) }
{
    let mut rest = bytes;
    // No sink promises to take its bytes, so the number of writes is bounded.
    let mut turns = u64::MAX;
    'writes: while turns > 0 {
        if rest.is_empty() {
            return Ok(());
        }
        turns -= 1;
        match sink.write(rest) {
            Ok(0) => return Err(io::Error::from(ErrorKind::WriteZero)),
            Ok(count) => rest = &rest[count..],
            Err(error) => {
                if error.kind() != ErrorKind::Interrupted {
                    return Err(error);
                }
            }
        }
    }
    Err(io::Error::from(ErrorKind::TimedOut))
}
