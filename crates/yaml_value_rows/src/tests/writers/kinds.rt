//! Values of each kind, with their properties, and in canonical mode. (`tests/json/rows.json` has numbers of JSON, and documents that
//! follow one another.)
use super::Call;

/// Values of each kind, with their properties.
pub(super) const CALLS: &[Call] = &[
    // A value of each kind.
    Call::Mapping,
    Call::Text("true"),
    Call::Bool(true),
    Call::Bool(false),
    Call::Null,
    Call::Text("numbers"),
    Call::Flow,
    Call::Int(i64::MIN),
    Call::Unsigned(u64::MAX),
    Call::End,
    Call::End,
    Call::Finish(Ok(
        "---\n'true': true\nfalse: null\nnumbers: [-9223372036854775808, 18446744073709551615]\n",
    )),
    // Properties.
    Call::Sequence,
    Call::Anchored("a"),
    Call::Tagged("tag:yaml.org,2002:str"),
    Call::Int(5),
    Call::Alias("a"),
    Call::End,
    Call::Finish(Ok("---\n- &a !!str 5\n- *a\n")),
    // Floats by the shortest digits that read as them, in 64 bits and in 32.
    Call::Sequence,
    Call::Float(0.5),
    Call::Float(-0.0),
    Call::Float(100.0),
    Call::Float(0.1 + 0.2),
    Call::Float(1e16),
    Call::Float(5e-324),
    Call::Float(f64::MAX),
    Call::Float(f64::INFINITY),
    Call::Float(f64::NEG_INFINITY),
    Call::Float(f64::NAN),
    Call::Single(0.1),
    Call::Single(f32::NEG_INFINITY),
    Call::End,
    Call::Finish(Ok(
        "---\n- 0.5\n- -0.0\n- 100.0\n- 0.30000000000000004\n- 1.0e+16\n- 5.0e-324\n- 1.7976931348623157e+308\n\
         - .inf\n- -.inf\n- .nan\n- 0.1\n- -.inf\n",
    )),
    // Bytes by their base64, which is in quotes if it is a word.
    Call::Sequence,
    Call::Bytes(b"hello"),
    Call::Bytes(b""),
    Call::Bytes(b"\xfb\xff"),
    Call::Bytes(b"\x9e\xe9\x65"),
    Call::Tagged("!t"),
    Call::Bytes(b"hi"),
    Call::End,
    Call::Finish(Ok(
        "---\n- !!binary aGVsbG8=\n- !!binary ''\n- !!binary +/8=\n- !!binary 'null'\n- !t aGk=\n",
    )),
    // A number takes the properties of the next node.
    Call::Anchored("a"),
    Call::Tagged("tag:yaml.org,2002:float"),
    Call::Number("5"),
    Call::Finish(Ok("--- &a !!float 5\n")),
];

/// Floats and bytes, which have the tag of their spelling.
pub(super) const CANONICAL: &[Call] = &[
    Call::Sequence,
    Call::Float(0.5),
    Call::Float(f64::NAN),
    Call::Bytes(b"hello"),
    Call::End,
    Call::Finish(Ok(
        "---\n[\n  !!float \"0.5\",\n  !!float \".nan\",\n  !!binary \"aGVsbG8=\",\n]\n",
    )),
];
