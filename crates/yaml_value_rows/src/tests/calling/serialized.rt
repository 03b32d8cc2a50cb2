//! Values of any type that implements `Serialize`.
use crate::tests::{equal, same};
use serde::Serialize;
use std::alloc::Global;
use std::io::Write;
use std::process::Abort;
use yaml_writer::{Writer, value_settings};

/// A host, with its ports and its rule.
#[derive(Drop, Serialize)]
struct Host<'a> {
    name: &'a str,
    ports: Vec<u16>,
    rule: Rule,
}

#[derive(Drop, Serialize)]
enum Rule {
    Open,
    Limited { rate: f64 },
}

/// Returns the YAML of some hosts.
fn hosts_yaml(alloc: Global, hosts: &Vec<Host<'_>>) -> Result<String, yaml_serde::Error> {
    yaml_serde::to_string(alloc, hosts)
}

fn hosts(rt: &impl Abort, alloc: Global) -> Vec<Host<'static>> {
    let open = Host {
        name: "no",
        ports: vec![in alloc; 80, 443].expect(rt, "no memory"),
        rule: Rule::Open,
    };
    let limited = Host {
        name: "alpha",
        ports: Vec::new(alloc),
        rule: Rule::Limited { rate: 1e9 },
    };
    vec![in alloc; open, limited].expect(rt, "no memory")
}

#[test]
fn hosts_are_written(rt: HostRuntime) {
    let expected =
        "---\n- name: 'no'\n  ports:\n    - 80\n    - 443\n  rule: Open\n- name: alpha\n  ports: []\n  rule: !Limited\n    rate: 1000000000.0\n";
    let yaml = hosts_yaml(rt.alloc(), &hosts(&rt, rt.alloc()));
    let yaml = yaml.expect(&rt, "hosts that are written");
    equal(&rt, &yaml.as_str(), &expected);
}

/// Gives JSON values as documents, each handed on to a sink as the next begins.
fn give_each<W: Write>(
    alloc: Global,
    writer: &mut Writer<Global>,
    values: &[serde_json::Value],
    sink: &mut W,
) -> Result<(), yaml_serde::Error> {
    for (index, value) in values.iter().enumerate() {
        if index > 0 {
            writer.next_document()?;
            writer.send(sink)?;
        }
        yaml_serde::write(alloc, writer, value)?;
    }
    Ok(())
}

/// Sends JSON values as the documents of a stream.
fn send_each<W: Write>(
    alloc: Global,
    values: &[serde_json::Value],
    sink: &mut W,
) -> Result<(), yaml_serde::Error> {
    let mut writer = Writer::new(alloc, value_settings())?;
    give_each(alloc, &mut writer, values, sink)?;
    let rest = writer.finish()?;
    sink.write_all(rest.as_slice())?;
    Ok(())
}

/// Returns the value of a JSON text.
fn json(rt: &impl Abort, alloc: Global, text: &str) -> serde_json::Value {
    serde_json::Value::from_str(alloc, text).expect(rt, "JSON")
}

#[test]
fn json_values_are_documents(rt: HostRuntime) {
    let alloc = rt.alloc();
    let values = [
        json(&rt, alloc, "{\"no\": [1, null]}"),
        json(&rt, alloc, "\"a\""),
    ];
    let mut sink = Vec::new(alloc);
    let answer = send_each(alloc, &values, &mut sink);
    equal(&rt, &answer.is_ok(), &true);
    drop(answer);
    drop(values);
    same(&rt, sink.as_slice(), "---\n'no':\n  - 1\n  - null\n--- a\n");
}
