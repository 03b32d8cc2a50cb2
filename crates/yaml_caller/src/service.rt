//! A caller of a writer: it writes the configuration of a service, and proves what readers find in the bytes.
ghost use Rattle.std.specs.Prelude.{◌≡◌, IfOk, OnOk, chars, true, false};
ghost use Rattle.yaml_base.specs.streams.StreamContent.{agrees};
ghost use Rattle.yaml_base.specs.streams.StreamReader.{stream_trees};
ghost use Rattle.yaml_writer.specs.Given.{given_for_values};
ghost use Rattle.yaml_writer.specs.WasGiven.{IsBare, WasGiven};
ghost use Rattle.yaml_writer.specs.Writing.{IsStream};
ghost use Rattle.yaml_caller.specs.Service.{label_entries, labels_entry, list_entry, number_entry, service_events, service_stream, text_entry, text_items};

use std::alloc::Allocator;
use yaml_writer::{
    Writer, YAML_BLOCK_MAPPING_STYLE, YAML_BLOCK_SEQUENCE_STYLE, value_settings, yaml_error_t,
};

/// The configuration of a service.
#[derive(Drop)]
pub struct Service<A: Allocator> {
    pub name: String<A>,
    pub port: u16,
    /// The number of its processes.
    pub replicas: u32,
    /// The names of the hosts that it runs on.
    pub hosts: Vec<String<A>, A>,
    /// Keys with their values.
    pub labels: Vec<(String<A>, String<A>), A>,
}

/// Returns a service's configuration as YAML. The reader of whole streams finds in the bytes one document that agrees with the
/// events of a mapping with the five fields.
///
/// # Errors
/// The error of the first call of the writer that fails. `Memory` if an allocation fails.
pub fn service_yaml<A: Allocator + Copy>(
    alloc: A,
    service: &Service<A>,
) -> Result<Vec<u8, A>, yaml_error_t>
    ensures stream { IfOk result (λ bytes. IsStream given_for_values (service_stream service.now) bytes.items) }
    ensures reads { IfOk result (λ bytes. agrees false (service_stream service.now) (stream_trees false bytes.items) ≡ true) }
{
    let mut writer = Writer::new(alloc, value_settings())?;
    write_service(&mut writer, service)?;
    writer.finish()
}

/// Writes a service's configuration as a mapping.
fn write_service<A: Allocator + Copy>(
    writer: &mut Writer<A>,
    service: &Service<A>,
) -> Result<(), yaml_error_t>
    requires bare { IsBare writer.old }
    ensures { OnOk result (WasGiven writer.old (service_events writer.old.canonical service.now) writer.new) }
{
    writer.begin_mapping(YAML_BLOCK_MAPPING_STYLE)?;
    write_text(writer, "name", service.name.as_str())?;
    write_number(writer, "port", u64::from(service.port))?;
    write_number(writer, "replicas", u64::from(service.replicas))?;
    write_list(writer, "hosts", service.hosts.as_slice())?;
    write_labels(writer, "labels", service.labels.as_slice())?;
    writer.end()
}

/// Writes a key, and a text as its value.
fn write_text<A: Allocator + Copy>(
    writer: &mut Writer<A>,
    key: &str,
    value: &str,
) -> Result<(), yaml_error_t>
    requires bare { IsBare writer.old }
    ensures { OnOk result (WasGiven writer.old (text_entry (chars key.now) (chars value.now)) writer.new) }
{
    writer.text(key)?;
    writer.text(value)
}

/// Writes a key, and a number as its value.
fn write_number<A: Allocator + Copy>(
    writer: &mut Writer<A>,
    key: &str,
    value: u64,
) -> Result<(), yaml_error_t>
    requires bare { IsBare writer.old }
    ensures { OnOk result (WasGiven writer.old (number_entry writer.old.canonical (chars key.now) value) writer.new) }
{
    writer.text(key)?;
    writer.unsigned(value)
}

/// Writes a key, and a list of texts as its value.
fn write_list<A: Allocator + Copy>(
    writer: &mut Writer<A>,
    key: &str,
    texts: &[String<A>],
) -> Result<(), yaml_error_t>
    requires bare { IsBare writer.old }
    ensures { OnOk result (WasGiven writer.old (list_entry (chars key.now) texts.now) writer.new) }
{
    writer.text(key)?;
    writer.begin_sequence(YAML_BLOCK_SEQUENCE_STYLE)?;
    write_items(writer, texts)?;
    writer.end()
}

/// Writes the items of a list.
fn write_items<A: Allocator + Copy>(
    writer: &mut Writer<A>,
    texts: &[String<A>],
) -> Result<(), yaml_error_t>
    requires bare { IsBare writer.old }
    ensures { OnOk result (WasGiven writer.old (text_items texts.now) writer.new) }
{
    for text in texts {
        writer.text(text.as_str())?;
    }
    Ok(())
}

/// Writes a key, and a mapping of labels as its value.
fn write_labels<A: Allocator + Copy>(
    writer: &mut Writer<A>,
    key: &str,
    labels: &[(String<A>, String<A>)],
) -> Result<(), yaml_error_t>
    requires bare { IsBare writer.old }
    ensures { OnOk result (WasGiven writer.old (labels_entry (chars key.now) labels.now) writer.new) }
{
    writer.text(key)?;
    writer.begin_mapping(YAML_BLOCK_MAPPING_STYLE)?;
    write_entries(writer, labels)?;
    writer.end()
}

/// Writes the entries of a mapping of labels.
fn write_entries<A: Allocator + Copy>(
    writer: &mut Writer<A>,
    labels: &[(String<A>, String<A>)],
) -> Result<(), yaml_error_t>
    requires bare { IsBare writer.old }
    ensures { OnOk result (WasGiven writer.old (label_entries labels.now) writer.new) }
{
    for (key, value) in labels {
        write_text(writer, key.as_str(), value.as_str())?;
    }
    Ok(())
}
