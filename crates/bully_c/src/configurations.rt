//! A group's configuration, as a text that any language takes apart.
ghost use Rattle.std.specs.Prelude.{◌≡◌, ◌≢◌, ◌++◌, IfErr, IfOk, OnOk, string_bytes};
ghost use Rattle.bully_base.specs.Places.{at_node};
ghost use Rattle.bully_config.specs.Keys.{fault_text};
ghost use Rattle.bully_config.specs.declared.fault.ConfigFault.{ConfigFault};
ghost use Rattle.bully_c.specs.Arguments.{IsMadeAndCopied};
ghost use Rattle.bully_c.specs.Configurations.{IsConfigurationIn, IsConfigurationTold, IsFaultIn, IsFaultTold};
ghost use Rattle.bully_c.specs.Configurations.{configuration_text, name_line, names_text};

use crate::shown::copy_text;
use crate::status::{BAD_CONFIG, OK, OUT_OF_MEMORY};
use bully_base::{Node, OutOfMemory};
use bully_config::{Config, ConfigFault};
use bully_rows::{push_header, version_for};
use std::alloc::Global;

/// Reads a configuration, [`Config::read`], and writes the header of its group and its names, or its first fault.
#[unsafe(no_mangle)]
pub extern "C" fn bully_c_configuration(
    alloc: Global,
    text: &[u8],
    told: &mut [u8],
    length: &mut usize,
) -> u32
    ensures { IsConfigurationTold text.now told.old length.old result told.new length.new }
{
    match config_in(alloc, text) {
        Ok(config) => write_group(alloc, &config, told, length),
        Err(ConfigFault::OutOfMemory) => OUT_OF_MEMORY,
        Err(fault) => write_fault(alloc, fault, told, length),
    }
}

// The configuration that the bytes spell. What isn't UTF-8 is no TOML document.
fn config_in(alloc: Global, text: &[u8]) -> Result<Config, ConfigFault>
    ensures ok { IfOk result (IsConfigurationIn text.now) }
    ensures err { IfErr result (λ fault. fault ≢ ConfigFault.OutOfMemory → IsFaultIn text.now fault) }
{
    let Ok(text) = str::from_utf8(text) else {
        return Err(ConfigFault::Toml);
    };
    Config::read(alloc, text)
}

// Writes the header of the group and the names.
fn write_group(alloc: Global, config: &Config, told: &mut [u8], length: &mut usize) -> u32
    ensures { IsMadeAndCopied (configuration_text config.now) told.old length.old result told.new length.new }
{
    match group_text(alloc, config) {
        Ok(text) => copy_text(&text, told, length),
        Err(_) => OUT_OF_MEMORY,
    }
}

// The header of the group, and a line for each name.
fn group_text(alloc: Global, config: &Config) -> Result<String, OutOfMemory>
    ensures { IfOk result (λ text. string_bytes text ≡ configuration_text config.now) }
{
    let setup = config.setup();
    let mut text = String::new(alloc);
    push_header(&mut text, version_for(setup), setup)?;
    push_names(&mut text, config)?;
    Ok(text)
}

// Appends a line for each name, in the order of the nodes.
fn push_names(text: &mut String, config: &Config) -> Result<(), OutOfMemory>
    ensures { OnOk result (string_bytes text.new ≡ string_bytes text.old ++ names_text config.now.names) }
{
    for place in 0..config.setup().nodes() {
        if let Some(node) = Node::new(place + 1) {
            push_name(text, config.name(node))?;
        }
    }
    Ok(())
}

// Appends how many bytes the name has, and the name.
#[tactic(auto, unfolding(crate::specs::Configurations::name_line))]
fn push_name(text: &mut String, name: &str) -> Result<(), OutOfMemory>
    ensures { OnOk result (string_bytes text.new ≡ string_bytes text.old ++ name_line name.now) }
{
    let length = name.len();
    write!(text, "{length}:{name}\n")
}

// Writes the fault, in the program's words.
fn write_fault(alloc: Global, fault: ConfigFault, told: &mut [u8], length: &mut usize) -> u32
    ensures { IsFaultTold (fault_text fault) told.old length.old result told.new length.new }
{
    let mut text = String::new(alloc);
    let Ok(_) = write!(text, "{fault}") else {
        return OUT_OF_MEMORY;
    };
    match copy_text(&text, told, length) {
        OK => BAD_CONFIG,
        status => status,
    }
}
