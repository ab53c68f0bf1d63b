//! Reading a configuration: the text's document, its first refusal, and else its values.
ghost use Rattle.std.specs.Prelude.{Some, ◌≡◌, ◌≢◌, ◌≤◌, ◌++◌, map, drop, replicate, length, false, None, Ok, Err};
ghost use Rattle.std.specs.Prelude.{IfOk, IfErr, string_bytes, option_and_then};
ghost use Rattle.toml.specs.Errors.{IsBlank};
ghost use Rattle.toml.specs.Parse.{parse_document};
ghost use Rattle.toml.specs.View.{view, table_view};
ghost use Rattle.bully_base.specs.declared.TheConstants.{NODES_MAX};
ghost use Rattle.bully_config.specs.Answers.{TellsEachFault, answer_of, refusal_of};
ghost use Rattle.toml.specs.Data.{Members, as_table};
ghost use Rattle.bully_config.specs.Document.{items_at};
ghost use Rattle.bully_config.specs.Configuration.{has_double};
ghost use Rattle.bully_config.specs.Values.{values_of, fault_in, faults_in, names_of, weight_told};

use crate::TURNS_MAX;
use crate::config::{Config, Fault};
use crate::fault::{ConfigFault, Key};
use crate::lookup::{
    items_at, keeps_at, kind_at, node_at, number_at, period_at, text_of, weight_of,
};
use crate::refusal::first_refusal;
use bully_base::{EVENTS_MAX, NODES_MAX, OutOfMemory, PARTITIONS_MAX, Setup};
use indexmap::IndexSet;
use std::alloc::Global;
use toml::{Table, Value};

impl Config {
    /// Reads a configuration. Refused by the first of [`ConfigFault`] that the text has; only want of memory is
    /// answered at once, whatever comes after. The rule: docs/FORMATS.md.
    pub fn read(alloc: Global, text: &str) -> Result<Config, ConfigFault>
        ensures ok { IfOk result (λ config. answer_of text.now ≡ Ok config) }
        ensures whole { IfOk result (TellsEachFault text.now) }
        ensures fault { IfErr result (λ fault.
            fault ≢ ConfigFault.OutOfMemory → answer_of text.now ≡ Err fault) }
        ensures toml { result ≡ Err ConfigFault.Toml → parse_document text.now ≡ None }
        ensures memory { result ≡ Err ConfigFault.OutOfMemory → ¬ IsBlank text.now }
    {
        let document = toml::table_from_str(alloc, text)?;
        if let Some(fault) = first_refusal(&document) {
            return Err(fault);
        }
        Ok(config_of(alloc, &document)?)
    }
}

// The configuration that a document tells, which nothing refuses.
fn config_of(alloc: Global, document: &Table) -> Result<Config, OutOfMemory>
    requires { refusal_of (table_view document.now) ≡ None }
    ensures { IfOk result (λ config. config ≡ values_of (table_view document.now)) }
{
    let setup = setup_of(document);
    let turns = number_at(document, Key::Turns, TURNS_MAX).unwrap();
    let period = period_at(document).unwrap();
    let names = items_at(document, Key::Names);
    let faults = read_faults(alloc, items_at(document, Key::Fault), turns, names)?;
    let names = read_names(alloc, names)?;
    Ok(Config::from_parts(setup, turns, period, names, faults))
}

// The setup that a document tells, which nothing refuses.
fn setup_of(document: &Table) -> Setup
    requires { refusal_of (table_view document.now) ≡ None }
    ensures { result ≡ (values_of (table_view document.now)).setup }
{
    let nodes = number_at(document, Key::Nodes, u32::from(NODES_MAX)).unwrap();
    let partitions = number_at(document, Key::Partitions, u32::from(PARTITIONS_MAX)).unwrap();
    let events_max = number_at(document, Key::Events, EVENTS_MAX).unwrap();
    let all = read_weights(items_at(document, Key::Weights));
    let weights = &all[..nodes as usize];
    let keeps = keeps_at(document);
    Setup::weighted(nodes as u16, partitions as u16, events_max, weights, keeps).unwrap()
}

// The weights that the items tell, and 1 at each place after them.
fn read_weights(items: &[Value]) -> [u16; NODES_MAX as usize]
    requires { length items.now ≤ NODES_MAX }
    ensures { result ≡ map weight_told (map view items.now) ++ drop (length items.now) (replicate NODES_MAX 1) }
{
    let mut weights = [1; NODES_MAX as usize];
    for (place, item) in items.iter().enumerate() {
        weights[place] = weight_of(item).unwrap_or(0);
    }
    weights
}

// The faults that the tables tell, in their order.
#[tactic(auto, using(crate::proofs::ItemLemmas::items_next, crate::proofs::ItemLemmas::items_end))]
fn read_faults(
    alloc: Global,
    items: &[Value],
    turns: u32,
    names: &[Value],
) -> Result<Vec<Fault>, OutOfMemory>
    requires { length names.now ≤ NODES_MAX }
    ensures { IfOk result (λ faults.
        faults.items ≡ faults_in turns (names_of (map view names.now)) (map view items.now)) }
{
    let mut faults = Vec::with_capacity(alloc, items.len())?;
    for item in items {
        if let Some(fault) = read_fault(item, turns, names) {
            faults.push(fault)?;
        }
    }
    Ok(faults)
}

// The fault that a table tells.
fn read_fault(item: &Value, turns: u32, names: &[Value]) -> Option<Fault>
    requires { length names.now ≤ NODES_MAX }
    ensures { result ≡ option_and_then (fault_in turns (names_of (map view names.now))) (as_table (view item.now)) }
{
    let fault = item.as_table()?;
    Some(Fault {
        at: number_at(fault, Key::At, turns)?,
        node: node_at(fault, names)?,
        kind: kind_at(fault)?,
    })
}

// The names, which are all different.
#[tactic(auto, using(crate::proofs::ItemLemmas::items_next, crate::proofs::ItemLemmas::items_end))]
fn read_names(alloc: Global, items: &[Value]) -> Result<IndexSet<String>, OutOfMemory>
    requires { has_double (names_of (map view items.now)) ≡ false }
    ensures { IfOk result (λ names. map (λ s. string_bytes s) names.keys ≡ names_of (map view items.now)) }
{
    let mut names = IndexSet::with_capacity(alloc, items.len())?;
    for item in items {
        names.insert(String::from_str(alloc, text_of(item))?)?;
    }
    Ok(names)
}
