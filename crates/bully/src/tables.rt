ghost use Rattle.std.specs.Prelude.{◌≡◌, ◌≢◌, ◌≤◌, ◌⊎◌, ℕ, List, All, None, Some, length, map, option_map, IfOk, IfErr};
ghost use Rattle.std.specs.Prelude.{IfSome, string_bytes};
ghost use Rattle.std.specs.Option.{option_copied};
ghost use Rattle.std.specs.Io.KnownBytes.{Appends};
ghost use Rattle.bully.specs.Answer.{Tells, is_given, stop_line};
ghost use Rattle.bully.specs.ConfigAnswer.{IsTableAnswer};
ghost use Rattle.bully.specs.PlanText.{IsPlanTold, plan_text};
ghost use Rattle.bully_cli.specs.Words.{text_of as words_text};
ghost use Rattle.bully.specs.Wanted.{IsPlanOf, Wants, members_named, wanted_after, wanted_for, wanted_in};

use crate::configs::{bytes_at, config_of};
use crate::flags::is_given;
use crate::refusals::{Refusal, answer_refusal};
use crate::telling::{Stop, answer_stop, finish};
use bully_base::{NodeSet, OutOfMemory, Setup};
use bully_cli::TableWords;
use bully_config::Config;
use bully_json::plan_line;
use bully_table::{Table, TablePlan, plan_in, push_owners};
use std::alloc::Global;
use std::io::Write;
use std::rt::Files;

/// Plans the table that the words ask for, with its owners, its moves and its bound on the output, and tells the
/// status. The configuration is read first, then the members, then the old table.
pub fn answer_table<H: Files + AllocGlobal, W: Write, E: Write>(
    rt: &H,
    words: &TableWords<'_>,
    output: &mut W,
    errors: &mut E,
) -> u8
    ensures answer { (bytes : List ℕ) × IsTableAnswer (is_given (words_text words.now.json)) bytes
        (map (λ s. s.now) words.now.members.items) (option_map (λ s. s.now) words.now.old) (W.contents output.old)
        (W.contents output.new) (E.contents errors.old) (E.contents errors.new) result }
    ensures silent { (result ≡ 2) ⊎ (result ≡ 3) → output.new ≡ output.old }
    ensures status { result ≤ 4 }
{
    match bytes_at(rt, words.config) {
        Ok(bytes) => plan_bytes(rt.alloc(), bytes.as_slice(), words, output, errors),
        Err(stop) => answer_stop(stop, errors),
    }
}

/// Plans the table that the words ask for over the configuration that these bytes of a file are, and tells the
/// status.
pub fn plan_bytes<W: Write, E: Write>(
    alloc: Global,
    bytes: &[u8],
    words: &TableWords<'_>,
    output: &mut W,
    errors: &mut E,
) -> u8
    ensures answer { IsTableAnswer (is_given (words_text words.now.json)) bytes.now
        (map (λ s. s.now) words.now.members.items) (option_map (λ s. s.now) words.now.old) (W.contents output.old)
        (W.contents output.new) (E.contents errors.old) (E.contents errors.new) result }
    ensures silent { (result ≡ 2) ⊎ (result ≡ 3) → output.new ≡ output.old }
    ensures status { result ≤ 4 }
{
    match plan_of(alloc, bytes, words) {
        Ok(plan) => answer_plan(alloc, is_given(words.json), &plan, output, errors),
        Err(refusal) => answer_refusal(alloc, refusal, errors),
    }
}

// The plan that the words ask for, over the configuration of these bytes.
fn plan_of(alloc: Global, bytes: &[u8], words: &TableWords<'_>) -> Result<TablePlan, Refusal>
    ensures { IsPlanOf
        (Wants bytes.now (map (λ s. s.now) words.now.members.items) (option_map (λ s. s.now) words.now.old)) result }
{
    match config_of(alloc, bytes) {
        Ok(config) => plan_with(alloc, &config, words),
        Err(fault) => Err(Refusal::from(fault)),
    }
}

// The plan that the words ask for, over this configuration.
fn plan_with(alloc: Global, config: &Config, words: &TableWords<'_>) -> Result<TablePlan, Refusal>
    ensures { IsPlanOf (λ answer. wanted_in config.now (map (λ s. s.now) words.now.members.items)
        (option_map (λ s. s.now) words.now.old) ≡ answer) result }
{
    let members = members_of(config, words.members.as_slice())?;
    plan_after(alloc, config.setup(), &members, words.old)
}

// The plan over these members, from the old table of this text.
fn plan_after(
    alloc: Global,
    setup: &Setup,
    members: &NodeSet,
    old: Option<&str>,
) -> Result<TablePlan, Refusal>
    requires { All (λ m. m ≤ setup.now.nodes) members.now }
    ensures { IsPlanOf (λ answer. wanted_after setup.now members.now (option_map (λ s. s.now) old.entry)
        ≡ answer) result }
{
    match old {
        Some(owners) => match Table::read_in(alloc, setup, owners.as_bytes()) {
            Ok(table) => plan_for(alloc, setup, members, Some(&table)),
            Err(fault) => Err(Refusal::from(fault)),
        },
        None => plan_for(alloc, setup, members, None),
    }
}

// The plan over these members, from this old table.
fn plan_for(
    alloc: Global,
    setup: &Setup,
    members: &NodeSet,
    old: Option<&Table>,
) -> Result<TablePlan, Refusal>
    requires members { All (λ m. m ≤ setup.now.nodes) members.now }
    requires old { IfSome (option_copied old) (λ table. length table ≡ setup.now.partitions) }
    ensures { IsPlanOf (λ answer. wanted_for setup.now members.now (option_copied old.entry) ≡ answer) result }
{
    match plan_in(alloc, setup, members, old) {
        Ok(plan) => Ok(plan),
        Err(fault) => Err(Refusal::from(fault)),
    }
}

// The set of the nodes of these names.
fn members_of(config: &Config, names: &[&str]) -> Result<NodeSet, Refusal>
    ensures ok { IfOk result (λ members. members_named config.now.names (map (λ s. s.now) names.now) ≡ Some members) }
    ensures none { IfErr result (λ refusal. (refusal ≡ Refusal.Member)
        × (members_named config.now.names (map (λ s. s.now) names.now) ≡ None)) }
{
    let mut members = NodeSet::new();
    for name in names {
        match config.node(name) {
            Some(node) => members.insert(node),
            None => return Err(Refusal::Member),
        }
    }
    Ok(members)
}

// The status of a plan, which stands on the output, as text or as JSON.
fn answer_plan<W: Write, E: Write>(
    alloc: Global,
    is_json: bool,
    plan: &TablePlan,
    output: &mut W,
    errors: &mut E,
) -> u8
    ensures { ((result ≡ 0) × ((text : List ℕ) × IsPlanTold is_json plan.now text × Appends (W.contents output.old)
        (W.contents output.new) text) × (errors.new ≡ errors.old)) ⊎ ((result ≡ 4) × (stop : Stop) × (stop ≢ Stop.Write
        → output.new ≡ output.old) × Tells (E.contents errors.old) (E.contents errors.new) (stop_line stop)) }
{
    let Some(text) = told_text(alloc, is_json, plan) else {
        return answer_stop(Stop::OutOfMemory, errors);
    };
    if output.write_all(text.as_bytes()).is_err() {
        return answer_stop(Stop::Write, errors);
    }
    finish(0, output, errors)
}

// What is told of a plan, as text or as JSON; none where an allocation fails.
fn told_text(alloc: Global, is_json: bool, plan: &TablePlan) -> Option<String>
    ensures { IfSome result (λ text. IsPlanTold is_json plan.now (string_bytes text)) }
{
    if is_json {
        plan_line(alloc, plan).ok()
    } else {
        text_of(alloc, plan).ok()
    }
}

// The text of a plan: its owners, its moves and its bound, a line each.
fn text_of(alloc: Global, plan: &TablePlan) -> Result<String, OutOfMemory>
    ensures { IfOk result (λ text. string_bytes text ≡ plan_text plan.now.table plan.now.moves plan.now.bound) }
{
    let mut text = String::new(alloc);
    let moves = plan.moves;
    let bound = plan.bound;
    push_owners(&mut text, &plan.table, ' ')?;
    writeln!(text, "\nmoves {moves}\nbound {bound}")?;
    Ok(text)
}
