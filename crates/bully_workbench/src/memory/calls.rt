use super::agents::{AgentCall, LineCall};
use super::changes::Change;
use super::groups::Asked;
use super::replicas::ReplicaCall;
use super::tables::{FullCall, NewCall, TableCall};
use super::texts::{TraceCall, Version};
use super::watched::Watching;
use super::worlds::EventCall;

/// A call, by what it is tried on.
#[derive(Clone, Copy)]
pub enum Call {
    New(NewCall),
    Full(FullCall),
    Table(TableCall),
    Event(EventCall),
    Agent(AgentCall),
    Line(LineCall),
    Group(Asked),
    Publisher,
    Watched(Watching),
    Claim,
    Trace(TraceCall, Version),
    Replica(ReplicaCall),
    Follow(Version),
}

/// The calls, from the lowest crate's on; `/2` or `/3` comes after one that is tried with a trace of that version,
/// too. `Setup::weighted`, `Walk::apply` and `Replica::learn` take no memory: the last two are tried with all events of
/// an election.
pub const CALLS: [(&str, Call); 65] = [
    ("Setup::weighted", Call::New(NewCall::Weighted)),
    ("Table::read", Call::New(NewCall::Table)),
    ("Table::read_in", Call::New(NewCall::TableIn)),
    ("Table::copy", Call::Table(TableCall::Copy)),
    ("TableRoom::new", Call::New(NewCall::Room)),
    ("push_owners", Call::Table(TableCall::PushOwners)),
    ("plan", Call::Table(TableCall::Plan)),
    ("plan_in", Call::Table(TableCall::PlanIn)),
    ("Slot::new", Call::New(NewCall::Slot)),
    ("Waiting::new", Call::New(NewCall::Waiting)),
    ("Vector::new", Call::New(NewCall::Vector)),
    ("Planning::prepare", Call::Event(EventCall::Prepare)),
    ("Procedure::prepare", Call::Event(EventCall::PrepareInPlace)),
    ("World::new", Call::New(NewCall::World)),
    ("Event::copy", Call::Event(EventCall::CopyEvent)),
    ("run", Call::Event(EventCall::Run)),
    ("run_whole", Call::Event(EventCall::RunWhole)),
    ("view", Call::Event(EventCall::View)),
    ("Walk::new", Call::New(NewCall::Walk)),
    ("Walk::apply", Call::Event(EventCall::Apply)),
    ("Walk::view", Call::Event(EventCall::WalkView)),
    ("Agent::new", Call::Agent(AgentCall::New)),
    ("Agent::request", Call::Agent(AgentCall::Request)),
    ("Agent::prepare", Call::Agent(AgentCall::Prepare)),
    ("read_request", Call::Line(LineCall::Read)),
    ("push_request", Call::Line(LineCall::PushRequest)),
    ("push_reply", Call::Line(LineCall::PushReply)),
    ("Entry::copy", Call::Event(EventCall::CopyEntry)),
    ("Publisher::open", Call::Publisher),
    ("Publisher::publish", Call::Group(Asked::PublishHistory)),
    ("Observer::look", Call::Watched(Watching::Look)),
    ("Locked::open", Call::Group(Asked::Open)),
    ("Locked::step", Call::Group(Asked::Change(Change::Step))),
    ("Locked::serve", Call::Group(Asked::Change(Change::Serve))),
    ("Locked::turn", Call::Group(Asked::Change(Change::Turn))),
    (
        "Locked::turn_in_place",
        Call::Group(Asked::Change(Change::TurnInPlace)),
    ),
    (
        "Locked::serve_or_turn",
        Call::Group(Asked::Change(Change::NodeTurn)),
    ),
    ("Locked::view", Call::Group(Asked::View)),
    ("Locked::publish", Call::Watched(Watching::Publish)),
    ("Locked::finish", Call::Group(Asked::Finish)),
    ("Group::open", Call::Group(Asked::OpenShared)),
    ("Group::open_watched", Call::Watched(Watching::Open)),
    ("WholeClaim::new", Call::Claim),
    ("read_trace", Call::Trace(TraceCall::Read, Version::First)),
    (
        "read_trace/2",
        Call::Trace(TraceCall::Read, Version::Second),
    ),
    ("read_trace/3", Call::Trace(TraceCall::Read, Version::Third)),
    ("write_trace", Call::Trace(TraceCall::Write, Version::First)),
    (
        "write_trace/2",
        Call::Trace(TraceCall::Write, Version::Second),
    ),
    (
        "write_trace/3",
        Call::Trace(TraceCall::Write, Version::Third),
    ),
    ("check", Call::Trace(TraceCall::Check, Version::First)),
    ("check/2", Call::Trace(TraceCall::Check, Version::Second)),
    ("check/3", Call::Trace(TraceCall::Check, Version::Third)),
    ("Replica::new", Call::Replica(ReplicaCall::New)),
    ("Replica::learn", Call::Replica(ReplicaCall::Learn)),
    ("Replica::next", Call::Replica(ReplicaCall::Next)),
    ("rebalance", Call::Replica(ReplicaCall::Rebalance)),
    ("owned", Call::Replica(ReplicaCall::Owned)),
    ("RowReplica::learn_all", Call::Follow(Version::First)),
    ("RowReplica::learn_all/2", Call::Follow(Version::Second)),
    ("RowReplica::learn_all/3", Call::Follow(Version::Third)),
    ("upgrade", Call::Trace(TraceCall::Upgrade, Version::First)),
    (
        "upgrade/2",
        Call::Trace(TraceCall::Upgrade, Version::Second),
    ),
    ("upgrade/3", Call::Trace(TraceCall::Upgrade, Version::Third)),
    ("annotate", Call::Trace(TraceCall::Annotate, Version::First)),
    (
        "annotate/3",
        Call::Trace(TraceCall::Annotate, Version::Third),
    ),
];

/// The calls for the largest group, which take a minute or two.
const FULL: [(&str, Call); 2] = [
    ("World::new/full", Call::Full(FullCall::World)),
    ("view/full", Call::Full(FullCall::View)),
];

/// The call of this name.
pub fn call_of(name: &str) -> Option<Call> {
    match call_in(&CALLS, name) {
        None => call_in(&FULL, name),
        call => call,
    }
}

fn call_in(calls: &[(&str, Call)], name: &str) -> Option<Call> {
    for (known, call) in calls.iter() {
        if *known == name {
            return Some(*call);
        }
    }
    None
}
