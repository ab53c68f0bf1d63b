//! Worked cases of nodes on their own, and of their lines.

mod cluster;

use bully_agent::Agent;
use bully_base::{Node, Setup, Status};
use bully_calls::{Answer, Call, CallKind, NodeEventKind, Reply, Request};
use bully_lines::{ReplyFault, RequestFault, push_reply, push_request, read_reply, read_request};
use bully_table::TableFault;
use bully_world::Refused;
use cluster::{Cluster, Input, new_agent};
use std::alloc::Global;

/// Lines of requests in a group of three nodes with three partitions and 1,000 events, which are written as they are
/// read.
const REQUESTS: [&str; 5] = [
    "ask,3,0,1,are-you-up",
    "ask,1,17,3,are-you-normal",
    "ask,3,999,2,halt",
    "ask,2,5,1,new-coordinator",
    "ask,3,5,1,ready,1 2 3",
];

/// Lines that are no requests there, and why: fault by fault.
const NO_REQUESTS: [(&str, RequestFault); 60] = [
    ("", RequestFault::Word),
    ("ask 3,0,1,halt", RequestFault::Word),
    (" ask,3,0,1,halt", RequestFault::Word),
    ("ASK,3,0,1,halt", RequestFault::Word),
    ("\u{e1}sk,3,0,1,halt", RequestFault::Word),
    ("tell,3,0,yes", RequestFault::Word),
    ("ask", RequestFault::Caller),
    ("ask,", RequestFault::Caller),
    ("ask,,0,1,halt", RequestFault::Caller),
    ("ask,0,0,1,halt", RequestFault::Caller),
    ("ask,4,0,1,halt", RequestFault::Caller),
    ("ask,03,0,1,halt", RequestFault::Caller),
    ("ask,+3,0,1,halt", RequestFault::Caller),
    ("ask,65539,0,1,halt", RequestFault::Caller),
    ("ask,18446744073709551619,0,1,halt", RequestFault::Caller),
    ("ask,\u{ff13},0,1,halt", RequestFault::Caller),
    ("ask,4,1000,4,stop", RequestFault::Caller),
    ("ask,3", RequestFault::Number),
    ("ask,3,,1,halt", RequestFault::Number),
    ("ask,3,1000,1,halt", RequestFault::Number),
    ("ask,3,4294967297,1,halt", RequestFault::Number),
    ("ask,3,18446744073709551617,1,halt", RequestFault::Number),
    ("ask,3,00,1,halt", RequestFault::Number),
    ("ask,3,017,1,halt", RequestFault::Number),
    ("ask,3,+17,1,halt", RequestFault::Number),
    ("ask,3,-0,1,halt", RequestFault::Number),
    ("ask,3,1\u{ff17},1,halt", RequestFault::Number),
    ("ask,3,1000,4,stop", RequestFault::Number),
    ("ask,3,0", RequestFault::Callee),
    ("ask,3,0,,halt", RequestFault::Callee),
    ("ask,3,0,0,halt", RequestFault::Callee),
    ("ask,3,0,4,halt", RequestFault::Callee),
    ("ask,3,0,01,halt", RequestFault::Callee),
    ("ask,3,0,65537,halt", RequestFault::Callee),
    ("ask,3,0,\u{ff11},halt", RequestFault::Callee),
    ("ask,3,0,4,stop", RequestFault::Callee),
    ("ask,3,0,1", RequestFault::Kind),
    ("ask,3,0,1,", RequestFault::Kind),
    ("ask,3,0,1,Halt", RequestFault::Kind),
    ("ask,3,0,1,h\u{e1}lt", RequestFault::Kind),
    ("ask,3,0,1,halt ", RequestFault::Kind),
    ("ask,3,0,1,halt\r", RequestFault::Kind),
    ("ask,3,0,1,halt,", RequestFault::Kind),
    ("ask,3,0,1,halt,1 2 3", RequestFault::Kind),
    ("ask,3,0,1,are-you-up,1 2 3", RequestFault::Kind),
    ("ask,1,0,3,are-you-normal,1 2 3", RequestFault::Kind),
    ("ask,3,0,1,new-coordinator,1 2 3", RequestFault::Kind),
    ("ask,3,0,1,ready 1 2 3", RequestFault::Kind),
    ("ask,3,0,1,ready", RequestFault::Table(TableFault::Length)),
    ("ask,3,0,1,ready,", RequestFault::Table(TableFault::Length)),
    (
        "ask,3,0,1,ready,1 2",
        RequestFault::Table(TableFault::Length),
    ),
    (
        "ask,3,0,1,ready,1 2 3 1",
        RequestFault::Table(TableFault::Length),
    ),
    (
        "ask,3,0,1,ready,1 2 4",
        RequestFault::Table(TableFault::Owner),
    ),
    (
        "ask,3,0,1,ready,1 2 65537",
        RequestFault::Table(TableFault::Owner),
    ),
    (
        "ask,3,0,1,ready,x 2 4",
        RequestFault::Table(TableFault::Owner),
    ),
    (
        "ask,3,0,1,ready,1 2 x",
        RequestFault::Table(TableFault::Syntax),
    ),
    (
        "ask,3,0,1,ready,1 2 03",
        RequestFault::Table(TableFault::Syntax),
    ),
    (
        "ask,3,0,1,ready,1  2",
        RequestFault::Table(TableFault::Syntax),
    ),
    (
        "ask,3,0,1,ready,1 2 \u{ff13}",
        RequestFault::Table(TableFault::Syntax),
    ),
    (
        "ask,3,0,1,ready,1 2 3,",
        RequestFault::Table(TableFault::Syntax),
    ),
];

/// Lines of replies, which are written as they are read.
const REPLIES: [&str; 2] = ["tell,3,0,yes", "tell,1,999,no"];

/// Lines that are no replies, and why: fault by fault.
const NO_REPLIES: [(&str, ReplyFault); 32] = [
    ("", ReplyFault::Word),
    ("ask,3,0,yes", ReplyFault::Word),
    ("TELL,3,0,yes", ReplyFault::Word),
    ("t\u{e9}ll,3,0,yes", ReplyFault::Word),
    ("tell", ReplyFault::Caller),
    ("tell,", ReplyFault::Caller),
    ("tell,0,0,yes", ReplyFault::Caller),
    ("tell,4,0,yes", ReplyFault::Caller),
    ("tell,03,0,yes", ReplyFault::Caller),
    ("tell,65539,0,yes", ReplyFault::Caller),
    ("tell,\u{ff13},0,yes", ReplyFault::Caller),
    ("tell,4,1000,maybe", ReplyFault::Caller),
    ("tell,3", ReplyFault::Number),
    ("tell,3,,yes", ReplyFault::Number),
    ("tell,3,1000,yes", ReplyFault::Number),
    ("tell,3,4294967297,yes", ReplyFault::Number),
    ("tell,3,18446744073709551617,yes", ReplyFault::Number),
    ("tell,3,017,yes", ReplyFault::Number),
    ("tell,3,+17,yes", ReplyFault::Number),
    ("tell,3,1\u{ff17},yes", ReplyFault::Number),
    ("tell,3,1000,maybe", ReplyFault::Number),
    ("tell,3,0", ReplyFault::Answer),
    ("tell,3,0,", ReplyFault::Answer),
    ("tell,3,0,maybe", ReplyFault::Answer),
    ("tell,3,0,done", ReplyFault::Answer),
    ("tell,3,0,failed", ReplyFault::Answer),
    ("tell,3,0,Yes", ReplyFault::Answer),
    ("tell,3,0,y\u{e9}s", ReplyFault::Answer),
    ("tell,3,0,yes ", ReplyFault::Answer),
    ("tell,3,0,yes\r", ReplyFault::Answer),
    ("tell,3,0,yes,", ReplyFault::Answer),
    ("tell,3,0,yes,no", ReplyFault::Answer),
];

// The group of these lines.
fn group() -> Option<Setup> {
    Setup::new(3, 3, 1000).ok()
}

// Whether the line is refused for this fault; for none, whether it is a request, which is written as it is read.
fn is_request(alloc: Global, line: &str, fault: Option<RequestFault>) -> bool {
    let Some(group) = group() else {
        return false;
    };
    match read_request(alloc, &group, line) {
        Ok(request) => fault.is_none() && tells_request(alloc, &request, line),
        Err(why) => fault == Some(why),
    }
}

// Whether this is the request's line.
fn tells_request(alloc: Global, request: &Request, line: &str) -> bool {
    let mut text = String::new(alloc);
    push_request(&mut text, request).is_ok() && text.as_str() == line
}

// The same of a reply.
fn is_reply(alloc: Global, line: &str, fault: Option<ReplyFault>) -> bool {
    let Some(group) = group() else {
        return false;
    };
    match read_reply(&group, line) {
        Ok(reply) => fault.is_none() && tells_reply(alloc, reply, line),
        Err(why) => fault == Some(why),
    }
}

fn tells_reply(alloc: Global, reply: Reply, line: &str) -> bool {
    let mut text = String::new(alloc);
    push_reply(&mut text, reply).is_ok() && text.as_str() == line
}

#[test]
fn lines_of_requests(rt: HostRuntime) {
    for line in REQUESTS.iter() {
        assert!(rt; is_request(rt.alloc(), *line, None), "{line}");
    }
    for (line, fault) in NO_REQUESTS.iter() {
        assert!(rt; is_request(rt.alloc(), *line, Some(*fault)), "{line}");
    }
}

#[test]
fn lines_of_replies(rt: HostRuntime) {
    for line in REPLIES.iter() {
        assert!(rt; is_reply(rt.alloc(), *line, None), "{line}");
    }
    for (line, fault) in NO_REPLIES.iter() {
        assert!(rt; is_reply(rt.alloc(), *line, Some(*fault)), "{line}");
    }
}

// All nodes recover and come to rest, then the last one crashes, and the second one hears nothing of it for too long.
fn go_on(cluster: &mut Cluster) -> Option<()> {
    for place in 0..3 {
        cluster.happen(place, Input::Recover)?;
    }
    cluster.rest()?;
    cluster.happen(2, Input::Crash)?;
    cluster.happen(1, Input::Timeout)?;
    cluster.rest()
}

// Whether the three nodes of that group are those of a world all along, and the lower ones then follow the second one.
fn three_are_of_a_world(alloc: Global) -> Option<bool> {
    let mut cluster = Cluster::new(alloc, &group()?)?;
    go_on(&mut cluster)?;
    let follows = Some((Status::Normal, Node::new(2)));
    Some(
        cluster.shown(0) == follows
            && cluster.shown(1) == follows
            && cluster.shown(2) == Some((Status::Down, None)),
    )
}

#[test]
fn three_nodes_are_those_of_a_world(rt: HostRuntime) {
    assert!(rt; three_are_of_a_world(rt.alloc()) == Some(true));
}

// The reply that answers the node's call.
fn awaited_reply(agent: &Agent) -> Option<Reply> {
    match agent.request() {
        Ok(Some(request)) => Some(Reply {
            caller: request.caller,
            number: request.number,
            answer: Answer::Yes,
        }),
        _ => None,
    }
}

// Why the node refuses the reply; none where it takes it.
fn refused_reply(agent: &mut Agent, reply: Reply) -> Option<Refused> {
    agent.replied(reply).err()
}

// Whether the node, which recovers and starts a call, refuses a reply to another one, and takes one to this call, once.
fn takes_its_reply(agent: &mut Agent) -> Option<bool> {
    let recovered = agent.apply(NodeEventKind::Recover).err();
    let started = agent.apply(NodeEventKind::Start).err();
    if recovered.is_some() || started.is_some() {
        return None;
    }
    let reply = awaited_reply(agent)?;
    let stale = Reply {
        number: reply.number.wrapping_sub(1),
        ..reply
    };
    let no_call = Some(Refused::NoCall);
    let before = refused_reply(agent, stale);
    let first = refused_reply(agent, reply);
    let again = refused_reply(agent, reply);
    Some(before == no_call && first == None && again == no_call)
}

// The same of the first of two nodes.
fn first_takes_its_reply(alloc: Global) -> Option<bool> {
    match new_agent(alloc, &Setup::new(2, 1, 100).ok()?, 1, 0) {
        Some(mut agent) => takes_its_reply(&mut agent),
        None => None,
    }
}

#[test]
fn a_reply_to_another_call(rt: HostRuntime) {
    assert!(rt; first_takes_its_reply(rt.alloc()) == Some(true));
}

/// A request without a table: its caller, its call and the callee.
type Asked = (u16, CallKind, u16);

/// What comes to the second node of that group, with so many events told before it was made, and whether it then
/// recovers; and why the request is refused.
const REFUSED: [(u32, bool, Asked, Refused); 9] = [
    (999, true, (3, CallKind::Halt, 2), Refused::Full),
    (999, true, (4, CallKind::Halt, 2), Refused::Full),
    (0, true, (4, CallKind::Halt, 2), Refused::BadNode),
    (0, true, (4, CallKind::Halt, 1), Refused::BadNode),
    (0, true, (3, CallKind::Halt, 1), Refused::NoCall),
    (0, true, (1, CallKind::Halt, 2), Refused::NoCall),
    (0, true, (3, CallKind::Ready, 2), Refused::NoCall),
    (0, false, (1, CallKind::Halt, 2), Refused::NoCall),
    (0, false, (3, CallKind::Halt, 2), Refused::CalleeDown),
];

fn request_of(asked: Asked) -> Option<Request> {
    let (caller, kind, callee) = asked;
    Some(Request {
        caller: Node::new(caller)?,
        number: 0,
        call: Call {
            callee: Node::new(callee)?,
            kind,
        },
        table: None,
    })
}

// What a request that ran would change of a node.
fn kept(agent: &Agent) -> (u32, u32, Status) {
    (agent.events(), agent.generation(), agent.vector().status())
}

// Why the node, which may recover before, refuses the request; none where it doesn't, or where that changes it.
fn refusal(agent: &mut Agent, recovers: bool, asked: Asked) -> Option<Refused> {
    if recovers && agent.apply(NodeEventKind::Recover).is_err() {
        return None;
    }
    let before = kept(agent);
    let why = match request_of(asked) {
        Some(request) => agent.serve(&request).err(),
        None => None,
    };
    if kept(agent) == before { why } else { None }
}

// Why the second node refuses the request.
fn refused(alloc: Global, told: u32, recovers: bool, asked: Asked) -> Option<Refused> {
    match new_agent(alloc, &group()?, 2, told) {
        Some(mut agent) => refusal(&mut agent, recovers, asked),
        None => None,
    }
}

#[test]
fn requests_that_are_refused(rt: HostRuntime) {
    for (told, recovers, asked, why) in REFUSED.iter() {
        let refused = refused(rt.alloc(), *told, *recovers, *asked);
        assert!(rt; refused == Some(*why), "{told} {recovers} {asked:?}");
    }
}
