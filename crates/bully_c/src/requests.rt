//! The requests and replies of agents, as lines.
ghost use Rattle.std.specs.Prelude.{◌≡◌, IsUtf8, Ok, IfErr, IfOk, None, string_bytes};
ghost use Rattle.bully_lines.specs.Texts.{reply_of_text, reply_text};
ghost use Rattle.bully_c.specs.Arguments.{IsMadeAndCopied};
ghost use Rattle.bully_c.specs.Exports.{AtOpen, IsFailure, IsReply, IsRequestLine, IsServe, RefusesReplyLine};
ghost use Rattle.bully_c.specs.Exports.{RefusesRequestLine, Shows, request_line, told_answer};
ghost use Rattle.bully_c.specs.Numbers.{step_number};

use crate::agent_handle::AgentHandle;
use crate::held_agent::HeldAgent;
use crate::shown::copy_text;
use crate::status::{
    CLOSED, LINE_WORD, OK, OUT_OF_MEMORY, SHORT, number_of_answer, status_of_refusal,
    status_of_reply, status_of_request,
};
use bully_agent::Agent;
use bully_base::{OutOfMemory, Setup};
use bully_calls::{Answer, Reply, Request};
use bully_lines::{push_reply, push_request, read_reply, read_request};
use bully_world::Refused;
use std::alloc::Global;
use std::str;

// The usual size of a line, so that it is allocated once.
const LINE_ROOM: usize = 32;

// The status of a step that brings an answer. The answer is written if the step is taken.
fn answered(taken: Result<Answer, Refused>, answer: &mut u32) -> u32
    ensures status { result ≡ step_number taken }
    ensures answer { answer.new ≡ told_answer answer.old taken }
{
    match taken {
        Ok(told) => {
            *answer = number_of_answer(told);
            OK
        }
        Err(why) => status_of_refusal(why),
    }
}

/// The line of the request of the node's call, while the call is under way, or else nothing: [`Agent::request`].
#[unsafe(no_mangle)]
pub extern "C" fn bully_c_agent_request(
    alloc: Global,
    agent: &mut AgentHandle,
    line: &mut [u8],
    length: &mut usize,
) -> u32
    ensures open { AtOpen (Shows (λ held status. IsMadeAndCopied (request_line held.agent) line.old length.old status
        line.new length.new)) agent.old.value result agent.new.value }
    ensures closed { agent.old.value ≡ None → (line.new ≡ line.old) × (length.new ≡ length.old) }
{
    let Some(held) = agent.take(alloc) else {
        return CLOSED;
    };
    let status = match request_line(alloc, &held.agent) {
        Ok(text) => copy_text(&text, line, length),
        Err(_) => OUT_OF_MEMORY,
    };
    agent.put(alloc, held);
    status
}

// The line of the request that the agent gives out, or nothing.
fn request_line(alloc: Global, agent: &Agent) -> Result<String, OutOfMemory>
    ensures { IfOk result (λ text. string_bytes text ≡ request_line agent.now) }
{
    let Some(request) = agent.request()? else {
        return Ok(String::new(alloc));
    };
    let mut text = String::with_capacity(alloc, LINE_ROOM)?;
    push_request(&mut text, &request)?;
    Ok(text)
}

/// The request of this line runs at the node, and the line of the reply is written: [`Agent::serve`].
#[unsafe(no_mangle)]
pub extern "C" fn bully_c_agent_serve(
    alloc: Global,
    agent: &mut AgentHandle,
    line: &[u8],
    reply: &mut [u8],
    length: &mut usize,
) -> u32
    ensures open { AtOpen (IsServe line.now reply.old length.old reply.new length.new) agent.old.value result
        agent.new.value }
    ensures closed { agent.old.value ≡ None → (reply.new ≡ reply.old) × (length.new ≡ length.old) }
{
    let Some(mut held) = agent.take(alloc) else {
        return CLOSED;
    };
    let status = served(alloc, &mut held, line, reply, length);
    agent.put(alloc, held);
    status
}

// The request of this line runs, if there is room for the reply.
fn served(
    alloc: Global,
    held: &mut HeldAgent,
    line: &[u8],
    reply: &mut [u8],
    length: &mut usize,
) -> u32
    ensures { IsServe line.now reply.old length.old reply.new length.new held.old result held.new }
{
    let request = match request_in(alloc, held.agent.setup(), line) {
        Ok(request) => request,
        Err(status) => return status,
    };
    let answer = held.agent.vector().reply(request.call.kind);
    let Ok(text) = reply_line(alloc, &request, answer) else {
        return OUT_OF_MEMORY;
    };
    if reply.len() < text.len() {
        *length = text.len();
        return SHORT;
    }
    match held.serve(&request) {
        Ok(_) => copy_text(&text, reply, length),
        Err(why) => status_of_refusal(why),
    }
}

// The line of the reply with this answer.
fn reply_line(alloc: Global, request: &Request, answer: Answer) -> Result<String, OutOfMemory>
    ensures { IfOk result (λ text. string_bytes text
        ≡ reply_text (record { caller = request.now.caller; number = request.now.number; answer = answer })) }
{
    let mut text = String::with_capacity(alloc, LINE_ROOM)?;
    let reply = Reply {
        caller: request.caller,
        number: request.number,
        answer,
    };
    push_reply(&mut text, reply)?;
    Ok(text)
}

// The request that the line spells.
fn request_in(alloc: Global, setup: &Setup, line: &[u8]) -> Result<Request, u32>
    ensures ok { IfOk result (IsRequestLine setup.now line.now) }
    ensures err { IfErr result (RefusesRequestLine setup.now line.now) }
{
    let Ok(line) = str::from_utf8(line) else {
        return Err(LINE_WORD);
    };
    match read_request(alloc, setup, line) {
        Ok(request) => Ok(request),
        Err(fault) => Err(status_of_request(fault)),
    }
}

/// The node's call returns with the reply of this line, and what the call brought is written: [`Agent::replied`].
#[unsafe(no_mangle)]
pub extern "C" fn bully_c_agent_replied(
    alloc: Global,
    agent: &mut AgentHandle,
    line: &[u8],
    answer: &mut u32,
) -> u32
    ensures open { AtOpen (IsReply line.now answer.old answer.new) agent.old.value result agent.new.value }
    ensures closed { agent.old.value ≡ None → answer.new ≡ answer.old }
{
    let Some(mut held) = agent.take(alloc) else {
        return CLOSED;
    };
    let status = match reply_in(held.agent.setup(), line) {
        Ok(reply) => answered(held.replied(reply), answer),
        Err(status) => status,
    };
    agent.put(alloc, held);
    status
}

// The reply that the line spells.
fn reply_in(setup: &Setup, line: &[u8]) -> Result<Reply, u32>
    ensures ok { IfOk result (λ reply. IsUtf8 line.now × (reply_of_text setup.now line.now ≡ Ok reply)) }
    ensures err { IfErr result (RefusesReplyLine setup.now line.now) }
{
    let Ok(line) = str::from_utf8(line) else {
        return Err(LINE_WORD);
    };
    match read_reply(setup, line) {
        Ok(reply) => Ok(reply),
        Err(fault) => Err(status_of_reply(fault)),
    }
}

/// The node's call of this number failed, and returns, and what the call brought is written: [`Agent::failed`].
#[unsafe(no_mangle)]
pub extern "C" fn bully_c_agent_failed(
    alloc: Global,
    agent: &mut AgentHandle,
    number: u32,
    answer: &mut u32,
) -> u32
    ensures open { AtOpen (IsFailure number answer.old answer.new) agent.old.value result agent.new.value }
    ensures closed { agent.old.value ≡ None → answer.new ≡ answer.old }
{
    let Some(mut held) = agent.take(alloc) else {
        return CLOSED;
    };
    let status = answered(held.failed(number), answer);
    agent.put(alloc, held);
    status
}
