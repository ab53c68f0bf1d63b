ghost use Rattle.std.specs.Prelude.{◌≡◌, ◌⊎◌, ℕ, IfOk, IfErr, IsOk, Ok, Err};
ghost use Rattle.bully_table.specs.declared.table.TableFault.{TableFault};
ghost use Rattle.bully_lines.specs.Texts.{IsRequestFault, reply_of_text, request_by_kind, request_of_text};

use crate::fault::{ReplyFault, RequestFault};
use crate::fields::{first_field, read_call_number, read_node};
use crate::words::{ASK, TELL, answer_named};
use bully_base::{Node, Setup};
use bully_calls::{Call, CallKind, Reply, Request};
use bully_rows::{call_named, call_word};
use bully_table::Table;
use std::alloc::Global;

/// Reads a line, without its end, as the request that it spells. Refused by its first fault from the left.
pub fn read_request(alloc: Global, setup: &Setup, line: &str) -> Result<Request, RequestFault>
    ensures ok { IfOk result (λ request. request_of_text setup.now line.now ≡ Ok request) }
    ensures err { IfErr result (IsRequestFault setup.now line.now) }
{
    let (word, rest) = first_field(line);
    if word != ASK {
        return Err(RequestFault::Word);
    }
    let (caller, rest) = first_field(rest);
    let Some(caller) = read_node(setup, caller) else {
        return Err(RequestFault::Caller);
    };
    let (number, rest) = first_field(rest);
    let Some(number) = read_call_number(setup, number) else {
        return Err(RequestFault::Number);
    };
    let (callee, rest) = first_field(rest);
    let Some(callee) = read_node(setup, callee) else {
        return Err(RequestFault::Callee);
    };
    let (call, table) = read_call(alloc, setup, callee, rest)?;
    Ok(Request {
        caller,
        number,
        call,
        table,
    })
}

// The call to this callee that the last fields spell, with the table of a Ready.
fn read_call(
    alloc: Global,
    setup: &Setup,
    callee: Node,
    text: &str,
) -> Result<(Call, Option<Table>), RequestFault>
    ensures ok { IfOk result (λ parts. (caller number : ℕ) → request_by_kind setup.now caller number callee text.now
        ≡ Ok (record { caller = caller; number = number; call = parts.0; table = parts.1 })) }
    ensures err { IfErr result (λ fault. (caller number : ℕ) → (request_by_kind setup.now caller number callee text.now
        ≡ Err fault) ⊎ ((fault ≡ RequestFault.Table TableFault.OutOfMemory)
        × IsOk (request_by_kind setup.now caller number callee text.now))) }
{
    let (word, owners) = first_field(text);
    if word == call_word(CallKind::Ready) {
        let kind = CallKind::Ready;
        return match Table::read_in(alloc, setup, owners.as_bytes()) {
            Ok(table) => Ok((Call { callee, kind }, Some(table))),
            Err(fault) => Err(RequestFault::Table(fault)),
        };
    }
    match call_named(text.as_bytes()) {
        Some(kind) => Ok((Call { callee, kind }, None)),
        None => Err(RequestFault::Kind),
    }
}

/// Reads a line, without its end, as the reply that it spells. Refused by its first fault from the left.
pub fn read_reply(setup: &Setup, line: &str) -> Result<Reply, ReplyFault>
    ensures { result ≡ reply_of_text setup.now line.now }
{
    let (word, rest) = first_field(line);
    if word != TELL {
        return Err(ReplyFault::Word);
    }
    let (caller, rest) = first_field(rest);
    let Some(caller) = read_node(setup, caller) else {
        return Err(ReplyFault::Caller);
    };
    let (number, rest) = first_field(rest);
    let Some(number) = read_call_number(setup, number) else {
        return Err(ReplyFault::Number);
    };
    let Some(answer) = answer_named(rest) else {
        return Err(ReplyFault::Answer);
    };
    Ok(Reply {
        caller,
        number,
        answer,
    })
}
