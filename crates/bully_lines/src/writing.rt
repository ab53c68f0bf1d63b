ghost use Rattle.std.specs.Prelude.{◌≡◌, ◌++◌, OnOk, string_bytes};
ghost use Rattle.bully_lines.specs.Texts.{reply_text, request_text};

use crate::words::{ASK, TELL};
use bully_base::OutOfMemory;
use bully_calls::{Reply, Request};
use bully_rows::{answer_word, call_word};
use bully_table::push_owners;

/// Appends the line of the request, without its end. Refused where an allocation fails.
pub fn push_request(text: &mut String, request: &Request) -> Result<(), OutOfMemory>
    ensures { OnOk result (string_bytes text.new ≡ string_bytes text.old ++ request_text request.now) }
{
    let caller = request.caller.number();
    let number = request.number;
    let callee = request.call.callee.number();
    let word = call_word(request.call.kind);
    write!(text, "{ASK},{caller},{number},{callee},{word}")?;
    match &request.table {
        Some(table) => {
            text.push(',')?;
            push_owners(text, table, ' ')
        }
        None => Ok(()),
    }
}

/// Appends the line of the reply, without its end. Refused where an allocation fails.
pub fn push_reply(text: &mut String, reply: Reply) -> Result<(), OutOfMemory>
    ensures { OnOk result (string_bytes text.new ≡ string_bytes text.old ++ reply_text reply) }
{
    let caller = reply.caller.number();
    let number = reply.number;
    let word = answer_word(reply.answer);
    write!(text, "{TELL},{caller},{number},{word}")
}
