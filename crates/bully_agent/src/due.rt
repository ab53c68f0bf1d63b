//! Whether a call that was sent can be answered so.
ghost use Rattle.std.specs.Prelude.{◌≡◌, ◌↔◌, IsTrue};
ghost use Rattle.bully_calls.specs.declared.call.Phase.{Phase};
ghost use Rattle.bully_world.specs.NodeInvariant.{SuitsPhase};
ghost use Rattle.bully_agent.specs.Calls.{CanReturn};

use bully_calls::{Answer, CallKind, Slot};

/// Whether the slot holds a call that was sent and can be answered so.
pub fn can_return(slot: &Slot, answer: Answer) -> bool
    ensures { IsTrue result ↔ CanReturn slot.now answer }
{
    match slot.call() {
        Some(call) => slot.is_sent() && can_answer(call.kind, answer),
        None => false,
    }
}

// Whether such a call is answered so: by Yes, and AreYouNormal by No, too.
fn can_answer(kind: CallKind, answer: Answer) -> bool
    ensures { IsTrue result ↔ SuitsPhase kind (Phase.Ran answer) }
{
    match answer {
        Answer::Yes => true,
        Answer::No => kind == CallKind::AreYouNormal,
        Answer::Done | Answer::Failed | Answer::Discarded => false,
    }
}
