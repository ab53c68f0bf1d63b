ghost use Rattle.std.specs.Prelude.{◌≡◌, ◌⊎◌, not, IfOk, IsSome, IsTrue, Some, None, option_map, option_and_then};
ghost use Rattle.std.specs.Option.{option_copied};
ghost use Rattle.bully_calls.specs.Pending.{is_sent, is_failed, pending_call};
ghost use Rattle.bully_calls.specs.Slot.{phased, CarriesFor, holds_call, outcome_in, pending_in};
ghost use Rattle.bully_calls.specs.Slot.{is_orphan as orphan_in};

use crate::call::{Answer, Call, Outcome, PendingCall, Phase, Tag};
use bully_base::{OutOfMemory, Setup};
use bully_table::{Table, TableRoom};
use std::alloc::Global;
use std::marker::Model;

/// The call in a slot, but for its table.
#[derive(Clone, Copy, Debug)]
struct Content {
    tag: Tag,
    call: Call,
    phase: Phase,
}

/// The one call slot of a node, with room for the table of a Ready. The rule: docs/ALGORITHM.md.
#[derive(Drop, Debug)]
pub struct Slot {
    content: Option<Content>,
    carried: TableRoom,
}

impl Model for Slot {
    ghost use Rattle.std.specs.Option.{option_map};
    ghost use Rattle.bully_calls.specs.Slot.{Slot as SlotState, SlotCall};

    ghost Value = { SlotState };

    ghost view = { λ s. record {
      content =
          option_map (λ p. record { tag = p.tag; call = p.call; phase = p.phase; table = s.carried.table }) s.content;
      room = s.carried.size;
    } };
}

impl Slot {
    /// An empty slot with room for a table of the setup's partitions. Refused where an allocation fails.
    pub fn new(alloc: Global, setup: Setup) -> Result<Slot, OutOfMemory>
        ensures { IfOk result (λ s. s ≡ record { content = None; room = setup.partitions }) }
    {
        Ok(Slot {
            content: None,
            carried: TableRoom::new(alloc, &setup)?,
        })
    }

    /// Puts a call into the slot, as sent. Exactly a Ready carries a table.
    // (inlined, so that a call that was just made or asked for stays in registers)
    #[inline(always)]
    pub fn open(&mut self, tag: Tag, call: Call, table: Option<&Table>)
        requires empty { self.old.content ≡ None }
        requires carries { CarriesFor call (option_copied table) self.old.room }
        ensures { self.new ≡ record self.old {
          content = Some (record { tag = tag; call = call; phase = Phase.Sent; table = option_copied table.entry });
        } }
    {
        match table {
            Some(table) => self.carried.put(table),
            None => self.carried.clear(),
        }
        self.content = Some(Content {
            tag,
            call,
            phase: Phase::Sent,
        });
    }

    /// The call ran at its callee, which answered so.
    pub fn ran(&mut self, answer: Answer)
        requires sent { IsTrue (holds_call is_sent self.old) }
        requires replied { (answer ≡ Answer.Yes) ⊎ (answer ≡ Answer.No) }
        ensures { self.new ≡ record self.old { content = option_map (phased (Phase.Ran answer)) self.old.content } }
    {
        self.set_phase(Phase::Ran(answer));
    }

    /// The call failed. It may have run before, and its reply is lost.
    pub fn fail(&mut self)
        requires pending { IsTrue (holds_call (λ f. not (is_failed f)) self.old) }
        ensures { self.new ≡ record self.old { content = option_map (phased Phase.Failed) self.old.content } }
    {
        self.set_phase(Phase::Failed);
    }

    /// Takes out a call that ran or failed, and tells its outcome.
    // (inlined, so that a call that was just made or asked for stays in registers)
    #[inline(always)]
    pub fn take(&mut self) -> Outcome
        requires { IsSome (outcome_in self.old) }
        ensures outcome { outcome_in self.old ≡ Some result }
        ensures emptied { self.new ≡ record self.old { content = None } }
    {
        let outcome = match self.phase() {
            Some(Phase::Ran(Answer::Yes)) => Outcome::Yes,
            Some(Phase::Ran(Answer::No)) => Outcome::No,
            _ => Outcome::Failed,
        };
        self.clear();
        outcome
    }

    /// Empties the slot.
    pub fn clear(&mut self)
        ensures { self.new ≡ record self.old { content = None } }
    {
        self.content = None;
    }

    /// Whether the slot holds a call that was sent, and neither ran nor failed.
    pub fn is_sent(&self) -> bool
        ensures { result ≡ holds_call is_sent self.now }
    {
        matches!(self.phase(), Some(Phase::Sent))
    }

    /// Whether the slot holds a call of another generation of its caller than this one.
    pub fn is_orphan(&self, generation: u32) -> bool
        ensures { result ≡ orphan_in generation self.now }
    {
        match self.content {
            Some(content) => content.tag.generation != generation,
            None => false,
        }
    }

    /// The call without its table, as its caller of this generation has it.
    #[inline(always)]
    pub fn pending(&self, generation: u32) -> Option<PendingCall>
        ensures { result ≡ option_map pending_call (pending_in generation self.now) }
    {
        let content = self.content?;
        Some(PendingCall {
            call: content.call,
            phase: content.phase,
            is_live: content.tag.generation == generation,
        })
    }

    /// How far the call has come.
    pub fn phase(&self) -> Option<Phase>
        ensures { result ≡ option_map (λ p. p.phase) self.now.content }
    {
        self.content.map(|content| content.phase)
    }

    /// The call.
    pub fn call(&self) -> Option<Call>
        ensures { result ≡ option_map (λ p. p.call) self.now.content }
    {
        self.content.map(|content| content.call)
    }

    /// Who started the call, and when.
    pub fn tag(&self) -> Option<Tag>
        ensures { result ≡ option_map (λ p. p.tag) self.now.content }
    {
        self.content.map(|content| content.tag)
    }

    /// The table that the call carries.
    pub fn table(&self) -> Option<&Table>
        ensures { option_copied result ≡ option_and_then (λ p. p.table) self.now.content }
    {
        match self.content {
            Some(_) => self.carried.table(),
            None => None,
        }
    }

    // The call has this phase from now on.
    fn set_phase(&mut self, phase: Phase)
        ensures { self.new ≡ record self.old { content = option_map (phased phase) self.old.content } }
    {
        if let Some(content) = &mut self.content {
            content.phase = phase;
        }
    }
}
