//! What the threads of a run wait for.

use bully_nodes::Gate;
use std::sync::atomic::{AtomicBool, AtomicU64, Ordering};
use std::thread;

/// How often a flag is polled, at most.
const POLLS: u32 = 2_000_000_000;

/// How often a thread asks whether its turn has come, at most.
const ASKS: u32 = 20_000_000;

/// The operator and three nodes.
const ACTORS: u64 = 4;

/// What is waited for.
#[derive(Clone, Copy)]
pub enum Rule {
    /// Nothing.
    Open,
    /// Nodes 1 and 2 wait for each other before their first turns.
    Meeting,
    /// Node 1 waits before its first turn until the operator has taken its own, after which the operator waits until
    /// node 1 has taken all of its six.
    OperatorFirst,
    /// The operator and three nodes wait for the turn before their own: in each turn the operator goes first, and then
    /// the nodes in rising order.
    InRounds,
}

/// A gate that keeps the rule. Two flags stand for what is waited for.
#[derive(Drop)]
pub struct Keeper {
    rule: Rule,
    first: AtomicBool,
    second: AtomicBool,
    /// The turns that are over, and a round more.
    over: AtomicU64,
    missed: AtomicBool,
}

impl Keeper {
    pub fn new(rule: Rule) -> Keeper {
        Keeper {
            rule,
            first: AtomicBool::new(false),
            second: AtomicBool::new(false),
            over: AtomicU64::new(ACTORS),
            missed: AtomicBool::new(false),
        }
    }

    /// Whether nobody waited in vain, and each flag that is waited for was set.
    pub fn is_kept(&self) -> bool {
        let both = self.first.load(Ordering::SeqCst) && self.second.load(Ordering::SeqCst);
        let missed = self.missed.load(Ordering::SeqCst);
        match self.rule {
            Rule::Meeting | Rule::OperatorFirst => both && !missed,
            Rule::Open | Rule::InRounds => !missed,
        }
    }

    fn wait_for(&self, flag: &AtomicBool) {
        if !is_seen(flag) {
            self.missed.store(true, Ordering::SeqCst);
        }
    }

    // Before the first turn of this actor.
    fn meet(&self, actor: u16) {
        match actor {
            1 => {
                self.first.store(true, Ordering::SeqCst);
                self.wait_for(&self.second);
            }
            2 => {
                self.second.store(true, Ordering::SeqCst);
                self.wait_for(&self.first);
            }
            _ => {}
        }
    }

    // After a turn, where the operator goes first.
    fn pass_on(&self, actor: u16, turn: u32) {
        match (actor, turn) {
            (0, 1) => {
                self.first.store(true, Ordering::SeqCst);
                self.wait_for(&self.second);
            }
            (1, 6) => self.second.store(true, Ordering::SeqCst),
            _ => {}
        }
    }

    fn wait_in_round(&self, actor: u16, turn: u32) {
        let due = u64::from(turn) * ACTORS + u64::from(actor);
        for _ in 0..ASKS {
            if self.missed.load(Ordering::SeqCst) || self.over.load(Ordering::SeqCst) == due {
                return;
            }
            thread::yield_now();
        }
        self.missed.store(true, Ordering::SeqCst);
    }
}

impl Gate for Keeper {
    fn before(&self, actor: u16, turn: u32) {
        match (self.rule, actor, turn) {
            (Rule::Meeting, _, 1) => self.meet(actor),
            (Rule::OperatorFirst, 1, 1) => self.wait_for(&self.first),
            (Rule::InRounds, _, _) => self.wait_in_round(actor, turn),
            _ => {}
        }
    }

    fn after(&self, actor: u16, turn: u32) {
        match self.rule {
            Rule::OperatorFirst => self.pass_on(actor, turn),
            Rule::InRounds => {
                self.over.fetch_add(1, Ordering::SeqCst);
            }
            _ => {}
        }
    }
}

// Whether the flag is set before so many polls are over.
fn is_seen(flag: &AtomicBool) -> bool {
    for _ in 0..POLLS {
        if flag.load(Ordering::SeqCst) {
            return true;
        }
    }
    false
}
