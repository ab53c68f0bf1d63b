ghost use Rattle.std.specs.Prelude.{◌≡◌, ◌≤◌, [], length, replicate, All, Contains, IfOk, IfSome};
ghost use Rattle.bully_base.specs.NodeSet.{lowest_of};
ghost use Rattle.bully_calls.specs.Waiting.{callers_of, with_caller, without_caller};

use bully_base::{Node, NodeSet, OutOfMemory, Setup};
use std::alloc::Global;
use std::marker::Model;

/// For each callee the set of callers with a sent call to it. Contracts see the sets, from node 1 on.
#[derive(Drop, Debug)]
pub struct Waiting {
    callers: Vec<NodeSet>,
}

impl Model for Waiting {
    ghost use Rattle.std.specs.Prelude.{List, ℕ};

    ghost Value = { List (List ℕ) };

    ghost view = { λ w. w.callers.items };
}

impl Waiting {
    /// Nobody waits for any of the setup's nodes. Refused where an allocation fails.
    pub fn new(alloc: Global, setup: Setup) -> Result<Waiting, OutOfMemory>
        ensures { IfOk result (λ w. w ≡ replicate setup.nodes []) }
    {
        let callers = vec![in alloc; NodeSet::new(); usize::from(setup.nodes())]?;
        Ok(Waiting { callers })
    }

    /// The caller waits for the callee, which is at most the setup's last. Takes no memory.
    pub fn add(&mut self, callee: Node, caller: Node)
        requires { callee ≤ length self.old }
        ensures { self.new ≡ with_caller callee caller self.old }
    {
        self.callers[usize::from(callee.number() - 1)].insert(caller);
    }

    /// The caller doesn't wait for the callee any more, which is at most the setup's last. Takes no memory.
    pub fn remove(&mut self, callee: Node, caller: Node)
        requires { callee ≤ length self.old }
        ensures { self.new ≡ without_caller callee caller self.old }
    {
        self.callers[usize::from(callee.number() - 1)].remove(caller);
    }

    /// The lowest caller that waits for the callee, which is at most the setup's last. Takes no memory.
    pub fn lowest(&self, callee: Node) -> Option<Node>
        requires { callee ≤ length self.now }
        ensures lowest { result ≡ lowest_of (callers_of self.now callee) }
        ensures least { IfSome result (λ i. (Contains (callers_of self.now callee) i)
            × All (λ j. i ≤ j) (callers_of self.now callee)) }
    {
        self.callers[usize::from(callee.number() - 1)].lowest()
    }
}
