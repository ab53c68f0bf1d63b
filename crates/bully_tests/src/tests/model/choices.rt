//! A driver's choices.

ghost use Rattle.std.specs.Prelude.{◌≤◌};

use super::{node, setup};
use bully_base::{Node, Setup};
use bully_steps::{Choice, Driver, Procedure, Want};

/// A period, or none for the profile's, a turn, and the choice in it.
const CHOICES: [(Option<u32>, u32, Choice); 16] = [
    (None, 1, Choice::Proceed),
    (None, 8, Choice::Timeout),
    (None, 15, Choice::Proceed),
    (None, 16, Choice::Check),
    (None, 24, Choice::Timeout),
    (None, 32, Choice::Check),
    (Some(2), 1, Choice::Timeout),
    (Some(2), 2, Choice::Check),
    (Some(5), 2, Choice::Timeout),
    (Some(5), 3, Choice::Proceed),
    (Some(5), 10, Choice::Check),
    (Some(16), 8, Choice::Timeout),
    (Some(256), 16, Choice::Proceed),
    (Some(256), 128, Choice::Timeout),
    (Some(256), 512, Choice::Check),
    (Some(65_536), 65_536, Choice::Check),
];

// Whether this is chosen at a procedure.
fn chooses(period: Option<u32>, turn: u32, procedure: &Procedure, choice: Choice) -> bool {
    match period {
        Some(period) => 0 < period && Driver::choose_every(period, turn, procedure) == choice,
        None => Driver::choose(turn, procedure) == choice,
    }
}

// Whether each choice is made at the procedure.
fn all_chosen(procedure: &Procedure) -> bool {
    for (period, turn, choice) in CHOICES.iter() {
        if !chooses(*period, *turn, procedure, *choice) {
            return false;
        }
    }
    true
}

// The same at that of an idle node, which wants nothing.
fn idle_chooses(group: Setup, node: Node) -> bool
    requires { node ≤ group.nodes }
{
    let idle = Procedure::idle(group, node, 0);
    idle.want() == Want::Nothing && all_chosen(&idle)
}

#[test]
fn choices_of_an_idle_node(rt: HostRuntime) {
    let (group, one) = (setup(&rt, 1, 1, 1), node(&rt, 1));
    assert!(rt; one.number() <= group.nodes() && idle_chooses(group, one));
}
