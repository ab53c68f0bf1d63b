ghost use Rattle.std.specs.Prelude.{◌≡◌};

use super::hand::Hand;
use super::player::Player;
use bully_base::{Limits, Node, Setup};
use bully_group::{Group, Naming, Pass, Seat};
use std::alloc::Global;
use std::sync::Wait;

/// How often the last node crashes: once in so many rounds.
const PERIOD: u32 = 1024;

/// All that take turns in a group, one after the other: a player for each node in rising order, and the operator.
#[derive(Drop)]
pub struct Team<L: Naming> {
    limits: Limits,
    pub players: Vec<Player<L>>,
    pub operator: Hand<L>,
}

impl<L: Naming> Team<L> {
    /// All of a new group, with its seats and passes.
    pub fn new(
        alloc: Global,
        setup: &Setup,
        mut seats: Vec<Seat>,
        mut passes: Vec<Pass<L>>,
    ) -> Option<Team<L>>
        requires { setup.now ≡ L.setup }
    {
        let mut players = Vec::new(alloc);
        let operator = split(alloc, setup, &mut seats, &mut passes, &mut players)?;
        Some(Team {
            limits: *setup.limits(),
            players,
            operator,
        })
    }

    /// How many turns of nodes there are in so many rounds, from 0 to the largest number.
    pub fn turns_in(&self, rounds: u16) -> u32 {
        u32::from(rounds).saturating_mul(u32::from(self.limits.nodes()))
    }

    /// So many turns of nodes, from the first one on. Whether they could be taken.
    pub fn take_turns<R: Wait>(&mut self, rt: &R, group: &Group<L>, count: u32) -> bool {
        for turn in 0..count {
            if !self.turn(rt, group, turn) {
                return false;
            }
        }
        true
    }

    /// The turn of this number, from 0 on. The operator comes before node 1. Whether it could be taken.
    // (inlined, as the plain turn is into its loop)
    #[inline(always)]
    pub fn turn<R: Wait>(&mut self, rt: &R, group: &Group<L>, turn: u32) -> bool {
        let nodes = u32::from(self.limits.nodes());
        let round = (turn / nodes).saturating_add(1);
        if turn % nodes == 0 && !self.operate(rt, group, round) {
            return false;
        }
        match self.players.get_mut((turn % nodes) as usize) {
            Some(player) => player.turn(rt, group, round),
            None => false,
        }
    }

    // The operator's turn: all recover in the first round; the last node crashes once in a period, and recovers half
    // way between.
    fn operate<R: Wait>(&mut self, rt: &R, group: &Group<L>, round: u32) -> bool {
        if round == 1 {
            return self.recover_all(rt, group);
        }
        if round % (PERIOD / 2) != 0 {
            return true;
        }
        let crashes = round % PERIOD == 0;
        self.operator
            .operate(rt, group, self.limits.nodes(), crashes)
    }

    fn recover_all<R: Wait>(&mut self, rt: &R, group: &Group<L>) -> bool {
        for number in 1..=self.limits.nodes() {
            if !self.operator.operate(rt, group, number, false) {
                return false;
            }
        }
        true
    }
}

// The players of the group's nodes in rising order, and the operator's hand, which is left.
fn split<L: Naming>(
    alloc: Global,
    setup: &Setup,
    seats: &mut Vec<Seat>,
    passes: &mut Vec<Pass<L>>,
    players: &mut Vec<Player<L>>,
) -> Option<Hand<L>>
    requires { setup.now ≡ L.setup }
{
    for before in 0..setup.nodes() {
        let node = Node::new(setup.nodes() - before)?;
        let hand = Hand::pop(seats, passes)?;
        let player = Player::new(alloc, setup, node, hand);
        players.push(player).ok()?;
    }
    players.reverse();
    Hand::pop(seats, passes)
}
