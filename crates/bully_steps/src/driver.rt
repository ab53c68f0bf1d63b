ghost use Rattle.std.specs.Prelude.{◌≡◌, ◌<◌};
ghost use Rattle.bully_steps.specs.Driver.{chosen, chosen_every};
ghost use Rattle.bully_steps.specs.Procedure.{state_of};

use crate::{PointKind, Procedure};

/// How often an idle node checks: once in so many turns. The profile's period.
const PERIOD: u32 = 16;

/// What a node does on its own in a turn.
#[derive(Clone, Copy, PartialEq, Eq)]
pub enum Choice {
    /// Its procedure goes on, if it can.
    Proceed,
    /// It starts a check.
    Check,
    /// It has a timeout.
    Timeout,
}

/// Chooses what a node does on its own.
#[derive(Clone, Copy)]
pub struct Driver;

impl Driver {
    /// Chooses with the profile's period, 16: a check at turn 16, a timeout at turn 8. The rule: docs/ALGORITHM.md.
    pub fn choose(turn: u32, procedure: &Procedure) -> Choice
        ensures { result ≡ chosen turn (state_of procedure.now).point }
    {
        Driver::choose_every(PERIOD, turn, procedure)
    }

    /// At an idle procedure a check where the period divides the turn, and a timeout where the rest is half the period,
    /// rounded down; else its procedure goes on. Turns count from 1. The period is at least 1, and a configuration's
    /// is. The rule: docs/ALGORITHM.md.
    pub fn choose_every(period: u32, turn: u32, procedure: &Procedure) -> Choice
        requires { 0 < period }
        ensures { result ≡ chosen_every period turn (state_of procedure.now).point }
    {
        match procedure.kind() {
            PointKind::Idle if turn % period == 0 => Choice::Check,
            PointKind::Idle if turn % period == period / 2 => Choice::Timeout,
            _ => Choice::Proceed,
        }
    }
}
