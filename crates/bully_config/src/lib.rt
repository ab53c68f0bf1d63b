//! Configurations of a group: what a TOML document says of its setup, its turns, its period, its names and its
//! faults.
//!
//! It builds on bully_base, toml and indexmap. The crates above rely on two things: a configuration is within its
//! limits, and the answer to a document is its first refusal in the written order, or else its values.
#![tactic(auto)]

ghost use Rattle.std.specs.Prelude.{◌≡◌};
ghost use Rattle.bully_config.specs.declared.TheConstants.{FAULTS_MAX, PERIOD, PERIOD_MAX, PERIOD_MIN, TURNS_MAX};

mod config;
mod fault;
mod lookup;
mod reading;
mod refusal;

pub use config::{Config, Fault, FaultKind};
pub use fault::{ConfigFault, Key};
pub use lookup::{items_at, text_of, value_at};
pub use refusal::{first_refusal, key_in_fault, unlisted_key};

/// The most turns of a configuration. The profile's limit.
pub const TURNS_MAX: u32 = 1_000_000;

/// The period of a configuration that doesn't tell one: how often an idle node checks, in turns. The profile's.
pub const PERIOD: u32 = 16;

/// The least period of a configuration. The profile's limit.
pub const PERIOD_MIN: u32 = 2;

/// The greatest period of a configuration. The profile's limit.
pub const PERIOD_MAX: u32 = 65_536;

/// The most faults of a configuration. The profile's limit.
pub const FAULTS_MAX: usize = 10_000;

/// The limits in numbers. The definitions cite the constants, and so say as much as these numbers.
pub fn limits()
    ensures turns { TURNS_MAX ≡ 1000000 }
    ensures period { PERIOD ≡ 16 }
    ensures period_min { PERIOD_MIN ≡ 2 }
    ensures period_max { PERIOD_MAX ≡ 65536 }
    ensures faults { FAULTS_MAX ≡ 10000 }
{}
