//! Durations that depend on the ttl, in whole nanoseconds, rounded down.
ghost use Rattle.std.specs.Prelude.{◌≡◌, ◌≤◌};
ghost use Rattle.bully_base.specs.declared.TheConstants.{NODES_MAX};
ghost use Rattle.bully_member.specs.Times.{awaiting_backoff, first_stay, left, longer_stay, pause_left, paused_backoff};
ghost use Rattle.bully_member.specs.Times.{remembered_for, renewal_left, stopping_backoff, sure, sure_for, sure_left};
ghost use Rattle.bully_member.specs.Times.{turn_left};
ghost use Rattle.bully_member.specs.declared.opening.TheConstants.{TTL_MAX};

use crate::values::SessionState;

/// How much is left now of a time of this length that started at `begun`.
pub fn left(now: u64, length: u64, begun: u64) -> u64
    ensures { result ≡ left now length begun }
{
    length.saturating_sub(now.saturating_sub(begun))
}

// For how long a lease is sure after its last renewal was asked for: the ttl less the margin.
fn sure_for(ttl: u64) -> u64
    ensures { result ≡ sure_for ttl }
{
    ttl - ttl / 5
}

/// Whether the lease is sure now.
pub fn sure(session: SessionState, ttl: u64, now: u64) -> bool
    ensures { result ≡ sure session ttl now }
{
    match session {
        SessionState::Live(_, since) => now.saturating_sub(since) < sure_for(ttl),
        SessionState::Absent | SessionState::Unknown(_) => false,
    }
}

/// For how long the lease is still sure.
pub fn sure_left(session: SessionState, ttl: u64, now: u64) -> u64
    ensures { result ≡ sure_left session ttl now }
{
    match session {
        SessionState::Live(_, since) => left(now, sure_for(ttl), since),
        SessionState::Absent | SessionState::Unknown(_) => 0,
    }
}

/// How long until the lease must be renewed: a quarter of the ttl after its last renewal was asked for.
pub fn renewal_left(session: SessionState, ttl: u64, now: u64) -> u64
    ensures { result ≡ renewal_left session ttl now }
{
    match session {
        SessionState::Live(_, since) => left(now, ttl / 4, since),
        SessionState::Absent | SessionState::Unknown(_) => ttl,
    }
}

/// How long until the member asks again after a request that wasn't answered: a twentieth of the ttl.
pub fn pause_left(paused: Option<u64>, ttl: u64, now: u64) -> u64
    ensures { result ≡ pause_left paused ttl now }
{
    match paused {
        Some(paused) => left(now, ttl / 20, paused),
        None => 0,
    }
}

/// How long until it is the turn of a node with this many higher live nodes: a fifth of the ttl for each, after the
/// last change.
pub fn turn_left(above: u16, ttl: u64, now: u64, last_change: u64) -> u64
    requires above { above ≤ NODES_MAX }
    requires ttl { ttl ≤ TTL_MAX }
    ensures { result ≡ turn_left above ttl now last_change }
{
    left(now, ttl / 5 * u64::from(above), last_change)
}

/// How long it backs off while some work stops: until both the next renewal is due and a pause is over; while it works
/// elsewhere, no longer than its lease is sure.
pub fn stopping_backoff(
    is_working: bool,
    session: SessionState,
    ttl: u64,
    now: u64,
    paused: Option<u64>,
) -> u64
    ensures { result ≡ stopping_backoff is_working session ttl now paused }
{
    let backoff = renewal_left(session, ttl, now).max(pause_left(paused, ttl, now));
    if is_working {
        backoff.min(sure_left(session, ttl, now))
    } else {
        backoff
    }
}

/// How long it backs off while a request isn't answered yet: a ttl; while it works, as long as its lease is sure.
pub fn awaiting_backoff(is_working: bool, session: SessionState, ttl: u64, now: u64) -> u64
    ensures { result ≡ awaiting_backoff is_working session ttl now }
{
    if is_working {
        sure_left(session, ttl, now)
    } else {
        ttl
    }
}

/// How long it backs off after a request that wasn't answered: until the pause is over; while it works, no longer than
/// its lease is sure.
pub fn paused_backoff(
    is_working: bool,
    session: SessionState,
    ttl: u64,
    now: u64,
    paused: Option<u64>,
) -> u64
    ensures { result ≡ paused_backoff is_working session ttl now paused }
{
    let pause = pause_left(paused, ttl, now);
    if is_working {
        pause.min(sure_left(session, ttl, now))
    } else {
        pause
    }
}

/// For how long a new session whose node is Down in the log must stay until it is admitted: a hundredth of the ttl.
pub fn first_stay(ttl: u64) -> u64
    ensures { result ≡ first_stay ttl }
{
    ttl / 100
}

/// The same, if another session was seen for its node not long before: four times the stay of that one, up to ten ttl.
pub fn longer_stay(stay: u64, ttl: u64) -> u64
    requires { ttl ≤ TTL_MAX }
    ensures { result ≡ longer_stay stay ttl }
{
    stay.min(ttl * 5 / 2) * 4
}

/// For how long a session is remembered after it was first seen: 60 ttl.
pub fn remembered_for(ttl: u64) -> u64
    requires { ttl ≤ TTL_MAX }
    ensures { result ≡ remembered_for ttl }
{
    ttl * 60
}
