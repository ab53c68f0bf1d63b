//! Leases by clocks: as long as a lease is sure by its member's clock, the store keeps it.
//!
//! It builds on bully_run. What a run there assumes of leases, its law proves from clocks and from what the store does.
#![tactic(auto)]

ghost use Rattle.std.specs.Prelude.{◌≡◌, ◌<◌, ◌≤◌, ◌-◌, ◌*◌, ◌/◌, ℕ, Contains, List, None, Some, false, true};
ghost use Rattle.bully_base.specs.Setup.{Setup};
ghost use Rattle.bully_clock.specs.Timed.{Clocks, Grant, HasTimedRun, IsCounted, IsNoFaster, IsNoSlower, IsSteady};
ghost use Rattle.bully_clock.specs.Timed.{KeepsUp, NeverBack, Timed, TimedBy, TimedRun, WorksInTime, first_timed};
ghost use Rattle.bully_clock.specs.Timed.{untimed};
ghost use Rattle.bully_member.specs.Keeping.{HasSession};
ghost use Rattle.bully_member.specs.Times.{sure};
ghost use Rattle.bully_member.specs.declared.values.SessionId.{SessionId};
ghost use Rattle.bully_member.specs.declared.values.SessionState.{SessionState};
ghost use Rattle.bully_run.specs.Calls.{session_now};
ghost use Rattle.bully_run.specs.Run.{BeginsWhileSure, HasRun, Process, WorksNow, id_of};
ghost use Rattle.bully_work.specs.Store.{IsLive, IsOneToOne, Piece};

/// The law of leases. A *timed run* is a run in which each happening has its moment of true time. Each process has a
/// clock, and the store ends leases by one or more clocks. About leases nothing is assumed, but about these clocks
/// (`IsSteady`), that the store ends none sooner than a ttl by its clock after the last renewal, unless it is released
/// or its process has ended (`EndsNoSooner`, `HasNoWork`), that an answer is true by which a lease counts
/// (`IsTrueAnswer`), and that a snapshot shows no session of a member's process that this never asked for
/// (`ShowsAsked`).
///
/// - `runs`: without its times a timed run is a run. So all laws of bully_run hold of it, and of what follows from it.
/// - `counts`: if a member has its lease, that counts from no later than the store did the acquire or the last renewal.
/// - `stays`: from then on it counts from that, whatever its member is told later.
/// - `lasts`: as long as the lease is sure by its member's clock, the store keeps it, unless the member ends.
/// - `works`: as long as a process stops its work no more than `late` after its lease was sure, it has its lease while
///   it works. Its clock must keep up with those of the store with `late` to spare.
/// - `apart`: no two such processes work on one partition at one moment.
/// - `rates`: a process's clock keeps up if of any span it counts no more than a ninth too little, and those of the
///   store no more than a ninth too much.
/// - `spare`: with a twentieth in place of a ninth it does so with a tenth of the ttl to spare.
/// - `one_clock`: if the store ends leases by the process's own clock, as in a file, it does so with the whole margin
///   to spare, a fifth of the ttl.
/// - `some`: there are such runs, with clocks of different rates. In one a lease is sure, and the store keeps it, at a
///   moment at which a ttl is over by the store's clock since one of its grants: it was renewed after that.
/// - `ends`: in one the store ends a lease that its member, which hasn't ended, still takes for its own.
/// - `tight`: four fifths are needed: if a process's clock counts only seven tenths of a ttl meanwhile, the store may
///   have ended a lease that is sure.
pub fn leases_last()
    ensures runs { (C : Clocks) (timed : List Timed) (T : TimedRun) → HasTimedRun C timed T
        → HasRun (untimed timed) T.run }
    ensures counts { (C : Clocks) (timed : List Timed) (T : TimedRun) (p : ℕ) (q : Process) (session : SessionId)
        (since : ℕ)
        → HasTimedRun C timed T → T.run.processes p ≡ Some q → q.member.session ≡ SessionState.Live session since
        → (session ≡ session_now q.member) × IsCounted C T p q.name session since }
    ensures stays { (C : Clocks) (timed : List Timed) (T T' : TimedRun) (p i : ℕ) (session : SessionId) (since : ℕ)
        → TimedBy C T timed T' → IsCounted C T p i session since → IsCounted C T' p i session since }
    ensures lasts { (C : Clocks) (timed : List Timed) (T : TimedRun) (p t : ℕ) (q : Process)
        → HasTimedRun C timed T → T.run.processes p ≡ Some q → T.now ≤ t → T.gone p ≡ false
        → q.member.ending ≡ None → BeginsWhileSure T.run.store q.name q.member (C.own p t) }
    ensures works { (C : Clocks) (timed : List Timed) (T : TimedRun) (p late t : ℕ) (x : Piece)
        → HasTimedRun C timed T → T.now ≤ t → IsSteady C p late → WorksInTime C T p late t x
        → WorksNow T.run p x }
    ensures apart { (C : Clocks) (timed : List Timed) (T : TimedRun) (p q early late t : ℕ) (x y : Piece)
        → HasTimedRun C timed T → T.now ≤ t → IsSteady C p early → IsSteady C q late
        → WorksInTime C T p early t x → WorksInTime C T q late t y → x.partition ≡ y.partition → p ≡ q }
    ensures rates { (C : Clocks) (p : ℕ) → ((o : ℕ) → IsNoFaster 9 (C.ender o)) → IsNoSlower 9 (C.own p)
        → KeepsUp C p 0 }
    ensures spare { (C : Clocks) (p : ℕ) → ((o : ℕ) → IsNoFaster 20 (C.ender o)) → IsNoSlower 20 (C.own p)
        → KeepsUp C p (C.ttl p / 10) }
    ensures one_clock { (C : Clocks) (p : ℕ) → ((o t : ℕ) → C.ender o t ≡ C.own p t) → KeepsUp C p (C.ttl p / 5) }
    ensures some { (C : Clocks) × (timed : List Timed) × (T : TimedRun) × (q : Process) × (t : ℕ) × (g : Grant)
        × HasTimedRun C timed T × (T.run.processes 0 ≡ Some q) × (T.now ≤ t)
        × (C.own 0 0 ≡ C.ender 0 0) × (C.own 0 t < C.ender 0 t)
        × Contains T.grants g × (g.name ≡ q.name) × (g.session ≡ id_of (session_now q.member))
        × (C.ttl 0 ≤ C.ender 0 t - C.ender 0 g.at)
        × (sure q.member.session q.member.ttl (C.own 0 t) ≡ true)
        × IsLive T.run.store q.name (id_of (session_now q.member)) }
    ensures ends { (C : Clocks) × (timed : List Timed) × (T : TimedRun) × (q : Process) × HasTimedRun C timed T
        × (T.run.processes 0 ≡ Some q) × (T.gone 0 ≡ false) × HasSession q.member (session_now q.member)
        × (T.run.store.live q.name ≡ None) }
    ensures tight { (C : Clocks) × (setup : Setup) × (number : ℕ → ℕ) × (timed : List Timed) × (T : TimedRun)
        × (q : Process) × IsOneToOne number × TimedBy C (first_timed setup number) timed T
        × (T.run.processes 0 ≡ Some q) × NeverBack (C.own 0)
        × ((o s t : ℕ) → s ≤ t → C.ttl 0 ≤ C.ender o t - C.ender o s → 7 * C.ttl 0 ≤ 10 * (C.own 0 t - C.own 0 s))
        × (T.gone 0 ≡ false) × (q.member.ending ≡ None)
        × (sure q.member.session q.member.ttl (C.own 0 T.now) ≡ true) × (T.run.store.live q.name ≡ None) }
{}
