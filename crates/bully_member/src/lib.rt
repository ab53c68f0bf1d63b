//! The rules of a member, a process that acts for one node of a group over a shared log, as a value.
//!
//! It builds on bully_rebalance. A member has no clock, no store and no random numbers of its own: it gives the next
//! step, and the program that drives it does that and reports the result to the member. Such a program may rely on
//! this: when the member starts to work, promises, acquires its lease or appends, that is an act of the law
//! `workers_apart` of bully_work, and keeps its rules (`asks_by_the_rules`).
#![tactic(auto)]

ghost use Rattle.std.specs.Prelude.{◌≡◌, [], ℕ, Bool, Contains, List, Option, Some, false, map, true};
ghost use Rattle.std.specs.List.{list_any};
ghost use Rattle.bully_calls.specs.declared.event.Event.{Event};
ghost use Rattle.bully_member.specs.Activities.{works_at};
ghost use Rattle.bully_member.specs.Admitting.{staying_among};
ghost use Rattle.bully_member.specs.Asking.{ActsBy, MayBeSilent, Names, promise_of};
ghost use Rattle.bully_member.specs.Due.{Sees, due, noted};
ghost use Rattle.bully_member.specs.Keeping.{AcquiresAt, AppendsAt, BeginsBy, PromisesAt, RollsOverAt};
ghost use Rattle.bully_member.specs.Member.{MemberState, admitted_among, heeds_promises, is_kept_out, is_under_way};
ghost use Rattle.bully_member.specs.Member.{replica_of};
ghost use Rattle.bully_member.specs.Rebalance.{rebalanced_nodes};
ghost use Rattle.bully_member.specs.Roles.{needs_promises, unpromised, without_promises};
ghost use Rattle.bully_member.specs.Stopping.{GoesOnWorking, IsTaken, StopsFor};
ghost use Rattle.bully_member.specs.declared.values.Lease.{Lease as LeaseState};
ghost use Rattle.bully_member.specs.declared.values.Sight.{Sight as SightState};
ghost use Rattle.bully_replica.specs.Replica.{IsLogOf};
ghost use Rattle.bully_rebalance.specs.Acting.{IsPiece};
ghost use Rattle.bully_rebalance.specs.Owning.{owned_by};
ghost use Rattle.bully_rebalance.specs.Rebalancing.{Rebalances, table_before};
ghost use Rattle.bully_rebalance.specs.declared.holding.Owned.{Owned as OwnedState};
ghost use Rattle.bully_work.specs.Store.{AcceptsAppend, AcceptsRollOver, IsLive, IsOneToOne, Lease as Held, MayAcquire};
ghost use Rattle.bully_work.specs.Store.{MayAppend, MayBegin, MayPromise, MayRollOver, MayYield, NoneSilent, Piece};
ghost use Rattle.bully_work.specs.Store.{Store, current};
ghost use Rattle.bully_work.specs.Store.{nothing_in, promises};

mod activities;
mod member;
mod opening;
mod times;
mod values;

pub use member::Member;
pub use opening::{MemberFault, REBALANCE_MAX, TTL_MAX, TTL_MIN, Terms};
pub use values::{
    Activity, Arrival, Asked, Ending, LastChange, Lease, Promise, Reason, Request, SessionId,
    SessionState, Step, StoreAnswer, Until, Work,
};

/// The law of what a member asks of a store, which `Member::next` keeps (`Keeps`). When the member starts to work, its
/// session may start on each partition that the node owns, by the law `workers_apart` of bully_work: its node is an
/// owner by exactly what it has learned, by a plan after all that it has promised. That the session is live then is a
/// premise, about time (`sure`). When the member promises, its session may promise that, keeping what it works on, and
/// may report that to the store. When the member acquires its lease, a session that works on nothing may promise that
/// offset, and then acquire the lease. When the member appends, the events of `Member::rebalance` may be appended if
/// the store accepts an append whose writer names what the member knows (`Names`): as silent only names whose node the
/// change doesn't affect, none in an eager group, and none if it ends; as seen only its own lease, with its last
/// promise that was done, and others as its last snapshot found them. On the same premise it may roll the epoch over.
/// All but the acquire has the premise that the member knows its session (`ActsBy`); `acts_by_the_rules` of
/// bully_rebalance says how that stays so. In an eager group a promise keeps nothing, and no name is called silent, as
/// the law `eager_apart` of bully_work needs it.
pub fn asks_by_the_rules()
    ensures begin { (m : MemberState) (s : Store) (i n now token k : ℕ) (o : OwnedState)
        → ActsBy m s i n → IsLive s i n → BeginsBy m now token
        → owned_by (replica_of m) m.terms.node m.promised ≡ Some o → Contains o.partitions k
        → (x : Piece) × IsPiece x m.terms.epoch token k × MayBegin s i n x }
    ensures promise { (m : MemberState) (s : Store) (i n offset : ℕ) → ActsBy m s i n → PromisesAt m offset
        → MayPromise s i n (promise_of m offset)
        × MayYield (promises s i n (promise_of m offset)) i n (promise_of m offset) }
    ensures eager { (m : MemberState) (offset : ℕ) → m.terms.is_cooperative ≡ false → PromisesAt m offset
        → promise_of m offset ≡ nothing_in m.terms.epoch offset }
    ensures asks { (m : MemberState) (s : Store) (silent : ℕ → Bool) (seen : ℕ → Option Held)
        → m.terms.is_cooperative ≡ false → Names m s silent seen → NoneSilent silent }
    ensures acquire { (m : MemberState) (s : Store) (i n offset : ℕ) → AcquiresAt m offset → (s.sessions i n).work ≡ []
        → MayPromise s i n (nothing_in m.terms.epoch offset)
        × MayAcquire (promises s i n (nothing_in m.terms.epoch offset)) i n m.terms.epoch offset }
    ensures append { (m : MemberState) (s : Store) (i n offset : ℕ) (silent : ℕ → Bool) (seen : ℕ → Option Held)
        (events : List Event)
        → ActsBy m s i n → AcceptsAppend s m.terms.epoch offset silent seen → AppendsAt m offset
        → Names m s silent seen
        → ((log : List Event) → IsLogOf (replica_of m) log
        → Rebalances (replica_of m).world.setup log (table_before (replica_of m).last m.terms.old) (rebalanced_nodes m)
        events)
        → MayAppend s m.terms.epoch offset silent seen events }
    ensures rolls { (m : MemberState) (s : Store) (i n offset : ℕ) (silent : ℕ → Bool) (next : ℕ → ℕ)
        → ActsBy m s i n → AcceptsRollOver s m.terms.epoch offset silent → RollsOverAt m offset
        → ((j : ℕ) → silent j ≡ true → MayBeSilent m m.terms.is_cooperative m.ending ((current s).number j))
        → IsOneToOne next → MayRollOver s silent next }
{}

/// What a snapshot must show, by role. A member of a cooperative group that isn't about to change the log sees and does
/// the same whether or not it knows what others have promised. That is so if [`Member::needs_promises`] returns false
/// (`answers`): a higher node is live, and the group is stable for the member, or its turn hasn't come. Without those
/// promises that returns false, too. So the member needs rows, leases, requests and its own promise alone. It also
/// admits the same (`admits`), if a snapshot shows it nobody whom it admits only while a change is under way.
pub fn needs_no_promises()
    ensures sees { (m : MemberState) (now : ℕ) (s : SightState) → heeds_promises m ≡ false → Sees m now s
        → Sees (without_promises m) now s }
    ensures due { (m : MemberState) (now : ℕ) (s : SightState) → needs_promises m now s.is_stable ≡ false
        → due (without_promises m) now s ≡ due m now s }
    ensures answers { (m : MemberState) (now : ℕ) (s : SightState) → Sees m now s
        → needs_promises m now s.is_stable ≡ false
        → Sees (without_promises m) now s × (due (without_promises m) now s ≡ due m now s)
        × (needs_promises (without_promises m) now s.is_stable ≡ false) }
    ensures admits { (m : MemberState) (now : ℕ) (leases : List LeaseState)
        → list_any (is_kept_out m now) leases ≡ false
        → admitted_among m now (map (unpromised m.terms.node) leases) ≡ admitted_among m now leases }
{}

/// Whom members admit while a change is under way, since a node that is up in the log has promised its end: everybody
/// who doesn't leave (`admitted`). So members that found the same leases admit the same nodes then, whatever each
/// remembers of those that came before (`alike`).
pub fn admits_alike()
    ensures admitted { (m : MemberState) (now : ℕ) (leases : List LeaseState) → is_under_way m leases ≡ true
        → admitted_among m now leases ≡ staying_among leases }
    ensures alike { (m n : MemberState) (now then : ℕ) (leases : List LeaseState) → is_under_way m leases ≡ true
        → is_under_way n leases ≡ true → admitted_among m now leases ≡ admitted_among n then leases }
{}

/// What a member stops. A step stops its work on a partition for a reason alone (`StopsFor`): it may go on with
/// nothing, or the table by which it goes on doesn't leave its node that partition. If the group is cooperative, and
/// the epoch and the member go on (`GoesOnWorking`), a step stops nothing but what a change takes from its node: in a
/// stable group the last plan, otherwise the rebalance that would be appended now (`IsTaken`). That the member's last
/// snapshot is of the log's end is a premise about the store.
pub fn stops_no_more()
    ensures reason { (m : MemberState) (now k : ℕ) (s : SightState) → Sees m now s → works_at m.works k ≡ true
        → works_at (noted m now s.is_stable (due m now s)).works k ≡ false → StopsFor m now s.is_stable k }
    ensures moves { (m : MemberState) (now k : ℕ) (s : SightState) → Sees m now s → GoesOnWorking m now
        → works_at m.works k ≡ true → works_at (noted m now s.is_stable (due m now s)).works k ≡ false
        → IsTaken m s.is_stable k }
{}
