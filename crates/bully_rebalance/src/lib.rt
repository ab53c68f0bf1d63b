//! What a node owns, whether a group is stable, and which events make it stable, by what a process's replica of a
//! shared log has learned.
//!
//! It builds on bully_replica and bully_work. A program that drives a member relies on two facts: the member's node is
//! an owner wherever its process may work, and a rebalance makes the group stable.
#![tactic(auto)]

ghost use Rattle.std.specs.Prelude.{◌≡◌, ◌≢◌, ◌<◌, ◌≤◌, ◌+◌, ◌*◌, ◌++◌, [], ℕ, All, Bool, Contains, IfSome, List};
ghost use Rattle.std.specs.Prelude.{Option, Some, length, take};
ghost use Rattle.bully_agree.specs.Fencing.{IsLastPlan, Planned};
ghost use Rattle.bully_base.specs.NodeSet.{IsFallingBelow};
ghost use Rattle.bully_base.specs.Setup.{IsNode, IsSetup, Setup};
ghost use Rattle.bully_calls.specs.declared.call.Answer.{Answer};
ghost use Rattle.bully_calls.specs.declared.event.Event.{Event};
ghost use Rattle.bully_replica.specs.Replica.{IsLogOf, ReplicaState};
ghost use Rattle.bully_rebalance.specs.Acting.{ActsBy, IsPiece, IsReachedBy};
ghost use Rattle.bully_rebalance.specs.Leaving.{AreAsked, AreLeft, HaveKeepers, LeavesTo, LoseNothing, OwnNothing};
ghost use Rattle.bully_rebalance.specs.Owning.{owned_by, owned_in};
ghost use Rattle.bully_rebalance.specs.Stable.{IsStable};
ghost use Rattle.bully_rebalance.specs.Rebalancing.{Rebalances, rebalancing};
ghost use Rattle.bully_rebalance.specs.declared.holding.Owned.{Owned as OwnedState};
ghost use Rattle.bully_rebalance.specs.declared.leaving.Keeper.{Keeper as KeeperState};
ghost use Rattle.bully_table.specs.Balance.{IsBalanced};
ghost use Rattle.bully_table.specs.Planning.{planned};
ghost use Rattle.bully_work.specs.Store.{AcceptsAppend, IsLive, IsOneToOne, Lease, MayAcquire, MayAppend, MayBegin};
ghost use Rattle.bully_work.specs.Store.{MayPromise, MayRollOver, MayYield, Piece, Promised, Store, begins, current};
ghost use Rattle.bully_work.specs.Store.{learns, nobody, none_silent, nothing_in, promises, stops};
ghost use Rattle.bully_work.specs.Working.{WorksOn};
ghost use Rattle.bully_world.specs.Lawful.{IsLawful};
ghost use Rattle.bully_world.specs.State.{world_of};
ghost use Rattle.bully_world.specs.World.{World};

mod holding;
mod leaving;
mod rebalancing;
mod stable;
mod working;

pub use holding::{Owned, Partitions};
pub use leaving::{Keeper, is_left, leaves, leaves_all, left_of, losers};
pub use rebalancing::{RebalanceFault, coming_table, rebalance};
pub use stable::is_stable;
pub use working::{may_work, owned};

/// The law of a stable group. If a group is stable and some node is live, each partition has a worker that is live: a
/// Normal node whose task gives it the partition. (It has only one, by `one_worker` of bully_work.) The process of each
/// live node may work on exactly what the last plan gives the node.
pub fn stable_works()
    ensures served { (r : ReplicaState) (events : List Event) (live : List ℕ) (offset k : ℕ)
        → IsLogOf r events → All (IsNode r.world.setup) live → live ≢ [] → IsStable r live offset
        → k < r.world.setup.partitions
        → (i : ℕ) × Contains live i × WorksOn (world_of r.world) i k }
    ensures owned { (r : ReplicaState) (live : List ℕ) (offset i : ℕ)
        → IsStable r live offset → IsNode r.world.setup i → Contains live i → owned_by r i offset ≡ owned_in r.last i }
{}

/// The law of becoming stable. After any lawful log that has room for them, the events of `rebalancing` are lawful, and
/// lead to a world that is stable among the live nodes; with no live node, all nodes are Down there. If some node is
/// live, the last plan is one of these events, has the fewest moves from the old table, and gives partitions to live
/// nodes alone. There are at most 11 events for each node of the setup. So a replica of the log and of these events is
/// stable, by a plan after the log. A member that names nobody may append the events to the log of a store of
/// bully_work (`eager_apart`).
pub fn becomes_stable()
    ensures rebalances { (setup : Setup) (log : List Event) (answers : List Answer) (w : World) (old : Option (List ℕ))
        (live : List ℕ)
        → IsSetup setup → IsLawful setup log answers w → IfSome old (λ t. length t ≡ setup.partitions)
        → IsFallingBelow (setup.nodes + 1) live → length log + length (rebalancing setup w old live) ≤ setup.events_max
        → Rebalances setup log old live (rebalancing setup w old live) }
    ensures few { (setup : Setup) (w : World) (old : Option (List ℕ)) (live : List ℕ)
        → IsFallingBelow (setup.nodes + 1) live → length (rebalancing setup w old live) ≤ 11 * setup.nodes }
    ensures stable { (r : ReplicaState) (log more : List Event) (old : Option (List ℕ)) (live : List ℕ) (offset : ℕ)
        → Rebalances r.world.setup log old live more → IsLogOf r (log ++ more) → offset ≤ length log
        → IsStable r live offset }
    ensures append { (s : Store) (old : Option (List ℕ)) (live : List ℕ) (more : List Event)
        → Rebalances (current s).setup (current s).log old live more
        → MayAppend s s.epoch (length (current s).log) none_silent nobody more }
{}

/// The law of leaving each what it keeps. The plan of a rebalance has the planned table, which each process can compute
/// before (`planned`). A member may append a rebalance to the log of a store of bully_work if that table leaves each
/// silent name all that the last plan gave it, and if all others that the member has seen live have promised the end of
/// the log, and the table leaves each of them what it keeps (`append`). [`leaves_all`] tests that, given a keeper for
/// all that is kept (`passes`) and for all that the silent names own (`whole`). A member may roll the epoch over if the
/// silent names own nothing, and different names have different nodes in the next epoch (`rolls`). A table that is
/// balanced over the live nodes is the planned one, so no work stops if the same nodes are rebalanced again (`stays`).
pub fn leaves_kept()
    ensures planned { (setup : Setup) (log more : List Event) (old : Option (List ℕ)) (live : List ℕ) (p : Planned)
        → Rebalances setup log old live more → live ≢ [] → IsLastPlan (log ++ more) p
        → p.table ≡ planned setup old live }
    ensures append { (s : Store) (old : Option (List ℕ)) (live : List ℕ) (more : List Event) (e offset : ℕ)
        (silent : ℕ → Bool) (seen : ℕ → Option Lease)
        → Rebalances (current s).setup (current s).log old live more
        → IsFallingBelow ((current s).setup.nodes + 1) live
        → AreLeft e offset live (planned (current s).setup old live) (current s).number silent seen
        → LoseNothing (current s).log live (planned (current s).setup old live) (current s).number silent
        → MayAppend s e offset silent seen more }
    ensures stays { (setup : Setup) (old live : List ℕ)
        → IsSetup setup → IsFallingBelow (setup.nodes + 1) live → live ≢ [] → length old ≡ setup.partitions
        → IsBalanced setup old live → planned setup (Some old) live ≡ old }
    ensures passes { (e offset : ℕ) (live table : List ℕ) (keepers : List KeeperState) (number : ℕ → ℕ)
        (silent : ℕ → Bool) (seen : ℕ → Option Lease)
        → AreAsked e offset live keepers number silent seen → All (LeavesTo table) keepers
        → AreLeft e offset live table number silent seen }
    ensures whole { (log : List Event) (live table : List ℕ) (keepers : List KeeperState) (number : ℕ → ℕ)
        (silent : ℕ → Bool)
        → HaveKeepers log live keepers number silent → All (LeavesTo table) keepers
        → LoseNothing log live table number silent }
    ensures rolls { (s : Store) (silent : ℕ → Bool) (next : ℕ → ℕ)
        → OwnNothing (current s).log (current s).number silent → IsOneToOne next → MayRollOver s silent next }
{}

/// The law of what a process asks by what it knows. It acts by a session for a name (`ActsBy`): it knows the epoch that
/// the session has learned last, which node the name has there, what the session has learned of its log, how far the
/// session has ever promised, and on which partitions it works. Then
///
/// - `begin`: it may start to work on each partition that `owned` gives its node after that offset;
/// - `promise`: it may promise any offset of that epoch, keeping what it works on, and report that to the store;
/// - `acquire`: it may acquire the lease for a session that works on nothing;
/// - `append`: if the store accepts an append at the end of what it has learned, it may append the events that
///   rebalance the group, on the premises of `leaves_kept`.
///
/// `ActsBy` still holds after what the process does itself, if the process notes that. It notes how far it promises,
/// and on what it starts to work, before it does so (`further`, `more`, `promised`, `begun`). It notes what it has
/// learned, which epoch it has followed, and what has stopped, afterwards (`learned`, `followed`, `stopped`).
pub fn acts_by_the_rules()
    ensures begin { (r : ReplicaState) (e node promised : ℕ) (works : List ℕ) (s : Store) (i n k : ℕ) (o : OwnedState)
        → ActsBy r e node promised works s i n → IsLive s i n → owned_by r node promised ≡ Some o
        → Contains o.partitions k
        → (x : Piece) × IsPiece x e o.token k × MayBegin s i n x }
    ensures promise { (r : ReplicaState) (e node promised : ℕ) (works : List ℕ) (s : Store) (i n offset : ℕ)
        → ActsBy r e node promised works s i n
        → MayPromise s i n (record { epoch = e; offset = offset; kept = works })
        × MayYield (promises s i n (record { epoch = e; offset = offset; kept = works })) i n
        (record { epoch = e; offset = offset; kept = works }) }
    ensures acquire { (r : ReplicaState) (e node promised : ℕ) (s : Store) (i n offset : ℕ)
        → ActsBy r e node promised [] s i n
        → MayPromise s i n (nothing_in e offset) × MayAcquire (promises s i n (nothing_in e offset)) i n e offset }
    ensures append { (r : ReplicaState) (e node promised : ℕ) (works : List ℕ) (s : Store) (i n offset : ℕ)
        (silent : ℕ → Bool) (seen : ℕ → Option Lease) (old : Option (List ℕ)) (live : List ℕ) (events : List Event)
        → ActsBy r e node promised works s i n → AcceptsAppend s e offset silent seen → offset ≡ r.world.events
        → IsFallingBelow (r.world.setup.nodes + 1) live
        → ((log : List Event) → IsLogOf r log → Rebalances r.world.setup log old live events)
        → AreLeft e offset live (planned r.world.setup old live) (current s).number silent seen
        → LoseNothing (current s).log live (planned r.world.setup old live) (current s).number silent
        → MayAppend s e offset silent seen events }
    ensures begun { (r : ReplicaState) (e node promised : ℕ) (works : List ℕ) (s : Store) (i n : ℕ) (x : Piece)
        → ActsBy r e node promised works s i n → Contains works x.partition
        → ActsBy r e node promised works (begins s i n x) i n }
    ensures promised { (r : ReplicaState) (e node promised : ℕ) (works : List ℕ) (s : Store) (i n : ℕ) (p : Promised)
        → ActsBy r e node promised works s i n → IsReachedBy p e promised
        → ActsBy r e node promised works (promises s i n p) i n }
    ensures stopped { (r : ReplicaState) (e node promised : ℕ) (works less : List ℕ) (s : Store) (i n : ℕ)
        (left : List Piece)
        → ActsBy r e node promised works s i n → ((x : Piece) → Contains left x → Contains less x.partition)
        → ActsBy r e node promised less (stops s i n left) i n }
    ensures learned { (r later : ReplicaState) (e node promised : ℕ) (works : List ℕ) (s : Store) (i n offset : ℕ)
        → ActsBy r e node promised works s i n → later.world.setup ≡ r.world.setup
        → IsLogOf later (take offset (s.epochs e).log)
        → ActsBy later e node promised works (learns s i n e offset) i n }
    ensures followed { (r later : ReplicaState) (e node promised next other : ℕ) (works : List ℕ) (s : Store)
        (i n offset : ℕ)
        → ActsBy r e node promised works s i n → e < next → later.world.setup ≡ (s.epochs next).setup
        → other ≡ (s.epochs next).number i → IsLogOf later (take offset (s.epochs next).log)
        → ActsBy later next other 0 works (learns s i n next offset) i n }
    ensures further { (r : ReplicaState) (e node promised further : ℕ) (works : List ℕ) (s : Store) (i n : ℕ)
        → ActsBy r e node promised works s i n → promised ≤ further → ActsBy r e node further works s i n }
    ensures more { (r : ReplicaState) (e node promised : ℕ) (works more : List ℕ) (s : Store) (i n : ℕ)
        → ActsBy r e node promised works s i n → ((k : ℕ) → Contains works k → Contains more k)
        → ActsBy r e node promised more s i n }
{}
