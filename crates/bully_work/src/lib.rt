//! Who may work on which partition: laws over lawful lists of events, and over a store that processes share.
//!
//! It builds on bully_agree and the crates below it. A program that has a node's process work relies on its laws: of
//! the one worker that a partition has in a world, of the events that end a node's work, and of promises.
#![tactic(auto)]

ghost use Rattle.std.specs.Prelude.{◌≡◌, ◌≤◌, ◌↔◌, ◌++◌, ◌⊎◌, ℕ, Bool, false, Contains, List, Option, Some, length};
ghost use Rattle.bully_agree.specs.Runs.{CanRun};
ghost use Rattle.bully_agree.specs.Fencing.{Planned, IsLastPlan, GoesBy, has_plan};
ghost use Rattle.bully_base.specs.Setup.{Setup};
ghost use Rattle.bully_base.specs.declared.node.Status.TheVariants.{Normal};
ghost use Rattle.bully_calls.specs.declared.call.Answer.{Answer};
ghost use Rattle.bully_calls.specs.declared.event.Event.{Event};
ghost use Rattle.bully_work.specs.Store.{AcceptsAppend, AcceptsRollOver, Act, AllAsked, AllIdle, AllRise, Append};
ghost use Rattle.bully_work.specs.Store.{AreApart, Become, Begin, Does, HasKept, HasWork, IsAtWork, IsLeft};
ghost use Rattle.bully_work.specs.Store.{IsOneToOne, IsOwner, IsReached, IsSameOrOver, IsUnchanged, IsUpToDate};
ghost use Rattle.bully_work.specs.Store.{KeepsNothing, Lease, MayAppend, NoneSilent, OwnsIn, OwnsNow, Piece, RollOver};
ghost use Rattle.bully_work.specs.Store.{Store, current, longer, nobody, none_silent, rolled};
ghost use Rattle.bully_work.specs.Working.{GivesTo, Spares, WorksOn, ends_work};
ghost use Rattle.bully_world.specs.Lawful.{IsLawful};
ghost use Rattle.bully_world.specs.Step.{Step};
ghost use Rattle.bully_world.specs.World.{World, vector};

/// The law of one worker. Whatever lawful list leads to a world, no two nodes that are Normal there have the same
/// partition by their tasks, and each has its partitions by the list's last plan. If one list is a prefix of another,
/// and both have the same token, a partition has the same worker in both worlds: a resource that keeps the highest
/// token has one worker at a time.
pub fn one_worker()
    ensures one { (setup : Setup) (events : List Event) (answers : List Answer) (w : World) (i j k : ℕ)
        → IsLawful setup events answers w → WorksOn w i k → WorksOn w j k → i ≡ j }
    ensures planned { (setup : Setup) (events : List Event) (answers : List Answer) (w : World) (i k : ℕ)
        → IsLawful setup events answers w → WorksOn w i k
        → (p : Planned) × IsLastPlan events p × GoesBy w i p × GivesTo p.table k i }
    ensures fenced { (setup : Setup) (events more : List Event) (answers others : List Answer) (w v : World) (i j k : ℕ)
        (p q : Planned)
        → IsLawful setup events answers w → IsLawful setup (events ++ more) others v → WorksOn w i k → WorksOn v j k
        → IsLastPlan events p → IsLastPlan (events ++ more) q → p.token ≡ q.token → i ≡ j }
{}

/// The law of owners. A Normal node stays Normal at a step exactly if the step isn't its crash, its own move or the run
/// of a Halt at it. As long as none of these comes, the node keeps its vector, with its task, and nobody plans.
pub fn owners_stay()
    ensures exact { (setup : Setup) (events : List Event) (answers : List Answer) (w w' : World) (e : Event)
        (a : Answer) (i : ℕ)
        → IsLawful setup events answers w → Step setup w e w' a → (vector w i).status ≡ Normal
        → (((vector w' i).status ≡ Normal) ↔ (ends_work w i e ≡ false)) }
    ensures stays { (setup : Setup) (events more : List Event) (answers others : List Answer) (w v : World) (i : ℕ)
        → IsLawful setup events answers w → IsLawful setup (events ++ more) others v → (vector w i).status ≡ Normal
        → Spares setup w more i → (vector v i ≡ vector w i) × (has_plan more ≡ false) }
    ensures last { (events more : List Event) (p : Planned) → has_plan more ≡ false → IsLastPlan events p
        → IsLastPlan (events ++ more) p }
{}

/// The law of promises. Whatever is done to a store, over all its epochs:
///
/// - `owner`: a live session that works on a partition works by the current epoch, and owns the partition by its whole
///   log, whether or not it has learned that: its node is Normal there, and the last plan gives it the partition.
/// - `plan`: it has promised, for an offset after the plan by which it works, to keep the partition; or it has promised
///   nothing for an offset after that plan, and its node still owns all that this plan gives it.
/// - `told`: if its lease has promised the end of the log, it works on nothing but what the store has it keep.
/// - `now`: no two live sessions work on one partition.
/// - `rolls`: no live session works at the moment at which an epoch is rolled over.
/// - `begins`: if a session starts to work on a partition, the lease of each other session that still works on it is
///   over, and the new token is higher: of a later epoch, or higher in the same one.
/// - `ever`: of all sessions that ever started to work, a later one did so in a later epoch; or in the same epoch, and
///   then its token is no lower than that of an earlier one on the same partition or for the same node. With one token
///   a node has one session, and a partition has one node and one session.
///
/// What may be done is what `Does` allows: the store accepts only what passes its own tests, and each member keeps
/// eight rules, which `specs/Store` defines: `MayAppend`, `MayRollOver`, `MayAcquire`, `MayYield`, `MayLearn`,
/// `MayPromise`, `MayBegin`, `MayStop`. Nothing else is assumed about members, about time, or about what comes late. An
/// append names the nodes that are silent: each of them owns after the append all that it owned before, and promises
/// nothing.
pub fn workers_apart()
    ensures owner { (acts : List Act) (s : Store) (i n : ℕ) (x : Piece)
        → IsReached acts s → IsAtWork s i n x
        → (x.epoch ≡ s.epoch) × (is : OwnsNow s i x.partition) × GoesBy is.owner.world ((current s).number i) is.plan }
    ensures plan { (acts : List Act) (s : Store) (i n : ℕ) (x : Piece)
        → IsReached acts s → IsAtWork s i n x
        → HasKept (s.sessions i n) x ⊎ IsLeft s i (s.sessions i n) x }
    ensures told { (acts : List Act) (s : Store) (i : ℕ) (here : Lease) (x : Piece)
        → IsReached acts s → s.live i ≡ Some here → HasWork s i here.session x
        → here.promised.epoch ≡ s.epoch → length (current s).log ≤ here.promised.offset
        → Contains here.promised.kept x.partition }
    ensures now { (acts : List Act) (s : Store) (i j n m : ℕ) (x y : Piece)
        → IsReached acts s → IsAtWork s i n x → IsAtWork s j m y → x.partition ≡ y.partition
        → (i ≡ j) × (n ≡ m) }
    ensures rolls { (acts : List Act) (s s' : Store) (i n : ℕ) (x : Piece) (e offset : ℕ)
        (silent : ℕ → Bool) (next : Setup) (number : ℕ → ℕ)
        → IsReached acts s → IsAtWork s i n x → Does s (RollOver e offset silent next number) s' → ⊥ }
    ensures begins { (acts : List Act) (s s' : Store) (i j n m : ℕ) (x y : Piece)
        → IsReached acts s → HasWork s i n x → Does s (Begin j m y) s' → x.partition ≡ y.partition
        → IsSameOrOver s i n x j m y }
    ensures ever { (acts : List Act) (s : Store) → IsReached acts s
        → AreApart s.begun }
{}

/// The law of promises if everybody is asked: if no append has ever named a silent node, then, beside `workers_apart`:
///
/// - `plan`: a live session works by the log's last plan, and has learned the whole log; or it works by an older plan
///   on a partition that it has since promised to keep.
/// - `ever`: of all sessions that ever started to work, on whatever partition, a later one has no lower token.
pub fn asked_apart()
    ensures plan { (acts : List Act) (s : Store) (i n : ℕ) (x : Piece)
        → IsReached acts s → AllAsked acts → IsAtWork s i n x
        → IsUpToDate s (s.sessions i n) x ⊎ HasKept (s.sessions i n) x }
    ensures ever { (acts : List Act) (s : Store) → IsReached acts s → AllAsked acts
        → AllRise s.begun }
{}

/// The law of eager groups: if everybody is asked, and no session has ever promised to keep anything, then, beside
/// `workers_apart` and `asked_apart`:
///
/// - `owner`: a live session that works has learned the whole log, and is an owner by its last plan.
/// - `still`: nothing is appended while a live session works, unless the append names a silent node.
/// - `now`: all live sessions that work at one moment work by one plan, and no two of them have the same partition by
///   it.
///
/// From a writer that names nobody the store accepts a lawful append or roll-over exactly if all holders of leases have
/// promised the end of the log and keep nothing (`appends`, `ends`, `idle`).
pub fn eager_apart()
    ensures owner { (acts : List Act) (s : Store) (i n : ℕ) (x : Piece)
        → IsReached acts s → AllAsked acts → KeepsNothing s → IsAtWork s i n x
        → IsUpToDate s (s.sessions i n) x
        × (is : IsOwner (current s).setup (current s).log ((current s).number i) x.plan)
        × GoesBy is.world ((current s).number i) x.plan }
    ensures still { (acts : List Act) (s s' : Store) (i n : ℕ) (x : Piece) (e offset : ℕ)
        (silent : ℕ → Bool) (seen : ℕ → Option Lease) (events : List Event)
        → IsReached acts s → KeepsNothing s → IsAtWork s i n x → NoneSilent silent
        → Does s (Append e offset silent seen events) s' → ⊥ }
    ensures now { (acts : List Act) (s : Store) (i j n m : ℕ) (x y : Piece)
        → IsReached acts s → AllAsked acts → KeepsNothing s → IsAtWork s i n x → IsAtWork s j m y
        → (x.plan ≡ y.plan)
        × ((k : ℕ) → GivesTo x.plan.table k ((current s).number i)
        → GivesTo y.plan.table k ((current s).number j) → (i ≡ j) × (n ≡ m)) }
    ensures appends { (s : Store) (events : List Event)
        → AllIdle s s.epoch (length (current s).log) → CanRun (current s).setup ((current s).log ++ events)
        → Does s (Append s.epoch (length (current s).log) none_silent nobody events) (longer s events) }
    ensures ends { (s : Store) (next : Setup) (number : ℕ → ℕ)
        → IsOneToOne number → AllIdle s s.epoch (length (current s).log)
        → Does s (RollOver s.epoch (length (current s).log) none_silent next number) (rolled s next number) }
    ensures idle { (s : Store) (e offset : ℕ)
        → AcceptsAppend s e offset none_silent nobody ⊎ AcceptsRollOver s e offset none_silent → AllIdle s e offset }
{}

/// The law of snapshots. If a writer's snapshot was of one moment, and the writer may append by what it found there,
/// then, as long as nothing is appended and the epoch isn't rolled over, each live session that works owns after the
/// append what it works on. So the store needs to test only the epoch and the offset of an append for that; the
/// comparison of leases makes the law independent of how snapshots are made.
pub fn snapshots_suffice()
    ensures { (before acts : List Act) (s now : Store) (silent : ℕ → Bool) (events : List Event)
        (i n : ℕ) (x : Piece)
        → IsReached before s → Become s acts now → IsUnchanged s now
        → MayAppend s s.epoch (length (current s).log) silent s.live events → IsAtWork now i n x
        → OwnsIn (current now) ((current now).log ++ events) i x.partition }
{}
