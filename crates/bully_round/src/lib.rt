//! A round of members: how each gets on by its turns, until the group is stable.
//!
//! It builds on bully_run.
#![tactic(auto)]

ghost use Rattle.std.specs.Prelude.{◌≡◌, ◌≢◌, ◌<◌, ◌≤◌, ◌↔◌, ◌-◌, ◌*◌, ◌/◌, ◌++◌, ℕ, Bool, [], Contains, List};
ghost use Rattle.std.specs.Prelude.{Option, false, length, map, true};
ghost use Rattle.bully_calls.specs.declared.event.Event.{Event};
ghost use Rattle.bully_member.specs.Activities.{works_at};
ghost use Rattle.bully_member.specs.Due.{Sees, due, is_outdated};
ghost use Rattle.bully_member.specs.Member.{Foresees, MemberState, SeesStable, above, all_ready, offset_of, replica_of};
ghost use Rattle.bully_member.specs.Rebalance.{rebalanced_nodes};
ghost use Rattle.bully_member.specs.Times.{turn_left};
ghost use Rattle.bully_member.specs.declared.values.Lease.{Lease};
ghost use Rattle.bully_member.specs.declared.values.Request.{Request};
ghost use Rattle.bully_member.specs.declared.values.SessionId.{SessionId};
ghost use Rattle.bully_member.specs.declared.values.SessionState.{SessionState};
ghost use Rattle.bully_member.specs.declared.values.Sight.{Sight};
ghost use Rattle.bully_member.specs.declared.values.Step.{Step};
ghost use Rattle.bully_replica.specs.Replica.{IsLogOf};
ghost use Rattle.bully_round.specs.From.{AreReady, HasFoundSame, HasMember, InRun, IsGrownBy, IsPartOf, IsRoundFrom};
ghost use Rattle.bully_round.specs.From.{IsSameReplica, IsUpTo, NamesReady, TakesTurns, calls_on};
ghost use Rattle.bully_round.specs.Group.{Appends, HasLearnedOf, HasSameView, HaveLooked, HaveOneView, IsAlert};
ghost use Rattle.bully_round.specs.Group.{IsAtRest};
ghost use Rattle.bully_round.specs.Group.{IsRound, Look, LooksAgain, Passage, after_in, all_turns, table_of};
ghost use Rattle.bully_round.specs.Progress.{DoesTasks, IsCalm, Owns, ShowsChange, TakesTurn, Turn, change_of};
ghost use Rattle.bully_round.specs.Progress.{changes_log, is_task, step_at_rest, to_do};
ghost use Rattle.bully_run.specs.Calls.{Lives, Made};
ghost use Rattle.bully_run.specs.Run.{Done, Happening, Happens, HasRun, Run, RunsBy, SentAppend, WorksNow};
ghost use Rattle.bully_work.specs.Store.{AcceptsAppend, Lease as Held, Piece, current};
ghost use Rattle.bully_work.specs.Working.{GivesTo};

/// The law of one member's progress. A member is *calm* if it has its lease, goes on in its epoch, and nothing is under
/// way (`IsCalm`). What is left for it to do by itself is a number (`to_do`): to stop what it may not go on with, to
/// read a snapshot if one is due, and then to promise, or in a stable group to begin. In a turn (`TakesTurn`) it does
/// its next step; a request is then done, what was to be stopped ends, and a snapshot is of its epoch.
///
/// - `acts`: as long as something is left, its next step does some of it: it doesn't wait.
/// - `rests`: once nothing is left, its next step is this: in a stable group it waits; otherwise it waits to be
///   admitted, for its turn, or for the others; and once its turn has come, and all are ready, it changes the log.
/// - `falls`: each turn that does some of it leaves less.
/// - `bounded`: so after at most 4 such turns nothing is left. It doesn't read snapshots, promise or begin for ever.
/// - `exactly`: if nothing is left in a stable group, it works on exactly what its node owns.
/// - `fresh`: once it has read a snapshot, and still has its lease, none is due at that moment.
/// - `patient`: if a snapshot shows it a change, it doesn't change the log before its turn: a fifth of the ttl for each
///   higher live node, counted from then.
/// - `some`: there are such turns. A member that works before it has read a snapshot stops, reads one and promises.
pub fn progress_of_one()
    ensures acts { (m : MemberState) (now : ℕ) (s : Sight) → IsCalm m now → Sees m now s → 0 < to_do m s
        → is_task (due m now s) ≡ true }
    ensures rests { (m : MemberState) (now : ℕ) (s : Sight) → IsCalm m now → Sees m now s → to_do m s ≡ 0
        → due m now s ≡ step_at_rest m now s.is_stable }
    ensures falls { (m after : MemberState) (now at later : ℕ) (step : Step) (s t : Sight)
        → IsCalm m now → Sees m now s → TakesTurn m now at step after → is_task step ≡ true
        → IsCalm after later → Sees after later t → to_do after t < to_do m s }
    ensures bounded { (m after : MemberState) (turns : List Turn) → DoesTasks m turns after → length turns ≤ 4 }
    ensures exactly { (m : MemberState) (now : ℕ) (s : Sight) → IsCalm m now → Sees m now s → s.is_stable ≡ true
        → to_do m s ≡ 0 → (k : ℕ) → works_at m.works k ≡ true ↔ Owns m k }
    ensures fresh { (m after : MemberState) (now at : ℕ) (session : SessionId) (since : ℕ)
        → TakesTurn m now at (Step.Ask Request.Snapshot) after
        → after.session ≡ SessionState.Live session since → is_outdated after at ≡ false }
    ensures patient { (m after : MemberState) (now at later : ℕ) (s : Sight)
        → (turn : TakesTurn m now at (Step.Ask Request.Snapshot) after)
        → ShowsChange turn.reported.behind turn.reported.leases turn.reported.has_request
        → IsCalm after later → Sees after later s → later - at < after.ttl / 5 * above after
        → changes_log (due after later s) ≡ false }
    ensures some { (m after : MemberState) × (turns : List Turn) × DoesTasks m turns after × (length turns ≡ 3) }
{}

/// The law of a round: how members among whom nobody comes or goes make their group stable, by one append. No clock is
/// needed, but that each takes its turns, and that at each it is calm.
///
/// Before the change:
///
/// - `again`: one that had nothing left to do, and looks again because others have promised, still has nothing left.
/// - `view`: so once all have looked at the same snapshot again, they have one view.
///
/// Once all have one view, and nothing is left for any to do by itself (`HaveOneView`):
///
/// - `ready`: all are ready for the change, as far as each of them knows. So no two wait for each other.
/// - `changes`: each whose turn has come changes the log.
/// - `somebody`: the turn of one of them, the one with the highest node, has come.
/// - `alone`: of those to whom a snapshot showed a change less than a fifth of the ttl ago only one changes the log
///   (`IsAlert`), the one with the highest node. So no two compete.
///
/// After the rebalance, which one of them appends (`Appends`):
///
/// - `stable`: each that has learned it, and read a snapshot, finds the group stable.
/// - `works`: once nothing is left for it to do, it works on exactly what the rebalance's table gives its node.
///
/// In the whole round (`IsRound`), from whatever states:
///
/// - `turns`: they take at most 12 turns each.
/// - `ends`: in the end the group is stable for each.
/// - `waits`: each then waits until something is new. So nobody changes the log again.
/// - `own`: each works on exactly what the table gives its node.
/// - `one`: no two nodes work on one partition.
/// - `served`: each partition is worked on.
///
/// There are such members: two that have promised and look again (`look`), two of one view (`some`), two to whom a
/// snapshot showed a change, of whom the higher one changes the log (`alert`), and those that have learned a rebalance
/// (`after`). There is such a round (`whole`): of two members, after a log that they have learned. So both read the
/// rows of its rebalance.
pub fn round_becomes_stable()
    ensures again { (leases : List Lease) (m after : MemberState) (later : ℕ) (t : Sight) → LooksAgain leases m after
        → IsCalm after later → Sees after later t → t.is_stable ≡ false → to_do after t ≡ 0 }
    ensures view { (leases : List Lease) (xs : List Look) → HaveLooked leases xs → HaveOneView (map after_in xs) }
    ensures ready { (ms : List MemberState) (m : MemberState) → HaveOneView ms → Contains ms m → all_ready m ≡ true }
    ensures changes { (ms : List MemberState) (m : MemberState) (now : ℕ) (s : Sight) → HaveOneView ms → Contains ms m
        → IsAtRest m now false → Sees m now s → turn_left (above m) m.ttl now m.last_change.at ≡ 0
        → due m now s ≡ change_of m }
    ensures somebody { (ms : List MemberState) → HaveOneView ms → ms ≢ [] → (m : MemberState) × Contains ms m
        × ((now : ℕ) (s : Sight) → IsAtRest m now false → Sees m now s → due m now s ≡ change_of m) }
    ensures alone { (leases : List Lease) (m n : MemberState) (now later : ℕ) (s t : Sight)
        → IsAlert leases m now s → IsAlert leases n later t
        → changes_log (due m now s) ≡ true → changes_log (due n later t) ≡ true → m.terms.node ≡ n.terms.node }
    ensures stable { (w n : MemberState) (log more : List Event) → Appends w log more → HasLearnedOf w log more n
        → SeesStable n }
    ensures works { (w n : MemberState) (log more : List Event) (now k : ℕ) (s : Sight)
        → Appends w log more → HasLearnedOf w log more n → IsCalm n now → Sees n now s → to_do n s ≡ 0
        → works_at n.works k ≡ true ↔ GivesTo (table_of w) k n.terms.node }
    ensures turns { (xs : List Passage) (w : MemberState) (log more : List Event) → IsRound xs w log more
        → all_turns xs ≤ 12 * length xs }
    ensures ends { (xs : List Passage) (w : MemberState) (log more : List Event) (x : Passage)
        → IsRound xs w log more → Contains xs x → SeesStable x.last }
    ensures waits { (xs : List Passage) (w : MemberState) (log more : List Event) (x : Passage) (now : ℕ) (s : Sight)
        → IsRound xs w log more → Contains xs x → IsCalm x.last now → Sees x.last now s → to_do x.last s ≡ 0
        → due x.last now s ≡ step_at_rest x.last now true }
    ensures own { (xs : List Passage) (w : MemberState) (log more : List Event) (x : Passage) (k : ℕ)
        → IsRound xs w log more → Contains xs x
        → works_at x.last.works k ≡ true ↔ GivesTo (table_of w) k x.last.terms.node }
    ensures one { (xs : List Passage) (w : MemberState) (log more : List Event) (x y : Passage) (k : ℕ)
        → IsRound xs w log more → Contains xs x → Contains xs y
        → works_at x.last.works k ≡ true → works_at y.last.works k ≡ true → x.last.terms.node ≡ y.last.terms.node }
    ensures served { (xs : List Passage) (w : MemberState) (log more : List Event) (k : ℕ)
        → IsRound xs w log more → k < (replica_of w).world.setup.partitions
        → (x : Passage) × Contains xs x × (works_at x.last.works k ≡ true) }
    ensures look { (leases : List Lease) × (xs : List Look) × HaveLooked leases xs × (length xs ≡ 2) }
    ensures some { (ms : List MemberState) × HaveOneView ms × (length ms ≡ 2) }
    ensures alert { (leases : List Lease) × (m n : MemberState) × (now : ℕ) × (s : Sight)
        × IsAlert leases m now s × IsAlert leases n now s
        × (m.terms.node < n.terms.node) × (changes_log (due n now s) ≡ true) }
    ensures after { (w : MemberState) × (log more : List Event) × Appends w log more
        × ((i : ℕ) → Contains (rebalanced_nodes w) i → (n : MemberState) × (now : ℕ) × (n.terms.node ≡ i)
        × HasLearnedOf w log more n × IsAtRest n now true) }
    ensures whole { (xs : List Passage) × (w : MemberState) × (log more : List Event) × IsRound xs w log more
        × IsLogOf (replica_of w) log × (length xs ≡ 2) }
{}

/// The law of a round from any state. It ties rounds to the runs of bully_run: what a run itself gives of a round's
/// premises, whatever happened in it.
///
/// Of each member, at each moment:
///
/// - `part`: it has learned the beginning of its epoch's log, has that epoch's setup, is the node of its name there,
///   has promised no more than it has learned, and has an activity for each partition.
/// - `calm`: so two premises of a calm member hold: a log leads to its replica, and its activities are as many as the
///   table needs (`InRun`).
/// - `called`: from one moment to a later one it changes by the calls on it that happen in between, and by nothing
///   else.
/// - `turns`: by turns between moments of a run (`TakesTurns`) it does its tasks (`DoesTasks`).
///
/// Of members that have learned the whole log of the current epoch (`IsUpTo`):
///
/// - `alike`: their replicas are the same (`IsSameReplica`).
/// - `view`: if they also found the same leases, requests and nodes, they have one view: they foresee the same change.
/// - `ready`: so if all have nothing left to do (`AreReady`), all have one view, in which each lease is that of one of
///   them.
///
/// - `accepted`: then the store accepts an append of any of them: in an eager group whatever leases that names.
/// - `appended`: once an append was done, the log is longer by a rebalance, among nodes of the setup; its writer had
///   learned the log before.
///
/// In the whole round (`IsRoundFrom`), from any moment of any run on:
///
/// - `round`: it is one by `round_becomes_stable`, whose clauses all hold.
/// - `bound`: each node takes at most 12 turns.
/// - `one`: the log is longer by that one rebalance.
/// - `stable`: in the end the group is stable for each.
/// - `own`: each works on exactly what the rebalance's table gives its node.
/// - `only`: whatever process works, and has its lease, is one of theirs, on a partition that the table gives its node.
///
/// There is a run in which a member is ready (`some`).
pub fn round_from_any_run()
    ensures part { (happenings : List Happening) (R : Run) (p : ℕ) (m : MemberState) → HasRun happenings R
        → (at : HasMember R p m) → IsPartOf R at.name m }
    ensures calm { (happenings : List Happening) (R : Run) (p : ℕ) (m : MemberState) (now : ℕ) → HasRun happenings R
        → HasMember R p m → InRun m (IsCalm m now) → IsCalm m now }
    ensures turns { (happenings : List Happening) (R R' : Run) (p : ℕ) (m after : MemberState) (turns : List Turn)
        → HasRun happenings R → HasMember R p m → TakesTurns R p m turns R' after → DoesTasks m turns after }
    ensures called { (happenings : List Happening) (R R' : Run) (p : ℕ) (m : MemberState) → RunsBy R happenings R'
        → HasMember R p m
        → (after : MemberState) × (made : List Made) × HasMember R' p after
        × Lives m [] (calls_on p happenings) after made }
    ensures alike { (happenings : List Happening) (R : Run) (p q : ℕ) (m n : MemberState) → HasRun happenings R
        → HasMember R p m → HasMember R q n → IsUpTo R m → IsUpTo R n → IsSameReplica (replica_of m) (replica_of n) }
    ensures view { (happenings : List Happening) (R : Run) (p q : ℕ) (m n : MemberState) → HasRun happenings R
        → HasMember R p m → HasMember R q n → IsUpTo R m → IsUpTo R n → HasFoundSame m n → Foresees m → Foresees n
        → HasSameView m n }
    ensures ready { (happenings : List Happening) (R : Run) (ms : List MemberState) → HasRun happenings R
        → AreReady R ms → HaveOneView ms }
    ensures accepted { (happenings : List Happening) (R : Run) (ms : List MemberState) (w : MemberState)
        (silent : ℕ → Bool) (seen : ℕ → Option Held) → HasRun happenings R → AreReady R ms → Contains ms w
        → NamesReady R w silent seen → AcceptsAppend R.store w.terms.epoch (offset_of w) silent seen }
    ensures appended { (happenings : List Happening) (R R' : Run) (w : MemberState) (offset : ℕ) (silent : ℕ → Bool)
        (seen : ℕ → Option Held) (more : List Event) → HasRun happenings R
        → Happens R (Done (SentAppend w offset silent seen more)) R' → IsGrownBy R w more R' }
    ensures round { (start last : Run) (xs : List Passage) (w : MemberState) (more : List Event)
        → (is : IsRoundFrom start xs w more last) → IsRound xs w (current is.ready.store).log more }
    ensures bound { (start last : Run) (xs : List Passage) (w : MemberState) (more : List Event)
        → IsRoundFrom start xs w more last → all_turns xs ≤ 12 * length xs }
    ensures one { (start last : Run) (xs : List Passage) (w : MemberState) (more : List Event)
        → (is : IsRoundFrom start xs w more last) → (current last.store).log ≡ (current is.ready.store).log ++ more }
    ensures stable { (start last : Run) (xs : List Passage) (w : MemberState) (more : List Event) (x : Passage)
        → IsRoundFrom start xs w more last → Contains xs x → SeesStable x.last }
    ensures own { (start last : Run) (xs : List Passage) (w : MemberState) (more : List Event) (x : Passage) (k : ℕ)
        → IsRoundFrom start xs w more last → Contains xs x
        → works_at x.last.works k ≡ true ↔ GivesTo (table_of w) k x.last.terms.node }
    ensures only { (start last : Run) (xs : List Passage) (w : MemberState) (more : List Event) (p : ℕ) (y : Piece)
        → IsRoundFrom start xs w more last → WorksNow last p y
        → (x : Passage) × Contains xs x × HasMember last p x.last
        × GivesTo (table_of w) y.partition x.last.terms.node }
    ensures some { (happenings : List Happening) × (R : Run) × (ms : List MemberState) × HasRun happenings R
        × AreReady R ms × (length ms ≡ 1) }
{}
