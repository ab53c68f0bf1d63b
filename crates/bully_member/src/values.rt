//! What is reported to a member, and what it knows and asks for.
//!
//! Times are whole nanoseconds of one clock that never goes back. An offset in a log is a number of rows after its
//! header. Each of these rows is an event.
use bully_base::Node;
use bully_rebalance::Partitions;

/// A session of a process. No two sessions that ever acquire a lease are equal.
#[derive(Clone, Copy, PartialEq, Eq)]
pub struct SessionId {
    /// A number that no other process of the group ever has.
    pub process: u64,
    /// How many sessions this process has asked for, up to and including this one.
    pub number: u64,
}

/// The offset of a session's promise: it works by no plan before this offset of this epoch, except on the partitions
/// that it keeps.
#[derive(Clone, Copy, PartialEq, Eq)]
pub struct Promise {
    pub epoch: u32,
    pub offset: u32,
}

/// Who holds the lease of a node, and what its session has promised last, as far as the store knows.
#[derive(Drop)]
pub struct Lease {
    pub node: Node,
    pub session: SessionId,
    pub promise: Promise,
    /// What the promise keeps, in rising order: nothing in an eager group.
    pub kept: Partitions,
    /// Whether the holder is known to leave, as one that is told to. Its lease isn't admitted, so the others stop at
    /// once what its leaving takes from them. A member's own lease shows it only once the member was told to leave.
    pub is_leaving: bool,
}

/// What became of a request.
#[derive(Clone, Copy, PartialEq, Eq)]
pub enum StoreAnswer {
    /// It was done.
    Done,
    /// It wasn't done, and won't be.
    Refused,
    /// It may have been done already, or may be done later, or never.
    Unanswered,
}

/// Why a member ends.
#[derive(Clone, Copy, PartialEq, Eq)]
pub enum Ending {
    /// It was told to leave.
    Left,
    /// The group has no node of its name any more.
    NotThere,
    /// The log has a row that isn't learned, or that has no event.
    Broken,
}

/// A request to the store. Its offset is one of the member's epoch.
#[derive(Clone, Copy)]
pub enum Request {
    /// Acquires the lease of the member's node for this session, which promises this offset and keeps nothing: if
    /// nobody has the lease, and the log ends there.
    Acquire(SessionId, u32),
    /// Renews the lease, if this session has had it without a gap.
    Renew(SessionId),
    /// Releases the lease, if this session has it.
    Release(SessionId),
    /// Reads the rows after all that was learned, who holds a lease, and which settings are requested, at one moment.
    Snapshot,
    /// Records this session's promise of this offset, which keeps the partitions that `Member::works` gives now: if it
    /// has the lease, and has promised no higher offset.
    Promise(SessionId, u32),
    /// Appends the rows of the rebalance, if the log ends at this offset, somebody holds a lease, and all holders of
    /// leases, also unknown processes, have promised this offset of this epoch and keep nothing. In a cooperative
    /// group, unless the member ends, nothing is compared of holders whose node isn't affected
    /// (`Member::is_affected`). A lease that is compared may also be as the member knows it: its own with its last
    /// promise that was done, another one as the last snapshot found it.
    Append(u32),
    /// Rolls the epoch over: ends it and starts the next one in one transaction, if the log ends at this offset,
    /// somebody holds a lease, and all holders have promised this offset of this epoch and keep nothing. In a
    /// cooperative group nothing is compared of holders whose node isn't affected.
    RollOver(u32),
    /// Reads what the current epoch starts with.
    Follow,
}

/// What ends a wait early: other rows, sessions or requests to resize than were seen, or another holder that is known
/// to leave; or one of these.
#[derive(Clone, Copy)]
pub enum Until {
    /// Nothing else.
    News,
    /// A holder of a lease is idle up to the end of the log (it has promised that, and keeps nothing), and wasn't when
    /// the member last read a snapshot.
    AnyIdle,
    /// All holders of leases are idle up to the end of the log.
    AllIdle,
    /// A holder of a lease has made another promise than when the member last read a snapshot.
    Promises,
}

/// Why a member waits or backs off: what holds then. The numbers are those of the rules in docs/REBALANCING.md.
#[derive(Clone, Copy, PartialEq, Eq)]
pub enum Reason {
    /// Its last request isn't answered yet (2).
    Answer,
    /// Work that it was asked to stop hasn't ended yet (3).
    Stop,
    /// A request was given up as unanswered not long ago (4).
    Pause,
    /// Another process holds the lease of its node (11).
    Held,
    /// The others haven't rebalanced the group yet since the session before its own ended (12).
    Rebalance,
    /// The group is stable, and its node works on all that it owns, if it owns anything (18).
    Stable,
    /// The group is cooperative, and its lease isn't admitted yet (19).
    Admission,
    /// It isn't its turn to change the log (21).
    Turn,
    /// Others must promise something before the log changes (22).
    Others,
}

/// What a member does next.
#[derive(Clone, Copy)]
pub enum Step {
    /// Send this request to the store, and report its answer to the member. For a promise, an append or a roll-over
    /// read the rows, who is affected, and what the member works on before anything else is reported to it.
    Ask(Request),
    /// Start to work by this token, on all that the node owns. Where it works already the work goes on, by this token
    /// from now on. Nothing is written first.
    Begin(u32),
    /// Stop the work on the partitions whose activity is `Stopping`, and report to the member when that has ended. In
    /// an eager group that is all work.
    Stop,
    /// Wait for this many nanoseconds at most, and report to the member that the wait is over.
    Wait(u64, Until, Reason),
    /// Do nothing for this many nanoseconds, or until something is reported to the member.
    BackOff(u64, Reason),
    /// Do nothing more: the member has ended.
    End(Ending),
}

/// Whether a process has the lease of its node.
#[derive(Clone, Copy, PartialEq, Eq)]
pub enum SessionState {
    /// It doesn't have it.
    Absent,
    /// This session may have it: the request to acquire it wasn't answered.
    Unknown(SessionId),
    /// This session has it. Its last renewal, or the acquire, was asked for at this time.
    Live(SessionId, u64),
}

/// What a process does on a partition.
#[derive(Clone, Copy, PartialEq, Eq)]
pub enum Activity {
    /// It doesn't work on the partition.
    Idle,
    /// It works on it.
    Working,
    /// It was asked to stop that, and hasn't reported yet that the work has ended.
    Stopping,
}

/// The state of a process's work over all partitions.
#[derive(Clone, Copy, PartialEq, Eq)]
pub enum Work {
    /// It works on nothing.
    Idle,
    /// It works by this token.
    Working(u32),
    /// Its work by this token has ended by itself.
    Lost(u32),
    /// It was asked to stop all its work by this token or a part of it, and hasn't reported yet that this has ended.
    Stopping(u32),
}

/// Which table says on what a member may go on to work.
#[derive(Clone, Copy)]
pub enum Ahead {
    /// None: it may go on with nothing.
    Nothing,
    /// That of the last plan.
    Last,
    /// The coming one, if there is one.
    Coming,
}

/// What a member sees when it finds its next step.
#[derive(Clone, Copy)]
pub struct Sight {
    /// Whether the group is stable.
    pub is_stable: bool,
    /// Whether all nodes are Down.
    pub are_down: bool,
    /// Whether it may go on with all that it works on, and wasn't asked to stop.
    pub may_go_on: bool,
    /// Whether it works on all that the last plan gives its node.
    pub has_all: bool,
}

/// A request, and when it was asked for.
#[derive(Clone, Copy)]
pub struct Asked {
    pub request: Request,
    pub at: u64,
}

/// Since when nothing of this has changed: where the log ends, who holds a lease with which promise, and whether other
/// settings are requested.
#[derive(Clone, Copy)]
pub struct LastChange {
    pub at: u64,
    pub offset: u32,
}

/// When the session that was last seen for a node was seen first, and how long it must stay until it is admitted.
#[derive(Clone, Copy)]
pub struct Arrival {
    /// None if no session was ever seen.
    pub session: Option<SessionId>,
    pub at: u64,
    pub stay: u64,
}
