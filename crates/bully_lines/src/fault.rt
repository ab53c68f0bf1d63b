use bully_table::TableFault;

/// Why a line is no request, the first from its left. A field that is missing is at fault as an empty one.
#[derive(Clone, Copy, PartialEq, Eq, Debug)]
pub enum RequestFault {
    /// The first field isn't `ask`.
    Word,
    /// The caller is no number of a node of the setup.
    Caller,
    /// The call's number is no number below the setup's bound on events.
    Number,
    /// The callee is no number of a node of the setup.
    Callee,
    /// What follows is neither `ready` with a table nor the word of another call without one.
    Kind,
    /// The table of a Ready, or an allocation for it.
    Table(TableFault),
}

/// Why a line is no reply, the first from its left. A field that is missing is at fault as an empty one.
#[derive(Clone, Copy, PartialEq, Eq, Debug)]
pub enum ReplyFault {
    /// The first field isn't `tell`.
    Word,
    /// The caller is no number of a node of the setup.
    Caller,
    /// The call's number is no number below the setup's bound on events.
    Number,
    /// What follows is neither `yes` nor `no`.
    Answer,
}
