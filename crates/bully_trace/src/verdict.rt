ghost use Rattle.std.specs.Prelude.{◌≡◌};
ghost use Rattle.bully_trace.specs.OneRow.{decides, verdict_at, violation_in};

use bully_world::Refused;

/// The verdict on a trace.
#[derive(Clone, Copy, PartialEq, Eq, Debug)]
pub enum Verdict {
    /// Its events are lawful, and what its rows say of them and claim is so; so many events were counted.
    Lawful(u32),
    /// The event of this row is refused, for this cause.
    Refused(u32, Refused),
    /// What this row says beside its event, or claims, isn't so.
    Differs(u32),
}

/// What is wrong with a row where it stands.
#[derive(Clone, Copy, PartialEq, Eq, Debug)]
pub enum Violation {
    /// Its event is refused, for this cause.
    Refused(Refused),
    /// What it says beside its event, or claims, isn't so.
    Differs,
}

impl Violation {
    /// The verdict on a trace whose first row at which something is wrong is this one.
    pub fn at(self, row: u32) -> Verdict
        ensures { result ≡ verdict_at row self }
    {
        match self {
            Violation::Refused(why) => Verdict::Refused(row, why),
            Violation::Differs => Verdict::Differs(row),
        }
    }
}

impl Verdict {
    /// Whether the row of this number decided.
    pub fn decides(self, row: u32) -> bool
        ensures { result ≡ decides self row }
    {
        match self {
            Verdict::Lawful(_) => false,
            Verdict::Refused(decided, _) | Verdict::Differs(decided) => row == decided,
        }
    }

    /// What is wrong with the row that decided; none of a lawful trace.
    pub fn violation(self) -> Option<Violation>
        ensures { result ≡ violation_in self }
    {
        match self {
            Verdict::Lawful(_) => None,
            Verdict::Refused(_, why) => Some(Violation::Refused(why)),
            Verdict::Differs(_) => Some(Violation::Differs),
        }
    }
}
