ghost use Rattle.std.specs.Prelude.{◌≡◌, ℕ, List, [], Option, None, true, IfErr, IfOk, IfSome, IsSome};
ghost use Rattle.bully_account.specs.TraceReport.{IsToldOf, IsUntold};
ghost use Rattle.bully_account.specs.Accounts.{AreAllTaken, HasTaken};
ghost use Rattle.bully_rows.specs.RecordsLeft.{EndsReading, IsUnread};
ghost use Rattle.bully_rows.specs.Rows.{OfTrace, is_of_form, no_memory};
ghost use Rattle.bully_trace.specs.declared.verdict.Verdict.{Verdict as VerdictState};

use crate::reading::read_each;
use crate::tail::TailReader;
use crate::{Account, NodeSheet};
use bully_rows::{RowReader, TraceCause, TraceFault, no_header};
use bully_trace::{Verdict, reached};
use std::alloc::Global;
use std::io::Read;

/// What is told of a trace, a verdict or a fault of form; and what is shown of each node, from node 1 on, where it is a
/// verdict.
#[derive(Drop)]
pub struct TraceReport {
    pub verdict: Result<Verdict, TraceFault>,
    pub nodes: Vec<NodeSheet>,
}

/// Takes all rows of a text, from the first, to the account, which the header makes, and tells the verdict as `check`
/// does, or the first fault of form. With a verdict the account is there. Refused where there is nothing to tell: as
/// `Read` where the reader fails, at the row after those that were read; and as `OutOfMemory`, at row 0, where the
/// account or what is shown can't be made.
pub fn tell<R: Read + Drop>(
    alloc: Global,
    rows: &mut RowReader<TailReader<R>>,
    account: &mut Option<Account>,
) -> Result<TraceReport, TraceFault>
    requires { account.old ≡ None }
    ensures told { (known : Option (List ℕ)) → IsUnread known rows.old
        → IfOk result (λ told. IsToldOf known told.nodes.items told.verdict) }
    ensures form { IfOk result (λ told. IfErr told.verdict (λ fault. is_of_form fault.cause ≡ true)) }
    ensures account { IfOk result (λ told. IfOk told.verdict (λ verdict. IsSome account.new)) }
    ensures taken { (known : Option (List ℕ)) → IsUnread known rows.old
        → IfOk result (λ told. IfOk told.verdict (λ verdict.
        IfSome account.new (λ a. OfTrace known (λ trace. HasTaken trace.setup trace.rows a)))) }
    ensures sheets { IfOk result (λ told. IfErr told.verdict (λ fault. told.nodes.items ≡ [])) }
    ensures fault { (known : Option (List ℕ)) → IsUnread known rows.old → IfErr result (EndsReading known) }
    ensures untold { IfErr result IsUntold }
{
    match read_each(alloc, rows, account) {
        Ok(()) => match account {
            Some(account) => verdict_told(alloc, account),
            None => fault_told(alloc, no_header()),
        },
        Err(fault) => fault_told(alloc, fault),
    }
}

// The verdict, and what is shown of each node.
fn verdict_told(alloc: Global, account: &Account) -> Result<TraceReport, TraceFault>
    ensures told { (known : Option (List ℕ)) → AreAllTaken known account.now
        → IfOk result (λ told. IsToldOf known told.nodes.items told.verdict) }
    ensures verdict { IfOk result (λ told. (verdict : VerdictState) × (told.verdict ≡ Ok verdict)) }
    ensures fault { IfErr result (λ fault. fault ≡ no_memory) }
{
    reached(account.world());
    let verdict = account.verdict();
    let nodes = account.nodes(alloc)?;
    Ok(TraceReport {
        verdict: Ok(verdict),
        nodes,
    })
}

// The fault, where it is one of form; another one isn't told.
fn fault_told(alloc: Global, fault: TraceFault) -> Result<TraceReport, TraceFault>
    ensures told { IfOk result (λ told. (told.verdict ≡ Err fault) × (told.nodes.items ≡ [])
        × (is_of_form fault.cause ≡ true)) }
    ensures other { IfErr result (λ other. (other ≡ fault) × IsUntold fault) }
{
    if !is_of_form(fault.cause) {
        return Err(fault);
    }
    Ok(TraceReport {
        verdict: Err(fault),
        nodes: Vec::new(alloc),
    })
}

// Whether it is a fault of the trace's form.
fn is_of_form(cause: TraceCause) -> bool
    ensures { result ≡ is_of_form cause }
{
    match cause {
        TraceCause::BadHeader | TraceCause::BadRow | TraceCause::TooManyRows => true,
        TraceCause::Read | TraceCause::Write | TraceCause::OutOfMemory => false,
    }
}
