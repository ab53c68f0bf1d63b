ghost use Rattle.std.specs.Prelude.{◌≡◌, ℕ, List, [], None, Option, true, IfErr, IfOk, IfSome, IsSome, string_bytes};
ghost use Rattle.bully_account.specs.TraceReport.{IsUntold};
ghost use Rattle.bully_explain.specs.SheetText.{BeginsSheet, IsFormText, IsSheetOf};
ghost use Rattle.bully_rows.specs.RecordsLeft.{EndsReading, IsUnread};
ghost use Rattle.bully_rows.specs.Rows.{is_of_form};
ghost use Rattle.bully_text.specs.Bounded.{bounded_left};

use crate::form_text::form_text;
use crate::sheet_text::sheet_text;
use bully_account::{Account, NodeSheet, TailReader, TraceReport, tell};
use bully_base::OutOfMemory;
use bully_rows::{RowReader, TraceFault};
use bully_text::BoundedRows;
use bully_trace::Verdict;
use std::alloc::Global;
use std::io::Read;

/// What is told of a trace, a verdict or a fault of form; what its sheet shows of each node, from node 1 on, where it
/// is a verdict; and the text of the sheet.
#[derive(Drop)]
pub struct Sheet {
    pub told: Result<Verdict, TraceFault>,
    pub nodes: Vec<NodeSheet>,
    pub text: String,
}

/// Judges a trace as `check` does, and makes the sheet that explains the verdict, or a fault of form. Each row is
/// judged as it is read, and none is kept but the one that decides; of each node its last rows are remembered, and
/// where its call was started. Refused where there is nothing to explain: as `Read` where the reader fails, at the row
/// after those that were read; and as `OutOfMemory`, at row 0, where the account or the sheet can't be made. The rule:
/// docs/FORMATS.md.
pub fn explain<R: Read + Drop>(alloc: Global, reader: BoundedRows<R>) -> Result<Sheet, TraceFault>
    ensures told { IfOk result (λ sheet.
        IsSheetOf (bounded_left R.remaining reader) sheet.nodes.items (string_bytes sheet.text) sheet.told) }
    ensures form { IfOk result (λ sheet. IfErr sheet.told (λ fault. is_of_form fault.cause ≡ true)) }
    ensures sheets { IfOk result (λ sheet. IfErr sheet.told (λ fault. sheet.nodes.items ≡ [])) }
    ensures fault { IfErr result (EndsReading (bounded_left R.remaining reader)) }
    ensures untold { IfErr result IsUntold }
{
    let mut rows = RowReader::open(alloc, TailReader::new(reader));
    let mut account: Option<Account> = None;
    read_sheet(alloc, &mut rows, &mut account)
}

// The sheet of the rows of a text of which none was read. They are taken to the account, which their header makes.
fn read_sheet<R: Read + Drop>(
    alloc: Global,
    rows: &mut RowReader<TailReader<BoundedRows<R>>>,
    account: &mut Option<Account>,
) -> Result<Sheet, TraceFault>
    requires { account.old ≡ None }
    ensures told { (known : Option (List ℕ)) → IsUnread known rows.old
        → IfOk result (λ sheet. IsSheetOf known sheet.nodes.items (string_bytes sheet.text) sheet.told) }
    ensures form { IfOk result (λ sheet. IfErr sheet.told (λ fault. is_of_form fault.cause ≡ true)) }
    ensures sheets { IfOk result (λ sheet. IfErr sheet.told (λ fault. sheet.nodes.items ≡ [])) }
    ensures fault { (known : Option (List ℕ)) → IsUnread known rows.old → IfErr result (EndsReading known) }
    ensures untold { IfErr result IsUntold }
{
    let told = tell(alloc, rows, account)?;
    let text = text_of(alloc, rows, account, &told)?;
    Ok(Sheet {
        told: told.verdict,
        nodes: told.nodes,
        text,
    })
}

// The text of the sheet.
fn text_of<R: Read + Drop>(
    alloc: Global,
    rows: &RowReader<TailReader<BoundedRows<R>>>,
    account: &Option<Account>,
    told: &TraceReport,
) -> Result<String, OutOfMemory>
    requires { IfOk told.now.verdict (λ verdict. IsSome account.now) }
    ensures sheet { IfOk result (λ text.
        IfOk told.now.verdict (λ verdict. IfSome account.now (λ a. BeginsSheet a (string_bytes text)))) }
    ensures form { IfOk result (λ text. IfErr told.now.verdict (λ fault. IsFormText fault (string_bytes text))) }
{
    match (&told.verdict, account) {
        (Err(fault), _) => form_text(alloc, rows, account, *fault),
        (Ok(_), Some(account)) => sheet_text(alloc, account, told.nodes.as_slice()),
        (Ok(_), None) => unreachable!(),
    }
}

/// The sheet of what these rows came to: of the row that decided, where one did. Refused where an allocation fails.
pub fn account_sheet(alloc: Global, account: &Account) -> Result<String, OutOfMemory>
    ensures { IfOk result (λ text. BeginsSheet account.now (string_bytes text)) }
{
    let nodes = account.nodes(alloc)?;
    sheet_text(alloc, account, nodes.as_slice())
}
