ghost use Rattle.std.specs.Prelude.{IfOk, string_bytes};
ghost use Rattle.bully_explain.specs.SheetText.{AppendsForm, IsFormText};

use crate::words::push_row_place;
use bully_account::{Account, TailReader, line_of, opened_at};
use bully_base::OutOfMemory;
use bully_draft::{Draft, push_header_misfit, push_row_misfit, push_row_shown};
use bully_rows::{ROWS_MAX, RowReader, TraceCause, TraceFault};
use bully_text::{BoundedRows, ROW_BYTES_MAX};
use csv::ByteRecord;
use std::alloc::Global;
use std::io::Read;

/// The sheet of a fault of form, as text: the row at which it is, the field, and what may stand there.
#[tactic(auto, using(crate::proofs::SheetLemmas::form_more))]
pub fn form_text<R: Read + Drop>(
    alloc: Global,
    rows: &RowReader<TailReader<BoundedRows<R>>>,
    account: &Option<Account>,
    fault: TraceFault,
) -> Result<String, OutOfMemory>
    ensures { IfOk result (λ text. IsFormText fault (string_bytes text)) }
{
    let mut text = form_head(alloc, rows, fault)?;
    let rest = form_rest(alloc, rows, account, fault.cause)?;
    text.push_str(rest.as_str())?;
    Ok(text)
}

// How the sheet starts: with the row and its place, or that there is none, and the fault.
#[tactic(auto, using(crate::proofs::SheetLemmas::form_whole))]
fn form_head<R: Read + Drop>(
    alloc: Global,
    rows: &RowReader<TailReader<BoundedRows<R>>>,
    fault: TraceFault,
) -> Result<String, OutOfMemory>
    ensures { IfOk result (λ text. IsFormText fault (string_bytes text)) }
{
    let mut text = Draft::new(alloc);
    push_form_head(&mut text, rows, fault);
    text.finish()
}

// Appends the same.
fn push_form_head<R: Read + Drop>(
    text: &mut Draft,
    rows: &RowReader<TailReader<BoundedRows<R>>>,
    fault: TraceFault,
)
    ensures { AppendsForm fault text.old text.new }
{
    if rows.number() == 0 {
        return push_no_row(text, fault);
    }
    let line = line_of(rows.source(), rows.end(), rows.fields());
    push_faulty_row(text, line, rows.fields(), fault);
}

// Appends that there is no row, at which the fault is.
fn push_no_row(text: &mut Draft, fault: TraceFault)
    ensures { AppendsForm fault text.old text.new }
{
    text.push_between("row ", fault.row, ": there is none");
    text.push_between("\n", fault.cause, ": ");
}

// Appends the row at which the fault is, which starts at this line and has these fields, and the fault.
fn push_faulty_row(text: &mut Draft, line: u64, fields: &ByteRecord, fault: TraceFault)
    ensures { AppendsForm fault text.old text.new }
{
    push_row_place(text, fault.row, line);
    push_row_shown(text, fields);
    text.push_between("\n", fault.cause, ": ");
}

// What comes after the head of the sheet: why the row at the fault, or the lack of one, makes no trace.
fn form_rest<R: Read + Drop>(
    alloc: Global,
    rows: &RowReader<TailReader<BoundedRows<R>>>,
    account: &Option<Account>,
    cause: TraceCause,
) -> Result<String, OutOfMemory> {
    let mut text = Draft::new(alloc);
    if rows.number() == 0 {
        text.push_str(
            "a trace begins with a header, as bully,1,3,12: the word bully, the version, how many nodes and how many \
             partitions there are",
        );
    } else if !push_unended(&mut text, rows) {
        push_why(&mut text, rows.fields(), account, cause);
    }
    text.push_str("\n");
    text.finish()
}

// Appends why the row read last has no end, and tells whether it has none: a quote in it is never closed, or it has
// more bytes than it may.
fn push_unended<R: Read + Drop>(
    text: &mut Draft,
    rows: &RowReader<TailReader<BoundedRows<R>>>,
) -> bool {
    let source = rows.source();
    let bounded = source.reader();
    if !source.ends_at(rows.end()) || !(bounded.is_in_quotes() || bounded.is_cut()) {
        return false;
    }
    if bounded.is_in_quotes() {
        let line = opened_at(rows.end(), rows.fields());
        text.push_between("a quote was opened in line ", line, " and never closed");
    }
    if bounded.is_in_quotes() && bounded.is_cut() {
        text.push_str(": ");
    }
    if bounded.is_cut() {
        text.push_between("the row has more than ", ROW_BYTES_MAX, " bytes");
    }
    true
}

// Appends why the row of these fields is none of a trace. Of no other cause is there a sheet.
fn push_why(text: &mut Draft, fields: &ByteRecord, account: &Option<Account>, cause: TraceCause) {
    match (cause, account) {
        (TraceCause::BadHeader, _) => push_header_misfit(text, fields),
        (TraceCause::BadRow, Some(account)) => {
            push_row_misfit(text, fields, account.version(), account.world().setup());
        }
        (TraceCause::TooManyRows, _) => {
            text.push_between("a trace has at most ", ROWS_MAX, " rows after its header");
        }
        _ => {}
    }
}
