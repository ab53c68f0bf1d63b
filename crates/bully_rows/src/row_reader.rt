ghost use Rattle.std.specs.Prelude.{◌≡◌, ◌≢◌, ◌⊎◌, ◌+◌, ◌≤◌, ℕ, List, Option, None, Some, true, length, IfErr, IfOk};
ghost use Rattle.std.specs.Prelude.{IfSome};
ghost use Rattle.csv.specs.Records.{fields_of};
ghost use Rattle.bully_base.specs.Setup.{Setup as SetupState};
ghost use Rattle.bully_rows.specs.Headers.{header_of};
ghost use Rattle.bully_calls.specs.Events.{event_at};
ghost use Rattle.bully_rows.specs.Rows.{fault_at, row_of};
ghost use Rattle.bully_rows.specs.declared.TheConstants.{ROWS_MAX};
ghost use Rattle.bully_rows.specs.declared.header.Header.{Header as HeaderState};
ghost use Rattle.bully_rows.specs.declared.trace.Row.{Row as RowState};
ghost use Rattle.bully_rows.specs.RecordsLeft.{EndsReading, HasRead, IsOutside, IsUnread, ReadsPlain, Takes};
ghost use Rattle.bully_rows.specs.RecordsLeft.{records_left, rows_left};

use crate::ROWS_MAX;
use crate::header::{Header, Version, read_header};
use crate::node_event::NodeEvent;
use crate::row::{read_node_event, read_other_row};
use crate::trace::{Row, TraceCause, TraceFault};
use bully_base::{OutOfMemory, Setup};
use csv::{ByteRecord, ErrorKind, Position, Reader, ReaderBuilder};
use std::alloc::{AllocError, Global};
use std::io::Read;
use std::marker::Model;

/// The rows of a trace, one by one. The first is its header.
#[derive(Drop)]
pub struct RowReader<R: Read> {
    records: Reader<R>,
    // The fields of the record that was read last.
    fields: ByteRecord,
    // The number of the row that was read last, 0 before the first.
    number: u32,
}

impl<R: Read> Model for RowReader<R> {
    ghost use Rattle.std.specs.Prelude.{◌+◌, ◌≤◌};
    ghost use Rattle.csv.specs.Records.{fields_of};
    ghost use Rattle.bully_rows.specs.declared.TheConstants.{ROWS_MAX};
    ghost use Rattle.bully_rows.specs.RecordsLeft.{ReadSoFar, ReadsPlain, records_left};

    ghost Value = { ReadSoFar };

    ghost view = { λ r.
        record { number = r.number; fields = fields_of r.fields; records = records_left R.remaining r.records } };

    ghost invariant = { λ r. ReadsPlain r.records × (r.number ≤ ROWS_MAX + 1) };
}

impl<R: Read + Drop> RowReader<R> {
    /// A reader before the first row.
    pub fn open(alloc: Global, reader: R) -> RowReader<R>
        ensures { IsUnread (R.remaining reader) result }
    {
        RowReader {
            records: ReaderBuilder::new()
                .has_headers(false)
                .flexible(true)
                .from_reader(alloc, reader),
            fields: ByteRecord::new(alloc),
            number: 0,
        }
    }

    /// The number of the row that was read last, 0 before the first. The header's is 1.
    pub fn number(&self) -> u32
        ensures { result ≡ self.now.number }
    {
        self.number
    }

    /// The fields of the row that was read last; none before the first.
    pub fn fields(&self) -> &ByteRecord
        ensures { fields_of result.now ≡ self.now.fields }
    {
        &self.fields
    }

    /// The reader that the text comes from. It may have given more than the rows that were read.
    pub fn source(&self) -> &R {
        self.records.get_ref()
    }

    /// Where the row that was read last ends, after its line end: how many bytes come before, and the line from 1,
    /// which `csv` counts by line feeds.
    pub fn end(&self) -> Position {
        self.records.position()
    }

    /// Reads the next row, and tells whether there is one. Refused as [`crate::read_trace`] refuses it there, but for
    /// what its fields mean.
    pub fn advance(&mut self) -> Result<bool, TraceFault>
        ensures takes { IfOk result (λ found. Takes self.old.records self.new.records found self.new.fields) }
        ensures counted { IfOk result (λ found. found ≡ true
            → (self.old.number ≤ ROWS_MAX) × (self.new.number ≡ self.old.number + 1)) }
        ensures why { IfErr result (λ fault. IsOutside fault
            ⊎ ((fault.cause ≡ TraceCause.TooManyRows) × (self.old.number ≡ ROWS_MAX + 1))) }
        ensures first { (known : Option (List ℕ)) → IsUnread known self.old → IfErr result (EndsReading known) }
        ensures fault { (known : Option (List ℕ)) (rows : List RowState) (header : HeaderState)
            → HasRead known rows (rows_left header self.old) → IfErr result (EndsReading known) }
    {
        let number = self.number + 1;
        if !next_record(&mut self.records, &mut self.fields, number)? {
            return Ok(false);
        }
        if number > ROWS_MAX + 1 {
            return Err(fault(number, TraceCause::TooManyRows));
        }
        self.number = number;
        Ok(true)
    }

    /// What the row read last tells as a header. Refused as `BadHeader` where it is none.
    pub fn header(&self) -> Result<Header, TraceFault>
        ensures ok { IfOk result (λ header. header_of self.now.fields ≡ Some header) }
        ensures fault { IfErr result (λ fault. (header_of self.now.fields ≡ None)
            × (fault ≡ fault_at 1 TraceCause.BadHeader)) }
    {
        read_header(&self.fields).ok_or(no_header())
    }

    /// The event that the row read last tells in a trace of this version, where it has two fields; none where it has
    /// others, or no form that the profile lists.
    pub fn node_event(&self, version: Version) -> Option<NodeEvent>
        ensures event { (setup : SetupState) → IfSome result (λ e.
            row_of version setup self.now.fields ≡ Some (RowState.Event (event_at e.kind e.node))) }
        ensures none { (setup : SetupState) → result ≡ None → length self.now.fields ≡ 2
            → row_of version setup self.now.fields ≡ None }
    {
        read_node_event(version, &self.fields)
    }

    /// What the row read last means in a trace of this version and this setup where it has other than two fields; none
    /// where it has two, or no form that the profile lists. Refused where an allocation fails.
    pub fn other_row(
        &self,
        alloc: Global,
        version: Version,
        setup: &Setup,
    ) -> Result<Option<Row>, OutOfMemory>
        ensures two { length self.now.fields ≡ 2 → IfOk result (λ row. row ≡ None) }
        ensures other { length self.now.fields ≢ 2
            → IfOk result (λ row. row ≡ row_of version setup.now self.now.fields) }
    {
        read_other_row(alloc, version, setup, &self.fields)
    }

    /// The fault of a row of no form, at the one read last.
    pub fn bad_row(&self) -> TraceFault
        ensures { result ≡ fault_at self.now.number TraceCause.BadRow }
    {
        fault(self.number, TraceCause::BadRow)
    }
}

/// The fault of a trace without a header.
pub fn no_header() -> TraceFault
    ensures { result ≡ fault_at 1 TraceCause.BadHeader }
{
    fault(1, TraceCause::BadHeader)
}

// Reads the record of the row of this number; tells whether there is one.
fn next_record<R: Read + Drop>(
    records: &mut Reader<R>,
    fields: &mut ByteRecord,
    number: u32,
) -> Result<bool, TraceFault>
    requires { ReadsPlain records.old }
    ensures plain { ReadsPlain records.new }
    ensures takes { IfOk result (λ found. Takes (records_left R.remaining records.old)
        (records_left R.remaining records.new) found (fields_of fields.new)) }
    ensures fault { IfErr result IsOutside }
    ensures read { IfErr result (λ f. f.cause ≡ TraceCause.Read → f.row ≡ number) }
{
    match &records.read_byte_record(fields) {
        Ok(found) => Ok(*found),
        Err(error) => match error.kind() {
            ErrorKind::Io(_) => Err(fault(number, TraceCause::Read)),
            ErrorKind::OutOfMemory => Err(TraceFault::from(AllocError)),
            _ => unreachable!(),
        },
    }
}

// The fault at a row.
fn fault(row: u32, cause: TraceCause) -> TraceFault
    ensures { result ≡ fault_at row cause }
{
    TraceFault { row, cause }
}
