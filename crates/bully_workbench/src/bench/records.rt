use csv::{ByteRecord, Reader, ReaderBuilder};
use std::alloc::Global;
use std::io::Read;

/// How many records `csv` finds in an input, read as `bully check` reads it. None where the reader or an allocation
/// fails.
pub fn count_records<R: Read + Drop>(alloc: Global, input: R) -> Option<u64> {
    let mut records = ReaderBuilder::new()
        .has_headers(false)
        .flexible(true)
        .from_reader(alloc, input);
    let mut record = ByteRecord::new(alloc);
    count_into(&mut records, &mut record)
}

// The same, each record read into this one.
fn count_into<R: Read>(records: &mut Reader<R>, record: &mut ByteRecord) -> Option<u64> {
    for count in 0..u64::MAX {
        if !records.read_byte_record(record).ok()? {
            return Some(count);
        }
    }
    None
}
