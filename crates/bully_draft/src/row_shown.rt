//! A row as a sheet shows it.
ghost use Rattle.std.specs.Prelude.{◌≡◌, ◌+◌, ◌<◌, MatchOption, length, map, take};
ghost use Rattle.csv.specs.Records.{fields_of};
ghost use Rattle.bully_draft.specs.Drafted.{Appends};
ghost use Rattle.bully_draft.specs.Shown.{AllPrinted, parted, row_shown, shown_byte};

use crate::draft::Draft;
use crate::form::field_at;
use csv::ByteRecord;

/// How many bytes of a row's text are shown.
const SHOWN_MAX: usize = 60;

/// Appends the text of a row: its fields, parted by commas, up to 60 bytes, and two dots if that isn't all. A byte that
/// is no printed ASCII character is shown as a question mark.
pub fn push_row_shown(text: &mut Draft, fields: &ByteRecord)
    ensures shown { Appends text.old text.new (row_shown (fields_of fields.now)) }
    ensures printed { AllPrinted (row_shown (fields_of fields.now)) }
{
    let mut room = SHOWN_MAX;
    for place in 0..fields.len() {
        let Some(left) = push_field(text, place, field_at(fields, place), room) else {
            return text.push_str("..");
        };
        room = left;
    }
}

// Appends the field at this place, after a comma if there is one before it, up to so many bytes; and tells how many
// may follow, or none if it isn't all there.
fn push_field(text: &mut Draft, place: usize, field: &[u8], room: usize) -> Option<usize>
    ensures shown { Appends text.old text.new (map shown_byte (take room (parted place field.now))) }
    ensures room { MatchOption result (room < length (parted place field.now)) (λ left.
        left + length (parted place field.now) ≡ room) }
{
    let mut left = room;
    if place > 0 {
        left = room.checked_sub(1)?;
        text.push_str(",");
    }
    text.push_bytes(&field[..field.len().min(left)]);
    left.checked_sub(field.len())
}
