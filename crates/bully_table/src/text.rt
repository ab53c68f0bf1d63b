//! Tables as text.
ghost use Rattle.std.specs.Prelude.{◌≡◌, ◌<◌, ◌++◌, OnOk, string_bytes};
ghost use Rattle.bully_table.specs.TableText.{owners_text};

use crate::table::Table;
use bully_base::OutOfMemory;

/// Appends the table's owners, with the separator, an ASCII character, between each two.
/// Refused where an allocation fails.
pub fn push_owners(text: &mut String, table: &Table, separator: char) -> Result<(), OutOfMemory>
    requires { separator < 128 }
    ensures { OnOk result (string_bytes text.new
        ≡ string_bytes text.old ++ owners_text separator table.now) }
{
    for place in 0..table.len() {
        if place > 0 {
            text.push(separator)?;
        }
        let owner = table.owner(place).number();
        write!(text, "{owner}")?;
    }
    Ok(())
}
