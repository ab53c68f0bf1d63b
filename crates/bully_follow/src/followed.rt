//! An account that notes which nodes each row changed.

ghost use Rattle.std.specs.Prelude.{◌≡◌, IfOk, is_some};
ghost use Rattle.bully_account.specs.RowsOf.{event_in};

use crate::changes::{Changed, SeenBefore};
use bully_account::{Account, TailReader};
use bully_base::OutOfMemory;
use bully_rows::{Header, Row, RowReader, TraceSink};
use std::alloc::Global;
use std::io::Read;

/// An account, and which nodes the row that it took last changed.
#[derive(Drop)]
pub struct Followed {
    pub account: Account,
    pub changed: Changed,
}

impl<R: Read + Drop> TraceSink<TailReader<R>, ()> for Followed {
    ghost use Rattle.bully_follow.specs.Followed.{HasFollowed};

    ghost has_taken = { λ _. HasFollowed };

    fn begin(alloc: Global, _start: (), header: Header) -> Result<Followed, OutOfMemory> {
        Ok(Followed {
            account: Account::new(alloc, header)?,
            changed: Changed::none(),
        })
    }

    fn feed_read_row(
        &mut self,
        _alloc: Global,
        rows: &RowReader<TailReader<R>>,
        row: Row,
    ) -> Result<(), OutOfMemory> {
        match seen_before(&self.account, &row)? {
            Some(seen) => {
                self.account.feed_row(rows, row);
                self.changed = seen.changed(self.account.world());
            }
            None => {
                self.account.feed_row(rows, row);
                self.changed = Changed::none();
            }
        }
        Ok(())
    }
}

// What is seen before the row; nothing of a claim, which changes nothing.
fn seen_before(account: &Account, row: &Row) -> Result<Option<SeenBefore>, OutOfMemory>
    ensures { IfOk result (λ seen. is_some seen ≡ is_some (event_in row.now)) }
{
    let (kind, node) = match row {
        Row::Event(event) => (event.kind(), event.node()),
        Row::Detailed(event) => (event.event().kind(), event.node),
        Row::Claim(_) | Row::Whole(_) => return Ok(None),
    };
    Ok(Some(SeenBefore::of(account.world(), kind, node)?))
}
