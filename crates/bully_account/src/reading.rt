ghost use Rattle.std.specs.Prelude.{◌≡◌, ℕ, List, Option, None, IfErr, OnOk};
ghost use Rattle.bully_account.specs.Accounts.{AreTakenToEnd};
ghost use Rattle.bully_rows.specs.RecordsLeft.{EndsReading, IsUnread};

use crate::Account;
use crate::tail::TailReader;
use bully_base::OutOfMemory;
use bully_rows::{Header, Row, RowReader, TraceFault, TraceFeed, TraceSink, feed_text};
use std::alloc::Global;
use std::io::Read;

/// Takes all rows of a text to the account, which the header makes. Refused as `check` refuses the trace; the account
/// is then that of the rows before the one at fault.
pub fn read_each<R: Read + Drop>(
    alloc: Global,
    rows: &mut RowReader<TailReader<R>>,
    account: &mut Option<Account>,
) -> Result<(), TraceFault>
    requires { account.old ≡ None }
    ensures taken { (known : Option (List ℕ)) → IsUnread known rows.old
        → OnOk result (AreTakenToEnd known account.new) }
    ensures fault { (known : Option (List ℕ)) → IsUnread known rows.old → IfErr result (EndsReading known) }
{
    let mut feed: TraceFeed<(), Account> = TraceFeed {
        start: (),
        begun: None,
    };
    let taken = feed_text(alloc, rows, &mut feed);
    if let Some(begun) = feed.begun {
        *account = Some(begun.sink);
    }
    taken
}

impl<R: Read + Drop> TraceSink<TailReader<R>, ()> for Account {
    ghost use Rattle.bully_account.specs.Accounts.{HasTakenBehind};

    ghost has_taken = { λ _. HasTakenBehind };

    fn begin(alloc: Global, _start: (), header: Header) -> Result<Account, OutOfMemory> {
        Account::new(alloc, header)
    }

    fn feed_read_row(
        &mut self,
        _alloc: Global,
        rows: &RowReader<TailReader<R>>,
        row: Row,
    ) -> Result<(), OutOfMemory> {
        self.feed_row(rows, row);
        Ok(())
    }
}
