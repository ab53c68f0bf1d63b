//! Task tables: the owner of each partition, as text, planned anew with the fewest moves, and in reserved room.
//!
//! It builds on bully_base. The crates above see a table as the list of its owners, and rely on two things:
//! `is_balanced` is the definition's balance, and a plan is balanced with the fewest moves.
#![tactic(auto)]

ghost use Rattle.bully_table.specs.EqualShares.{BalanceIsEven, PlannedIsEqual, QuotaIsEqual};

mod balance;
mod moving;
mod numeral;
mod pieces;
mod planning;
mod quotas;
mod reading;
mod room;
mod table;
mod takers;
mod text;

pub use numeral::read_number;
pub use pieces::Pieces;
pub use planning::{PlanFault, TablePlan, plan, plan_in};
pub use room::TableRoom;
pub use table::{Table, TableFault, copied};
pub use text::push_owners;

/// The laws of equal weights. Where all nodes weigh 1 and no task is kept, a table is balanced exactly where its owners
/// are members and the counts of any two members differ by one at most; and quotas and planned tables are those by the
/// number of members.
pub fn equal_weights()
    ensures balanced { BalanceIsEven }
    ensures quota { QuotaIsEqual }
    ensures planned { PlannedIsEqual }
{}
