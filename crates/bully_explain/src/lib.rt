//! What a verdict saw: the sheet that explains a refused row, one that says something else than the group shows, a
//! fault of form, or a lawful trace.
//!
//! It builds on bully_account, which takes the rows and reports what they came to, on bully_draft, in which a sheet is
//! written, and on the crates below these. The program relies on two things: what is explained is what bully_account
//! reports of the trace, and its sheet starts with the row that decided and how it did. The sentences and the rules of
//! a sheet are tested.
#![tactic(auto)]

mod claim_rules;
mod context;
mod detail_rules;
mod differing;
mod explaining;
mod form_text;
mod point_words;
mod rules;
mod sentences;
mod sheet_text;
mod sides;
mod words;

pub use bully_account::{EventKind, NodeSheet, NodeSummary};
pub use explaining::{Sheet, account_sheet, explain};
pub use sheet_text::{account_rules, reason};
