//! What a sheet is drafted with: a text in the making, and what comes from outside as it is shown, a row among it.
//! Where a row breaks its form, in words. And the sheet that explains the first fault of a configuration, which needs
//! no account of a trace.
//!
//! It builds on bully_config, whose refusals it explains, on bully_rows, in whose form it writes rows and their parts,
//! and on the crates below these. bully_explain and the program rely on five things. A draft has exactly what was
//! appended. What comes from outside ends no line. A row is shown as defined, in printed ASCII characters. The first
//! refusal of a configuration is the one that is told. And its sheet is lines without controls, one if there is a
//! document. The sentences are tested.
#![tactic(auto)]

mod config;
mod config_text;
mod draft;
mod form;
mod form_words;
mod row_shown;
mod shown;

pub use config::{ConfigSheet, explain_config};
pub use draft::Draft;
pub use form_words::{push_header_misfit, push_row_misfit};
pub use row_shown::push_row_shown;
pub use shown::push_shown;
