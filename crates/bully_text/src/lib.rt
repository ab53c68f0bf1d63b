//! The text of a trace: how much of it is given to what reads its rows. A row that is too long to have a form ends it.
//!
//! It builds on memchr and the standard library. The program relies on this: what is given is the text up to the first
//! row that has too many bytes, and as many bytes of that row as a row may have.
#![tactic(auto)]

ghost use Rattle.std.specs.Prelude.{◌≡◌};
ghost use Rattle.bully_text.specs.declared.TheConstants.{ROW_BYTES_MAX};

mod bounded;

pub use bounded::BoundedRows;

/// The most bytes of a row, without what ends it. A row that has a form has fewer.
pub const ROW_BYTES_MAX: usize = 65_536;

/// The limit in numbers. The definitions cite the constant, and so say as much as this number.
pub fn limits()
    ensures { ROW_BYTES_MAX ≡ 65536 }
{}
