//! Pictures of traces: a lane for each node, and what each row of a window does there, as SVG or as text for a
//! terminal.
//!
//! It builds on bully_film, which keeps what the rows of the window show, and on the crates below it. The sentence
//! below a row that decided is the caller's. The program relies on two things. The verdict in the title is that of the
//! film, which is the trace's. And what was filmed is drawn: the number of each row that is shown, what it says and
//! does, each node's name, its state after each row, and each call. A picture for a terminal is exactly its lines.
//! Names go in escaped. How a picture looks is looked at.
#![tactic(auto)]

mod around;
mod arrows;
mod boxes;
mod canvas;
mod claims;
mod columns;
mod escaping;
mod lanes;
mod layout;
mod marks;
mod page;
mod paper;
mod words;

pub use around::Around;
pub use claims::{Claims, is_shown};
pub use columns::text_picture;
pub use escaping::push_escaped;
pub use lanes::name_at;
pub use page::{push_title, svg_picture};
pub use paper::Paper;
pub use words::{is_same_stand, kind_text, push_followed, push_meaning, push_said};
