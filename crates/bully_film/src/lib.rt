//! Traces as films: of each row in a window what it shows, and the state of each node after each of these rows.
//!
//! It builds on bully_trace, whose judge decides, and on the crates below it. bully_picture, which draws a film, relies
//! on four things. The verdict is the trace's. The rows are those of the window. Each stretch of a node's lane has the
//! status of the node after each row of the stretch. And each stretch of its slot has the call that is there after each
//! row of the stretch.
#![tactic(auto)]

ghost use Rattle.bully_film.specs.Behind.{LeadsBehind};

mod distance;
mod film;
mod lane;
mod reading;
mod said;
mod scene;
mod slots;
mod snapshot;
mod stands;
mod stretches;
mod whole;
mod window;

pub use film::{Film, FinishedFilm, copy_row};
pub use lane::lane_of;
pub use reading::{film_of, finished_film};
pub use said::Said;
pub use scene::{Change, Scene};
pub use slots::{End, HeldCall, Holding, end_at};
pub use snapshot::{NodeSnapshot, snapshot_of};
pub use stands::{Bar, Stand};
pub use stretches::{Seen, Stretch, stretches_of};
pub use whole::{Lane, lanes, row_before};
pub use window::{WINDOW_MAX, WINDOW_ROWS, Window};

/// How many owners of a table are shown at most.
pub const OWNERS_SHOWN: u16 = 12;

/// The law of the world after the first rows of a trace. Where rows are judged, as [`bully_trace::check`] judges them,
/// the world that they are taken to is the one that the scenes and the lanes of a film show.
pub fn world_told()
    ensures { LeadsBehind }
{}
