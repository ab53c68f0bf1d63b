ghost use Rattle.std.specs.Prelude.{◌≡◌, ◌≤◌, length};
ghost use Rattle.bully_play.specs.Play.{trace_setup};
ghost use Rattle.bully_rows.specs.Trace.{trace_for};
ghost use Rattle.bully_rows.specs.declared.TheConstants.{ROWS_MAX};

use bully_base::{EVENTS_MAX, Setup};
use bully_rows::{Row, Rows, Trace};

/// The trace with these rows, at most [`bully_rows::ROWS_MAX`]. It has version 1 where that can tell the setup, and
/// else version 2. No header has a bound on events, so that is the profile's.
pub fn trace_with(setup: &Setup, rows: Vec<Row>) -> Trace
    requires { length rows.items ≤ ROWS_MAX }
    ensures { result ≡ trace_for (trace_setup setup.now) rows.items }
{
    Trace::new(setup.with_events_max(EVENTS_MAX), Rows::from_vec(rows))
}
