ghost use Rattle.std.specs.Prelude.{ℕ, List, Option, IfErr, IfOk};
ghost use Rattle.bully_film.specs.Film.{AreAllFilmed, IsFilmOf};
ghost use Rattle.bully_film.specs.Window.{WindowState};
ghost use Rattle.bully_rows.specs.RecordsLeft.{EndsReading};
ghost use Rattle.bully_rows.specs.Rows.{OfTrace};

use crate::film::{Film, FinishedFilm};
use crate::window::Window;
use bully_base::OutOfMemory;
use bully_rows::{Header, NodeEvent, Row, RowReader, TraceFault, TraceSink, feed_trace};
use std::alloc::Global;
use std::io::Read;

/// Judges a trace as [`bully_trace::check`] does, and tells what the rows of the window show. Each row is judged as it
/// is read, and none is kept but the one that decides. Refused as [`bully_trace::check`] refuses the trace, where it
/// isn't for writing.
pub fn film_of<R: Read + Drop>(
    alloc: Global,
    reader: R,
    window: Window,
) -> Result<FinishedFilm, TraceFault>
    ensures told { IfOk result (λ finished. OfTrace (R.remaining reader) (IsFilmOf window finished)) }
    ensures fault { IfErr result (EndsReading (R.remaining reader)) }
{
    let film = film_text(alloc, reader, window)?;
    match finished_film(alloc, film) {
        Ok(finished) => Ok(finished),
        Err(short) => Err(TraceFault::from(short)),
    }
}

/// What a film of all rows of a text shows. Refused where an allocation fails.
pub fn finished_film(alloc: Global, film: Film) -> Result<FinishedFilm, OutOfMemory>
    ensures { (known : Option (List ℕ)) (window : WindowState) → AreAllFilmed known window film
        → IfOk result (λ finished. OfTrace known (IsFilmOf window finished)) }
{
    let mut film = film;
    film.close(alloc)?;
    Ok(film.into_finished(alloc))
}

// Films all rows of a text.
fn film_text<R: Read + Drop>(alloc: Global, reader: R, window: Window) -> Result<Film, TraceFault>
    ensures filmed { IfOk result (AreAllFilmed (R.remaining reader) window) }
    ensures fault { IfErr result (EndsReading (R.remaining reader)) }
{
    // (by a reference to a reference: so the reader of rows is of another type than those of `check` and of
    // `read_trace`, and is built into the loop over this film's rows)
    let mut reader = reader;
    let mut lent = &mut reader;
    let mut rows = RowReader::open(alloc, &mut lent);
    feed_trace(alloc, &mut rows, window)
}

// (an event that names a node and no more is filmed in the loop over the rows, and is never a `Row`, as in `check`)
impl<R: Read + Drop> TraceSink<R, Window> for Film {
    ghost use Rattle.bully_film.specs.Film.{HasFilmedBehind};

    ghost has_taken = { HasFilmedBehind };

    fn begin(alloc: Global, start: Window, header: Header) -> Result<Film, OutOfMemory> {
        Film::new(alloc, header, start)
    }

    #[inline(always)]
    fn feed_read_event(
        &mut self,
        alloc: Global,
        rows: &RowReader<R>,
        event: NodeEvent,
    ) -> Result<(), OutOfMemory> {
        self.feed_node_event(alloc, rows.number(), event)
    }

    fn feed_read_row(
        &mut self,
        alloc: Global,
        rows: &RowReader<R>,
        row: Row,
    ) -> Result<(), OutOfMemory> {
        self.feed_row(alloc, rows.number(), row)
    }
}
