ghost use Rattle.std.specs.Prelude.{ℕ, List, Option, IfErr, IfOk};
ghost use Rattle.bully.specs.Filming.{HasFilmedWithAccount};
ghost use Rattle.bully_film.specs.Film.{AreAllFilmed, IsFilmOf};
ghost use Rattle.bully_film.specs.Window.{WindowState};
ghost use Rattle.bully_rows.specs.Feeding.{IsWhollyTaken};
ghost use Rattle.bully_rows.specs.RecordsLeft.{EndsReading};
ghost use Rattle.bully_rows.specs.Rows.{OfTrace};

use bully_account::{Account, TailReader};
use bully_base::OutOfMemory;
use bully_explain::account_rules;
use bully_film::{Film, FinishedFilm, Window, copy_row, film_of, finished_film};
use bully_rows::{Header, Row, RowReader, TraceFault, TraceSink, feed_trace};
use std::alloc::Global;
use std::io::Read;

/// What a film of a trace shows, and the lines of the rules that the row breaks which decided; none where they weren't
/// asked for.
#[derive(Drop)]
pub struct RuledFilm {
    pub finished: FinishedFilm,
    pub rules: String,
}

/// Films a trace as [`film_of`] does, without rules.
pub fn film_alone<R: Read + Drop>(
    alloc: Global,
    reader: R,
    window: Window,
) -> Result<RuledFilm, TraceFault>
    ensures told { IfOk result (λ film. OfTrace (R.remaining reader) (IsFilmOf window film.finished)) }
    ensures fault { IfErr result (EndsReading (R.remaining reader)) }
{
    let finished = film_of(alloc, reader, window)?;
    let rules = String::new(alloc);
    Ok(RuledFilm { finished, rules })
}

/// The same with the rules, for which an account takes the rows, too.
pub fn film_with_rules<R: Read + Drop>(
    alloc: Global,
    reader: R,
    window: Window,
) -> Result<RuledFilm, TraceFault>
    ensures told { IfOk result (λ film. OfTrace (R.remaining reader) (IsFilmOf window film.finished)) }
    ensures fault { IfErr result (EndsReading (R.remaining reader)) }
{
    let FilmWithAccount { film, account } = film_text(alloc, reader, window)?;
    match ruled_film(alloc, film, &account) {
        Ok(film) => Ok(film),
        Err(short) => Err(TraceFault::from(short)),
    }
}

// What a film of all rows of a text shows, with the rules by their account.
fn ruled_film(alloc: Global, film: Film, account: &Account) -> Result<RuledFilm, OutOfMemory>
    ensures told { (known : Option (List ℕ)) (window : WindowState) → AreAllFilmed known window film
        → IfOk result (λ film. OfTrace known (IsFilmOf window film.finished)) }
{
    let finished = finished_film(alloc, film)?;
    let rules = account_rules(alloc, account)?;
    Ok(RuledFilm { finished, rules })
}

// Films all rows of a text, and takes them to an account.
fn film_text<R: Read + Drop>(
    alloc: Global,
    reader: R,
    window: Window,
) -> Result<FilmWithAccount, TraceFault>
    ensures taken { IfOk result (IsWhollyTaken (HasFilmedWithAccount window) (R.remaining reader)) }
    ensures fault { IfErr result (EndsReading (R.remaining reader)) }
{
    let mut rows = RowReader::open(alloc, TailReader::new(reader));
    feed_trace(alloc, &mut rows, window)
}

// A film of rows, and their account.
#[derive(Drop)]
struct FilmWithAccount {
    film: Film,
    account: Account,
}

impl<R: Read + Drop> TraceSink<TailReader<R>, Window> for FilmWithAccount {
    ghost has_taken = { HasFilmedWithAccount };

    fn begin(alloc: Global, start: Window, header: Header) -> Result<FilmWithAccount, OutOfMemory> {
        Ok(FilmWithAccount {
            film: Film::new(alloc, header, start)?,
            account: Account::new(alloc, header)?,
        })
    }

    fn feed_read_row(
        &mut self,
        alloc: Global,
        rows: &RowReader<TailReader<R>>,
        row: Row,
    ) -> Result<(), OutOfMemory> {
        self.account.feed_row(rows, copy_row(alloc, &row)?);
        self.film.feed_row(alloc, rows.number(), row)
    }
}
