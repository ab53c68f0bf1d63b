ghost use Rattle.std.specs.Prelude.{◌≡◌, ℕ, List, Option, None, Some, IfErr, IfOk, OnOk, string_bytes};
ghost use Rattle.std.specs.Io.KnownBytes.{Appends};
ghost use Rattle.bully_world.specs.State.{world_of};
ghost use Rattle.bully_follow.specs.LastText.{IsExplainedTold, IsLastText, lawful_told};
ghost use Rattle.bully_follow.specs.Lines.{IsRowTold, row_told, tells_room};
ghost use Rattle.bully_follow.specs.declared.followed.Followed.{Followed as FollowedState};
ghost use Rattle.bully_follow.specs.Followed.{IsEnded, IsFollowFault, IsFollowedAs, fault_in};
ghost use Rattle.bully_rows.specs.RecordsLeft.{IsUnread};
ghost use Rattle.bully_rows.specs.Rows.{IsOfWriting};

use crate::explainer::Explainer;
use crate::followed::Followed;
use crate::lines::Telling;
use crate::{ROOM_FROM, ROOM_STEP};
use bully_account::{Account, TailReader};
use bully_base::OutOfMemory;
use bully_json::{sheet_line, verdict_line};
use bully_rows::{
    ROWS_MAX, RowReader, RowSink, TraceFault, TraceFeed, feed_each, no_header, not_written,
};
use bully_trace::{Verdict, verdict_lines};
use bully_world::World;
use jiff::Timestamp;
use std::alloc::Global;
use std::io::{Read, Write};
use std::rt::Clock;

/// Why no further row is taken.
#[derive(Clone, Copy)]
enum Stop {
    /// The row that was taken last decided: this is the verdict.
    Decided(Verdict),
    /// A row can't be read or isn't taken, or what changed can't be told.
    Fault(TraceFault),
}

impl From<TraceFault> for Stop {
    ghost use Rattle.std.specs.Prelude.{◌≡◌};
    ghost use Rattle.bully_follow.specs.declared.following.Stop.{Stop};

    ghost from_gives = { λ fault stop. stop ≡ Stop.Fault fault };

    fn from(fault: TraceFault) -> Stop {
        Stop::Fault(fault)
    }
}

/// What takes the rows and tells on the output what they changed.
#[derive(Drop)]
struct Live<'a, C: Clock, W: Write> {
    clock: &'a C,
    output: W,
    telling: Telling,
    text: TraceFeed<(), Followed>,
}

impl<'a, C: Clock, R: Read + Drop, W: Write> RowSink<TailReader<R>> for Live<'a, C, W> {
    ghost use Rattle.std.specs.Prelude.{◌≡◌};
    ghost use Rattle.bully_follow.specs.Followed.{Refuses, TakesFollowed};

    type Fault = Stop;

    ghost takes = { λ reader before after. TakesFollowed reader before.text.begun after.text.begun };

    ghost refuses = { λ reader before after stop. Refuses reader before.text.begun after.text.begun stop };

    fn feed(&mut self, alloc: Global, rows: &RowReader<TailReader<R>>) -> Result<(), Stop> {
        self.text.feed(alloc, rows)?;
        let Some(begun) = &self.text.begun else {
            return Ok(());
        };
        let followed = &begun.sink;
        let row = rows.number();
        tell(
            self.clock,
            alloc,
            self.telling,
            followed,
            row,
            &mut self.output,
        )?;
        let verdict = followed.account.verdict();
        if verdict.decides(row) {
            Err(Stop::Decided(verdict))
        } else {
            Ok(())
        }
    }
}

// Tells what the row of this number changed, and from some row on how many a trace has room for.
fn tell<C: Clock, W: Write>(
    clock: &C,
    alloc: Global,
    telling: Telling,
    followed: &Followed,
    row: u32,
    output: &mut W,
) -> Result<(), TraceFault>
    ensures told { OnOk result (IsRowTold telling row followed.now (W.contents output.old) (W.contents output.new)) }
    ensures fault { IfErr result IsOfWriting }
{
    if !followed.changed.is_any() && !tells_room(row) {
        return Ok(());
    }
    let time = time_text(clock, alloc)?;
    let text = row_text(alloc, telling, time.as_str(), followed, row)?;
    put(text.as_str(), output)
}

// Whether it is told after the row of this number how many a trace has room for.
fn tells_room(row: u32) -> bool
    ensures { result ≡ tells_room row }
{
    row >= ROOM_FROM && row % ROOM_STEP == 0
}

// What is told after the row of this number, which came at this time.
fn row_text(
    alloc: Global,
    telling: Telling,
    time: &str,
    followed: &Followed,
    row: u32,
) -> Result<String, OutOfMemory>
    ensures { IfOk result (λ text. string_bytes text ≡ row_told telling time.now row followed.now) }
{
    let mut text = String::new(alloc);
    let world = followed.account.world();
    telling.push_changed(&mut text, time, row, world, followed.changed)?;
    if tells_room(row) {
        let room = (ROWS_MAX + 1).saturating_sub(row);
        telling.push_room(&mut text, time, row, room)?;
    }
    Ok(text)
}

// The time, as `2026-11-27T15:34:19.123Z`; a dash where the clock can't be read. Refused where an allocation fails.
fn time_text<C: Clock>(clock: &C, alloc: Global) -> Result<String, OutOfMemory> {
    let mut text = String::new(alloc);
    match Timestamp::now(clock) {
        Ok(time) => write!(text, "{time:.3}")?,
        Err(_) => text.push('-')?,
    }
    Ok(text)
}

// Writes the text at once.
fn put<W: Write>(text: &str, output: &mut W) -> Result<(), TraceFault>
    ensures written { OnOk result (Appends (W.contents output.old) (W.contents output.new) text.now) }
    ensures fault { IfErr result IsOfWriting }
{
    if let Err(error) = output.write_all(text.as_bytes()) {
        return Err(not_written(error));
    }
    match output.flush() {
        Ok(()) => Ok(()),
        Err(error) => Err(not_written(error)),
    }
}

/// Judges a trace row by row as it is read, and writes a line for each change of a node's status, coordinator or task;
/// then, at its end, what `check` writes. The first row that is refused or differs ends it: what explains it is written
/// then. Memory is that of an account. Refused as `check` refuses the rows that were read; as `Write` where the output
/// fails.
pub fn follow<C: Clock, X: Explainer, R: Read + Drop, W: Write + Drop>(
    clock: &C,
    explainer: &X,
    alloc: Global,
    telling: Telling,
    reader: R,
    output: W,
) -> Result<Verdict, TraceFault>
    ensures verdict { IfOk result (IsFollowedAs (R.remaining reader)) }
    ensures fault { IfErr result (IsFollowFault (R.remaining reader)) }
{
    let mut rows = RowReader::open(alloc, TailReader::new(reader));
    let mut live = Live {
        clock,
        output,
        telling,
        text: TraceFeed {
            start: (),
            begun: None,
        },
    };
    follow_rows(explainer, alloc, &mut rows, &mut live)
}

// Follows the rows of a text, of which none was read.
// (what must be dropped is owned by the function above)
fn follow_rows<C: Clock, X: Explainer, R: Read + Drop, W: Write>(
    explainer: &X,
    alloc: Global,
    rows: &mut RowReader<TailReader<R>>,
    live: &mut Live<'_, C, W>,
) -> Result<Verdict, TraceFault>
    requires { live.old.text.begun ≡ None }
    ensures verdict { (known : Option (List ℕ)) → IsUnread known rows.old → IfOk result (IsFollowedAs known) }
    ensures fault { (known : Option (List ℕ)) → IsUnread known rows.old → IfErr result (IsFollowFault known) }
{
    let ended = feed_each(alloc, rows, live);
    match &live.text.begun {
        Some(begun) => {
            let account = &begun.sink.account;
            finish(
                explainer,
                alloc,
                live.telling,
                ended,
                account,
                &mut live.output,
            )
        }
        None => Err(fault_of(ended)),
    }
}

// Writes what is told at the end of the rows, or after the one that decided, and tells the verdict.
fn finish<X: Explainer, W: Write>(
    explainer: &X,
    alloc: Global,
    telling: Telling,
    ended: Result<(), Stop>,
    account: &Account,
    output: &mut W,
) -> Result<Verdict, TraceFault>
    ensures verdict { (known : Option (List ℕ)) (followed : FollowedState) → followed.account ≡ account.now
        → IsEnded known ended (Some followed) → IfOk result (IsFollowedAs known) }
    ensures last { IfOk result (λ verdict. (text : List ℕ) × IsLastText X.explains telling account.now verdict text
        × Appends (W.contents output.old) (W.contents output.new) text) }
    ensures fault { (known : Option (List ℕ)) (followed : Option FollowedState) → IsEnded known ended followed
        → IfErr result (IsFollowFault known) }
{
    let verdict = match ended {
        Ok(()) => account.verdict(),
        Err(stop) => match stop {
            Stop::Decided(verdict) => verdict,
            Stop::Fault(fault) => return Err(fault),
        },
    };
    write_last(explainer, alloc, telling, verdict, account, output)?;
    Ok(verdict)
}

// The fault of a text whose header wasn't taken.
fn fault_of(ended: Result<(), Stop>) -> TraceFault
    ensures { result ≡ fault_in ended }
{
    match ended {
        Err(Stop::Fault(fault)) => fault,
        _ => no_header(),
    }
}

// Writes the verdict as `check` does, or what explains it.
fn write_last<X: Explainer, W: Write>(
    explainer: &X,
    alloc: Global,
    telling: Telling,
    verdict: Verdict,
    account: &Account,
    output: &mut W,
) -> Result<(), TraceFault>
    ensures written { OnOk result ((text : List ℕ) × IsLastText X.explains telling account.now verdict text
        × Appends (W.contents output.old) (W.contents output.new) text) }
    ensures fault { IfErr result IsOfWriting }
{
    let text = last_text(explainer, alloc, telling, verdict, account)?;
    put(text.as_str(), output)
}

// The verdict as `check` writes it, or what explains it.
fn last_text<X: Explainer>(
    explainer: &X,
    alloc: Global,
    telling: Telling,
    verdict: Verdict,
    account: &Account,
) -> Result<String, OutOfMemory>
    ensures { IfOk result (λ text. IsLastText X.explains telling account.now verdict (string_bytes text)) }
{
    match verdict {
        Verdict::Lawful(_) => lawful_text(alloc, telling, verdict, account.world()),
        Verdict::Refused(_, _) | Verdict::Differs(_) => {
            stopped_text(explainer, alloc, telling, verdict, account)
        }
    }
}

// What `check` writes of this lawful verdict.
fn lawful_text(
    alloc: Global,
    telling: Telling,
    verdict: Verdict,
    world: &World,
) -> Result<String, OutOfMemory>
    ensures { IfOk result (λ text.
        string_bytes text ≡ lawful_told telling world.now.setup verdict (world_of world.now)) }
{
    match telling {
        Telling::Words => verdict_lines(alloc, verdict, world),
        Telling::Json => verdict_line(alloc, verdict, world),
    }
}

// What explains a verdict that isn't lawful, as it is told.
fn stopped_text<X: Explainer>(
    explainer: &X,
    alloc: Global,
    telling: Telling,
    verdict: Verdict,
    account: &Account,
) -> Result<String, OutOfMemory>
    ensures { IfOk result (λ text. IsExplainedTold X.explains telling account.now verdict (string_bytes text)) }
{
    let text = explainer.explain(alloc, account)?;
    match telling {
        Telling::Words => Ok(text),
        Telling::Json => sheet_line(alloc, verdict, text.as_str()),
    }
}
