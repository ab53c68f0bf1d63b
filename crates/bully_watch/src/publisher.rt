ghost use Rattle.std.specs.Prelude.{◌≡◌, ◌≤◌, [], ◌++◌, All, IfOk, MatchResult, take, drop, length, vec_len, true};
ghost use Rattle.left_right.specs.Sides.{view};
ghost use Rattle.bully_world.specs.World.{World as WorldOf};
ghost use Rattle.bully_watch.specs.History.{IsHistory};
ghost use Rattle.bully_watch.specs.Observation.{IsOpenFault, MayPublish, Publishes};
ghost use Rattle.bully_watch.specs.CopyRule.{IsPublisher, LeadsToCopy, prefix_of};

use crate::Entry;
use crate::observer::Observer;
use crate::told::Told;
use crate::world_copy::{
    CopyReader, CopyWriter, Learn, NextKnowledge, Publish, Tell, WorldCopy, new_reader,
};
use bully_base::{OutOfMemory, Setup};
use bully_world::World;
use core::mem::replace_with;
use std::alloc::{AllocError, Global};
use std::marker::{Brand, Model};
use std::sync::Wait;
use std::sync::ledger::Blank;

/// So many observers may see one publisher.
pub(crate) const OBSERVERS_MAX: u16 = 8;

/// So many told prefixes may be neither learned nor dropped. Why: docs/DECISIONS.md.
pub(crate) const TOLD_MAX: usize = 120;

/// Who shows a group's history to observers. Contracts see it as which publisher it is, the entries that it shows,
/// and those that it took in. It isn't `Drop`: end it by `end`.
pub struct Publisher {
    name: Blank, // no other publisher has it
    writer: CopyWriter,
    count: usize, // how many entries it took in
}

impl Model for Publisher {
    ghost use Rattle.std.specs.Prelude.{◌++◌, drop};
    ghost use Rattle.left_right.specs.Sides.{view as seat_view};
    ghost use Rattle.bully_watch.specs.Observation.{PublisherState};
    ghost use Rattle.bully_watch.specs.CopyRule.{IsPublisher};

    ghost Value = { PublisherState };

    ghost view = { λ p. record {
      publisher = (seat_view p.writer.desk.place).publisher;
      shown = (seat_view p.writer.desk.place).seen;
      taken = (seat_view p.writer.desk.place).seen ++ drop p.writer.behind p.writer.log.items;
    } };

    ghost invariant = { λ p. IsPublisher p.name.name p.count
        (seat_view p.writer.desk.place) p.writer.desk.shown.value.world (drop p.writer.behind p.writer.log.items) };
}

/// Why no publisher is opened, in the order of refusals.
#[derive(Clone, Copy, PartialEq, Eq, Debug)]
pub enum OpenFault {
    /// Not 1 to 8 observers.
    BadObservers,
    /// An allocation failed.
    OutOfMemory,
}

impl Publisher {
    /// A publisher of a group with this setup that showed nothing yet, with 1 to 8 observers. A group of the same setup
    /// may then be opened with it. Refused with `BadObservers` for another number, and with `OutOfMemory` if an
    /// allocation fails or the kit makes no reader.
    pub fn open<R: Wait>(
        rt: &R,
        alloc: Global,
        setup: Setup,
        observers: u16,
    ) -> Result<(Publisher, Vec<Observer>), OpenFault>
        ensures setup { IfOk result (λ r. r.0.publisher.setup ≡ setup) }
        ensures empty { IfOk result (λ r. (r.0.shown ≡ []) × (r.0.taken ≡ [])) }
        ensures count { IfOk result (λ r. vec_len r.1 ≡ observers) }
        ensures observers { IfOk result (λ r. All (λ o. (o.publisher ≡ r.0.publisher) × (o.entries ≡ [])) r.1.items) }
        ensures fault { MatchResult result (λ _. (1 ≤ observers) × (observers ≤ 8)) (IsOpenFault observers) }
    {
        if observers == 0 || observers > OBSERVERS_MAX {
            return Err(OpenFault::BadObservers);
        }
        let Ok(one) = World::new(alloc, setup) else {
            return Err(OpenFault::OutOfMemory);
        };
        let Ok(other) = World::new(alloc, setup) else {
            return Err(OpenFault::OutOfMemory);
        };
        let name = Blank::new(1);
        let one = WorldCopy { world: one };
        let other = WorldCopy { world: other };
        let Ok(writer) = CopyWriter::new(alloc, one, other, usize::from(observers) + TOLD_MAX)
        else {
            return Err(OpenFault::OutOfMemory);
        };
        let mut writer = show::<Brand, R>(rt, &name, writer);
        match enroll(alloc, &mut writer, observers) {
            Ok(observers) => {
                let publisher = Publisher {
                    name,
                    writer,
                    count: 0,
                };
                Ok((publisher, observers))
            }
            Err(_) => {
                writer.take(rt);
                Err(OpenFault::OutOfMemory)
            }
        }
    }

    /// Shows the entries, which are a history of its group that goes on from what it took in. It applies the new ones
    /// alone, and tells the whole. With nothing new it tells once more, so that each observer can learn. Refused where
    /// an allocation fails, and where 120 told prefixes are neither learned nor dropped: learn or drop one, and publish
    /// again. Observers then see what they saw, and a later publish covers all. It may wait for looks that started
    /// before it. Why there is a limit of 120: docs/DECISIONS.md.
    pub fn publish<R: Wait>(&mut self, rt: &R, entries: &[Entry]) -> Result<Told, OutOfMemory>
        requires { MayPublish self.old entries.now }
        ensures publishes { Publishes self.old entries.now self.new result }
    {
        replace_with(
            self,
            entries,
            |publisher: Publisher, entries: &[Entry]| -> (Publisher, Result<Told, OutOfMemory>)
                requires { MayPublish publisher entries.now }
            { publisher.published(rt, entries) },
        )
    }

    /// Ends it. From then on its observers are told that it is gone. Takes no memory.
    pub fn end<R: Wait>(self, rt: &R) {
        let Publisher {
            name: _name,
            writer,
            count: _,
        } = self;
        writer.take(rt);
    }

    // `publish`, where the publisher comes back. A place for what is told is there before anything is shown.
    fn published<R: Wait>(self, rt: &R, entries: &[Entry]) -> (Publisher, Result<Told, OutOfMemory>)
        requires { MayPublish self entries.now }
        ensures { Publishes self entries.now result.0 result.1 }
    {
        let Publisher {
            name,
            writer,
            count,
        } = self;
        let (writer, count) = take_in(writer, count, entries);
        let place = new_reader(writer.factory());
        if count < entries.len() || place.is_err() {
            let publisher = Publisher {
                name,
                writer,
                count,
            };
            return (publisher, Err(AllocError));
        }
        let mut writer = show::<Brand, R>(rt, &name, writer);
        drop(place);
        let mut reader = reader_of(rt, &writer);
        tell(&mut writer, &mut reader);
        let publisher = Publisher {
            name,
            writer,
            count,
        };
        (publisher, Ok(Told::of(reader, count)))
    }
}

// Takes in the entries from number `count` on, as far as there is memory; the number of those taken in then.
fn take_in(writer: CopyWriter, count: usize, entries: &[Entry]) -> (CopyWriter, usize)
    requires within { count ≤ length entries.now }
    requires here { (view writer.desk.place).seen ++ drop writer.behind writer.log.items ≡ take count entries.now }
    ensures desk { result.0.desk ≡ writer.desk }
    ensures within { (count ≤ result.1) × (result.1 ≤ length entries.now) }
    ensures here { (view result.0.desk.place).seen ++ drop result.0.behind result.0.log.items
        ≡ take result.1 entries.now }
{
    let mut writer = writer;
    let mut next = count;
    while next < entries.len() {
        let Ok(entry) = entries[next].copy() else {
            break;
        };
        if writer.append(entry).is_err() {
            break;
        }
        next += 1;
    }
    (writer, next)
}

// Shows what was taken in. From then on the writer knows just what N names.
fn show<N: NextKnowledge, R: Wait>(rt: &R, _name: &Blank, writer: CopyWriter) -> CopyWriter
    requires shown { LeadsToCopy (view writer.desk.place).seen writer.desk.shown.value.world }
    requires taken { (w : WorldOf) × IsHistory writer.desk.shown.value.world.setup ((view writer.desk.place).seen
        ++ drop writer.behind writer.log.items) w }
    requires all { (view writer.desk.place).seen ++ drop writer.behind writer.log.items ≡ N.knowledge.seen }
    requires setup { N.knowledge.publisher.setup ≡ writer.desk.shown.value.world.setup }
    ensures knowledge { view result.desk.place ≡ N.knowledge }
    ensures pending { drop result.behind result.log.items ≡ [] }
    ensures shown { LeadsToCopy N.knowledge.seen result.desk.shown.value.world }
    ensures setup { result.desk.shown.value.world.setup ≡ writer.desk.shown.value.world.setup }
{
    let (writer, shown) = writer.publish_as::<Publish<N>, R>(rt);
    match shown {
        Ok(()) => writer,
        Err(_) => unreachable!(),
    }
}

// A new reader. Where a place is known to be free, it waits for nothing.
fn reader_of<R: Wait>(rt: &R, writer: &CopyWriter) -> CopyReader
    ensures { result.place.table_id ≡ writer.now.desk.place.table_id }
{
    for _ in rt.forever() {
        if let Ok(reader) = new_reader(writer.factory()) {
            return reader;
        }
    }
    unreachable!()
}

// The reader learns all that is shown.
fn tell(writer: &mut CopyWriter, reader: &mut CopyReader)
    requires { reader.old.place.table_id ≡ writer.old.desk.place.table_id }
    ensures kept { (writer.new.desk.shown ≡ writer.old.desk.shown) × (writer.new.log ≡ writer.old.log)
        × (writer.new.behind ≡ writer.old.behind) × (view writer.new.desk.place ≡ view writer.old.desk.place) }
    ensures told { view reader.new.place ≡ view writer.old.desk.place }
{
    reader.learn::<Learn>(writer.tell::<Tell>());
}

// So many observers, who know what is shown, which is nothing yet.
fn enroll(alloc: Global, writer: &mut CopyWriter, count: u16) -> Result<Vec<Observer>, AllocError>
    requires { ((view writer.old.desk.place).is_named ≡ true) × ((view writer.old.desk.place).seen ≡ []) }
    ensures kept { (writer.new.desk.shown ≡ writer.old.desk.shown) × (writer.new.log ≡ writer.old.log)
        × (writer.new.behind ≡ writer.old.behind) × (view writer.new.desk.place ≡ view writer.old.desk.place) }
    ensures observers { IfOk result (λ v. (vec_len v ≡ count)
        × All (λ o. o ≡ prefix_of (view writer.old.desk.place)) v.items) }
{
    let mut observers = Vec::new(alloc);
    for _number in 0..count {
        let mut reader = new_reader(writer.factory())?;
        tell(writer, &mut reader);
        observers.push(Observer::of(alloc, reader))?;
    }
    Ok(observers)
}
