ghost use Rattle.std.specs.Prelude.{◌≡◌, IfOk, IfSome, OnOk};
ghost use Rattle.bully_film.specs.Film.{kept};

use crate::said::Said;
use crate::scene::{
    Scene, SceneStart, event_kind_at, event_kind_in, is_quiet, node_in, open_on, quiet_shot, shot,
};
use crate::snapshot::{NodeSnapshot, snapshots};
use crate::window::Window;
use bully_base::{Node, OutOfMemory, Setup};
use bully_calls::{EventKind, NodeEventKind};
use bully_rows::{Header, NodeEvent, Row, WholeClaim};
use bully_table::copied;
use bully_trace::{Judge, Verdict};
use std::alloc::Global;
use std::collections::VecDeque;
use std::marker::Model;

/// What a film shows: the judge that took all rows of the trace, the setup and the verdict of it, the row that decided,
/// none where the verdict is lawful, what each row of the window shows, and how the nodes stand after the last of
/// them, from node 1 on.
#[derive(Drop)]
pub struct FinishedFilm {
    pub judge: Judge,
    pub setup: Setup,
    pub verdict: Verdict,
    pub stop: Option<Row>,
    pub scenes: Vec<Scene>,
    pub at_end: Vec<NodeSnapshot>,
}

/// What takes the rows of a trace one by one and keeps what those of a window show. Its memory is that of a world and
/// of the window.
#[derive(Drop)]
pub struct Film {
    judge: Judge,
    window: Window,
    scenes: VecDeque<Scene>,
    // The row that decided.
    stop: Option<Row>,
    // How the nodes stand after the window's last row, once that was taken.
    at_end: Option<Vec<NodeSnapshot>>,
}

impl Model for Film {
    ghost use Rattle.bully_film.specs.Film.{FilmState};
    ghost use Rattle.std.specs.Prelude.{option_map};

    ghost Value = { FilmState };

    ghost view = { λ f. record {
      judge = f.judge;
      window = f.window;
      scenes = f.scenes.items;
      stop = f.stop;
      at_end = option_map (λ v. v.items) f.at_end;
    } };
}

impl Film {
    ghost use Rattle.std.specs.Prelude.{◌≡◌, ◌+◌, ◌++◌, ◌==◌, ◌∷◌, [], List, Option, None, Some, true, false, is_none};
    ghost use Rattle.std.specs.Prelude.{is_some, length, IfOk, IfSome, OnOk, if◌then◌else◌};
    ghost use Rattle.bully_base.specs.Setup.{Setup as SetupState};
    ghost use Rattle.bully_film.specs.Film.{GoesOn, HasFilmed, IsLook, IsNoted, closed, kept, noted};
    ghost use Rattle.bully_film.specs.Scene.{IsSceneStart, event_kind_in, node_in, said_in, scene_of};
    ghost use Rattle.bully_trace.specs.Judging.{HasJudged};
    ghost use Rattle.bully_trace.specs.Verdict.{IsJudged};
    ghost use Rattle.bully_world.specs.World.{World as WorldOf, first_world};
    ghost use Rattle.bully_calls.specs.Events.{event_at};
    ghost use Rattle.bully_rows.specs.declared.trace.Row.{Row as RowState};
    ghost use Rattle.bully_world.specs.State.{world_of};

    /// A film after this header, before any row. Refused where an allocation fails.
    pub fn new(alloc: Global, header: Header, window: Window) -> Result<Film, OutOfMemory>
        ensures filmed { IfOk result (HasFilmed header.setup []) }
        ensures window { IfOk result (λ film. film.window ≡ window) }
    {
        let mut film = Film::unclosed(alloc, header, window)?;
        film.close_at(alloc, 1)?;
        Ok(film)
    }

    // The same, where the header isn't yet seen to be the window's last row.
    fn unclosed(alloc: Global, header: Header, window: Window) -> Result<Film, OutOfMemory>
        ensures judged { IfOk result (λ film. HasJudged header.setup [] film.judge) }
        ensures stopped { IfOk result (λ film. film.judge.stopped ≡ None) }
        ensures empty { IfOk result (λ film. (film.window ≡ window) × (film.scenes ≡ []) × (film.stop ≡ None)
            × (film.at_end ≡ None)) }
    {
        // (with all the room at once: a deque that grew by itself would go around in more, and leave the processor's
        // cache)
        Ok(Film {
            judge: Judge::new(alloc, header)?,
            window,
            scenes: VecDeque::with_capacity(alloc, window.most() as usize)?,
            stop: None,
            at_end: None,
        })
    }

    /// Takes the row of this number. Refused where an allocation fails, and then the film is of no more use.
    pub fn feed_row(&mut self, alloc: Global, number: u32, row: Row) -> Result<(), OutOfMemory>
        ensures window { self.new.window ≡ self.old.window }
        ensures filmed { (setup : SetupState) (rows : List RowState) → length rows + 2 ≡ number
            → HasFilmed setup rows self.old → OnOk result (HasFilmed setup (rows ++ row ∷ []) self.new) }
    {
        if self.is_over() {
            return Ok(());
        }
        let scene_start = self.look(event_kind_in(&row), node_in(&row));
        self.judge_row(alloc, number, &row)?;
        self.keep_said(alloc, number, &scene_start, row)
    }

    /// Takes the row of this number, which tells this event, as `feed_row` does.
    // (inlined with what it calls, since it is what most rows tell)
    #[inline(always)]
    pub fn feed_node_event(
        &mut self,
        alloc: Global,
        number: u32,
        event: NodeEvent,
    ) -> Result<(), OutOfMemory>
        ensures window { self.new.window ≡ self.old.window }
        ensures filmed { (setup : SetupState) (rows : List RowState) → length rows + 2 ≡ number
            → HasFilmed setup rows self.old
            → OnOk result (HasFilmed setup (rows ++ Row.Event (event_at event.kind event.node) ∷ []) self.new) }
    {
        if self.is_over() {
            return Ok(());
        }
        let NodeEvent { kind, node } = event;
        let scene_start = self.look(Some(event_kind_at(kind, node)), node);
        self.judge_event(number, kind, node);
        self.keep_shown(alloc, number, &scene_start)
    }

    // Whether a row decided.
    fn is_over(&self) -> bool
        ensures { result ≡ is_some self.now.judge.stopped }
    {
        self.judge.stopped().is_some()
    }

    // What is seen of a row before it is taken, whose event is this and which names this node; nothing after the
    // window.
    #[inline(always)]
    fn look(&self, event_kind: Option<EventKind>, node: Node) -> Option<SceneStart>
        ensures { IsLook self.now node event_kind result }
    {
        if self.at_end.is_some() {
            return None;
        }
        Some(open_on(self.judge.world(), event_kind, node))
    }

    // Has the row judged, and keeps a copy where it decided.
    #[inline(always)]
    fn judge_row(&mut self, alloc: Global, number: u32, row: &Row) -> Result<(), OutOfMemory>
        ensures window { self.new.window ≡ self.old.window }
        ensures at_end { self.new.at_end ≡ self.old.at_end }
        ensures scenes { self.new.scenes ≡ self.old.scenes }
        ensures noted { OnOk result (self.old.judge.stopped ≡ None → IsNoted number row.now self.old self.new) }
        ensures judged { (setup : SetupState) (rows : List RowState) → length rows + 2 ≡ number
            → HasJudged setup rows self.old.judge → HasJudged setup (rows ++ row.now ∷ []) self.new.judge }
    {
        self.judge.feed_row(number, row);
        self.keep_stop(alloc, row)?;
        Ok(())
    }

    // Has the row judged that tells an event of this kind, and keeps it where it decided.
    #[inline(always)]
    fn judge_event(&mut self, number: u32, kind: NodeEventKind, node: Node)
        ensures window { self.new.window ≡ self.old.window }
        ensures at_end { self.new.at_end ≡ self.old.at_end }
        ensures scenes { self.new.scenes ≡ self.old.scenes }
        ensures noted { self.old.judge.stopped ≡ None
            → IsNoted number (Row.Event (event_at kind node)) self.old self.new }
        ensures judged { (setup : SetupState) (rows : List RowState) → length rows + 2 ≡ number
            → HasJudged setup rows self.old.judge
            → HasJudged setup (rows ++ Row.Event (event_at kind node) ∷ []) self.new.judge }
    {
        self.judge.feed_node_event(number, NodeEvent { kind, node });
        if self.is_over() {
            self.stop_at(kind, node);
        }
    }

    // Keeps the row that decided, which tells an event of this kind.
    // (out of line, as it comes once)
    #[inline(never)]
    fn stop_at(&mut self, kind: NodeEventKind, node: Node)
        ensures { self.new ≡ record self.old { stop = Some (Row.Event (event_at kind node)) } }
    {
        self.stop = Some(Row::Event(NodeEvent { kind, node }.event()));
    }

    // Goes on after a row that was judged, of which this was seen before, and which says no more than its event's word
    // and a node: keeps what it shows, and how the nodes stand, where it was the window's last row.
    #[inline(always)]
    fn keep_shown(
        &mut self,
        alloc: Global,
        number: u32,
        scene_start: &Option<SceneStart>,
    ) -> Result<(), OutOfMemory>
        ensures window { self.new.window ≡ self.old.window }
        ensures on { OnOk result (GoesOn number None scene_start.now self.old self.new) }
    {
        if let Some(scene_start) = scene_start {
            self.keep_shot(number, scene_start, Said::nothing())?;
            self.close_at(alloc, number)?;
        }
        Ok(())
    }

    // The same after any row.
    fn keep_said(
        &mut self,
        alloc: Global,
        number: u32,
        scene_start: &Option<SceneStart>,
        row: Row,
    ) -> Result<(), OutOfMemory>
        ensures window { self.new.window ≡ self.old.window }
        ensures on { OnOk result (GoesOn number (said_in row) scene_start.now self.old self.new) }
    {
        if let Some(scene_start) = scene_start {
            let said = Said::by(alloc, row)?;
            self.keep_shot(number, scene_start, said)?;
            self.close_at(alloc, number)?;
        }
        Ok(())
    }

    // Keeps what the row shows that was judged last, of which this was seen before, and which says this.
    #[inline(always)]
    fn keep_shot(
        &mut self,
        number: u32,
        scene_start: &SceneStart,
        said: Said,
    ) -> Result<(), OutOfMemory>
        ensures judge { self.new.judge ≡ self.old.judge }
        ensures window { self.new.window ≡ self.old.window }
        ensures stop { self.new.stop ≡ self.old.stop }
        ensures at_end { self.new.at_end ≡ self.old.at_end }
        ensures scenes { OnOk result ((w : WorldOf) (row : RowState) → said ≡ said_in row
            → IsSceneStart w (node_in row) (event_kind_in row) scene_start.now
            → self.new.scenes ≡ kept self.old.window self.old.scenes
            (scene_of self.old.judge.world.setup w (world_of self.old.judge.world) number row)) }
    {
        if !is_quiet(scene_start) {
            return self.keep_wide_shot(number, scene_start, said);
        }
        let scene = quiet_shot(number, scene_start, self.judge.world(), said);
        keep(&mut self.scenes, self.window, scene)
    }

    // The same, where a second node may be changed, or a table comes with the row.
    #[inline(never)]
    fn keep_wide_shot(
        &mut self,
        number: u32,
        scene_start: &SceneStart,
        said: Said,
    ) -> Result<(), OutOfMemory>
        ensures judge { self.new.judge ≡ self.old.judge }
        ensures window { self.new.window ≡ self.old.window }
        ensures stop { self.new.stop ≡ self.old.stop }
        ensures at_end { self.new.at_end ≡ self.old.at_end }
        ensures scenes { OnOk result ((w : WorldOf) (row : RowState) → said ≡ said_in row
            → IsSceneStart w (node_in row) (event_kind_in row) scene_start.now
            → self.new.scenes ≡ kept self.old.window self.old.scenes
            (scene_of self.old.judge.world.setup w (world_of self.old.judge.world) number row)) }
    {
        let scene = shot(number, scene_start, self.judge.world(), said)?;
        keep(&mut self.scenes, self.window, scene)
    }

    // Keeps how the nodes stand, where this was the window's last row.
    #[inline(always)]
    fn close_at(&mut self, alloc: Global, number: u32) -> Result<(), OutOfMemory>
        ensures closed { OnOk result (self.new ≡ (if number == self.old.window.to then closed self.old else self.old)) }
        ensures window { self.new.window ≡ self.old.window }
    {
        if number == self.window.to() {
            self.close(alloc)?;
        }
        Ok(())
    }

    /// Keeps how the nodes stand now, where that wasn't kept at the window's last row. Refused where an allocation
    /// fails.
    // (out of line, as it comes once)
    #[inline(never)]
    pub fn close(&mut self, alloc: Global) -> Result<(), OutOfMemory>
        ensures closed { OnOk result (self.new ≡ closed self.old) }
        ensures window { self.new.window ≡ self.old.window }
    {
        if self.at_end.is_none() {
            self.at_end = Some(snapshots(alloc, self.judge.world())?);
        }
        Ok(())
    }

    /// What the film shows, once it is closed.
    pub fn into_finished(self, alloc: Global) -> FinishedFilm
        ensures scenes { result.scenes.items ≡ self.scenes }
        ensures setup { result.setup ≡ self.judge.world.setup }
        ensures judge { result.judge ≡ self.judge }
        ensures stop { result.stop ≡ self.stop }
        ensures at_end { IfSome self.at_end (λ at_end. result.at_end.items ≡ at_end) }
        ensures verdict { (setup : SetupState) (rows : List RowState) → HasJudged setup rows self.judge
            → IsJudged setup (first_world setup) 0 2 rows result.verdict (world_of self.judge.world) }
    {
        let Film {
            judge,
            window: _,
            scenes,
            stop,
            at_end,
        } = self;
        let setup = *judge.world().setup();
        let verdict = judge.verdict();
        FinishedFilm {
            judge,
            setup,
            verdict,
            stop,
            scenes: scenes.into_vec(),
            at_end: or_empty(alloc, at_end),
        }
    }

    // Keeps a copy of the row, where it decided.
    #[inline(always)]
    fn keep_stop(&mut self, alloc: Global, row: &Row) -> Result<(), OutOfMemory>
        ensures kept { OnOk result (self.new ≡ noted row.now self.old) }
        ensures judge { self.new.judge ≡ self.old.judge }
        ensures window { self.new.window ≡ self.old.window }
        ensures at_end { self.new.at_end ≡ self.old.at_end }
        ensures scenes { self.new.scenes ≡ self.old.scenes }
    {
        if self.judge.stopped().is_some() {
            self.stop = Some(copy_row(alloc, row)?);
        }
        Ok(())
    }
}

// Keeps the scene, where its row isn't before the window: in the place of the oldest one, where as many are kept as may
// be.
#[inline(always)]
fn keep(scenes: &mut VecDeque<Scene>, window: Window, scene: Scene) -> Result<(), OutOfMemory>
    ensures { OnOk result (scenes.new.items ≡ kept window scenes.old.items scene) }
{
    if scene.number < window.from() {
        return Ok(());
    }
    if scenes.len() >= window.most() as usize {
        let _ = scenes.pop_front();
    }
    if scenes.len() >= scenes.capacity() {
        scenes.reserve(1)?;
    }
    scenes.push_back_reserved(scene);
    Ok(())
}

/// The same row. Refused where an allocation fails.
// (out of line, as one comes once)
#[inline(never)]
pub fn copy_row(alloc: Global, row: &Row) -> Result<Row, OutOfMemory>
    ensures { IfOk result (λ copy. copy ≡ row.now) }
{
    match row {
        Row::Event(event) => Ok(Row::Event(event.copy()?)),
        Row::Detailed(event) => Ok(Row::Detailed(*event)),
        Row::Claim(claim) => Ok(Row::Claim(*claim)),
        Row::Whole(whole) => Ok(Row::Whole(copy_whole(alloc, whole)?)),
    }
}

// The same claim.
fn copy_whole(alloc: Global, whole: &WholeClaim) -> Result<WholeClaim, OutOfMemory>
    ensures { IfOk result (λ copy. copy ≡ whole.now) }
{
    let task = copied(whole.task())?;
    WholeClaim::new(alloc, whole.claim(), whole.halter(), *whole.up(), task)
}

// The snapshots, or none.
fn or_empty(alloc: Global, at_end: Option<Vec<NodeSnapshot>>) -> Vec<NodeSnapshot>
    ensures { IfSome at_end (λ v. result.items ≡ v.items) }
{
    match at_end {
        Some(snapshots) => snapshots,
        None => Vec::new(alloc),
    }
}
