//! Where the lanes and the rows of a picture lie, in pixels.

use crate::claims::{Claims, is_shown};
use bully_base::{Node, OutOfMemory};
use bully_film::{FinishedFilm, row_before};
use std::alloc::Global;

/// Where the lanes start.
pub const LEFT: u32 = 124;

/// How wide half a bar is.
pub const HALF: u32 = 6;

/// How far words stand from the middle of a lane at least.
pub const ASIDE: u32 = HALF + 6;

/// How high a row is.
pub const ROW: u32 = 20;

// Where the first row lies.
const TOP: u32 = 96;

/// How wide a lane is at least and at most.
const LANE_MIN: u32 = 34;

const LANE_MAX: u32 = 190;

/// The width of a lane below which it has no words.
pub const WORDS_MIN: u32 = 70;

/// The width of a lane from which it has all words.
pub const WORDS_ALL: u32 = 150;

/// Where lanes and rows lie. Rows have a line each, but for claims that are left out.
#[derive(Drop)]
pub struct Layout {
    /// How many lanes there are.
    pub nodes: u32,
    /// How wide a lane is.
    pub lane: u32,
    /// The number of the row before the first one that is shown.
    pub first: u32,
    /// How many rows there are after that one.
    pub rows: u32,
    // How many lines there are up to that row, and up to each after it.
    lines: Vec<u32>,
}

impl Layout {
    /// The layout of what a film shows, with or without claims. Refused where an allocation fails.
    pub fn of(
        alloc: Global,
        finished: &FinishedFilm,
        claims: Claims,
    ) -> Result<Layout, OutOfMemory> {
        let nodes = u32::from(finished.setup.nodes());
        Ok(Layout {
            nodes,
            lane: lane_width(nodes),
            first: row_before(finished.scenes.as_slice()),
            rows: row_count(finished.scenes.len()),
            lines: lines_of(alloc, finished, claims)?,
        })
    }

    /// The middle of the node's lane.
    pub fn x(&self, node: Node) -> u32 {
        let before = u32::from(node.number()).saturating_sub(1);
        LEFT.saturating_add(self.lane.saturating_mul(before))
            .saturating_add(self.lane / 2)
    }

    /// Where the row of this number lies.
    pub fn y(&self, row: u32) -> u32 {
        TOP.saturating_add(ROW.saturating_mul(self.line(row)))
    }

    /// The line of the row of this number, counted from 1; of a claim that is left out the one above.
    pub fn line(&self, row: u32) -> u32 {
        let place = row.saturating_sub(self.first) as usize;
        match self.lines.get(place) {
            Some(line) => *line,
            None => 0,
        }
    }

    /// Where what lasts up to this row ends: where the row after it lies, and a little below the last row of all.
    pub fn end(&self, row: u32) -> u32 {
        if row >= self.last() {
            return self.bottom().saturating_add(8);
        }
        self.y(row.saturating_add(1))
    }

    /// The number of the last row.
    pub fn last(&self) -> u32 {
        self.first.saturating_add(self.rows)
    }

    /// Where what stands between a lane and the next one may start and end. Lanes are counted from 0.
    pub fn gap(&self, lane: u32) -> (u32, u32) {
        let middle = LEFT
            .saturating_add(self.lane.saturating_mul(lane))
            .saturating_add(self.lane / 2);
        let next = middle.saturating_add(self.lane);
        (middle.saturating_add(ASIDE), next.saturating_sub(ASIDE))
    }

    /// The lane at whose right x lies, before the next one.
    pub fn gap_at(&self, x: u32) -> u32 {
        if self.lane == 0 {
            return 0;
        }
        x.saturating_sub(LEFT).saturating_sub(self.lane / 2) / self.lane
    }

    /// How much room there is at the right of the node's bar.
    pub fn room(&self, node: Node) -> u32 {
        let end = if u32::from(node.number()) >= self.nodes {
            self.texts()
        } else {
            self.x(node).saturating_add(self.lane)
        };
        end.saturating_sub(self.x(node))
            .saturating_sub(ASIDE + ASIDE)
    }

    /// Where the texts of the rows start.
    pub fn texts(&self) -> u32 {
        self.right().saturating_add(80)
    }

    /// Where the lanes end.
    pub fn right(&self) -> u32 {
        LEFT.saturating_add(self.lane.saturating_mul(self.nodes))
    }

    /// Where the last row lies.
    pub fn bottom(&self) -> u32 {
        self.y(self.last())
    }
}

fn lane_width(nodes: u32) -> u32 {
    if nodes == 0 {
        return LANE_MAX;
    }
    (1000 / nodes).clamp(LANE_MIN, LANE_MAX)
}

// How many lines there are before the rows, and up to each of them.
fn lines_of(
    alloc: Global,
    finished: &FinishedFilm,
    claims: Claims,
) -> Result<Vec<u32>, OutOfMemory> {
    let mut lines = Vec::new(alloc);
    let mut count = 0u32;
    lines.push(count)?;
    for scene in finished.scenes.as_slice() {
        if is_shown(claims, finished.verdict, scene) {
            count = count.saturating_add(1);
        }
        lines.push(count)?;
    }
    Ok(lines)
}

fn row_count(scenes: usize) -> u32 {
    scenes.min(1_000_000) as u32
}
