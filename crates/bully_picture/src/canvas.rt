//! What a picture is drawn on: lines below, and words above them.
ghost use Rattle.bully_picture.specs.Written.{Extends};

use crate::boxes::{Anchor, Area, is_free};
use crate::layout::{ASIDE, Layout};
use crate::paper::Paper;
use std::alloc::Global;

/// How words look: where the point lies that they are placed by, their size, their colour, and whether they have a
/// white ground.
#[derive(Clone, Copy)]
pub struct Style {
    pub anchor: Anchor,
    pub size: u32,
    pub colour: &'static str,
    pub has_ground: bool,
}

/// A picture on which is drawn. Where memory is wanting, that is noted on one of its papers.
#[derive(Drop)]
pub struct Canvas {
    pub layout: Layout,
    pub lines: Paper,
    pub words: Paper,
    pub alloc: Global,
    // The boxes of the words that were placed.
    boxes: Vec<Area>,
    // The rows in which a call returned.
    returns: Vec<u32>,
    // Where the texts of the lines end.
    ends: Vec<u32>,
    // Whether a letter stands for the kind of a call.
    has_letters: bool,
}

impl Canvas {
    /// An empty one.
    pub fn new(alloc: Global, layout: Layout) -> Canvas {
        Canvas {
            layout,
            lines: Paper::new(alloc),
            words: Paper::new(alloc),
            alloc,
            boxes: Vec::new(alloc),
            returns: Vec::new(alloc),
            ends: Vec::new(alloc),
            has_letters: false,
        }
    }

    /// Notes that the text of the next line ends here.
    pub fn note_end(&mut self, end: u32) {
        if self.ends.push(end).is_err() {
            self.words.fail();
        }
    }

    /// Where the text of this row ends.
    pub fn end_of(&self, row: u32) -> u32 {
        let place = self.layout.line(row).saturating_sub(1) as usize;
        match self.ends.get(place) {
            Some(end) => *end,
            None => self.layout.texts(),
        }
    }

    /// Notes that a letter stands for the kind of a call.
    pub fn note_letter(&mut self) {
        self.has_letters = true;
    }

    /// Whether one does.
    pub fn has_letters(&self) -> bool {
        self.has_letters
    }

    /// Notes that a call returned in this row.
    pub fn note_return(&mut self, row: u32) {
        if self.returns.push(row).is_err() {
            self.words.fail();
        }
    }

    /// Whether a call returned in this row.
    pub fn returned_in(&self, row: u32) -> bool {
        self.returns.as_slice().contains(&row)
    }

    /// What was written on another paper. Where memory was wanting there, it is wanting here.
    pub fn read<'a>(&mut self, paper: &'a Paper) -> &'a str {
        if paper.has_failed() {
            self.words.fail();
        }
        paper.as_str()
    }

    /// Writes words at this point, where their box is free, and tells whether it was.
    pub fn put(&mut self, x: u32, y: u32, style: Style, words: &str) -> bool {
        let area = Area::of(x, y, style.anchor, style.size, words);
        if !self.take_area(area) {
            return false;
        }
        if style.has_ground {
            push_area(&mut self.words, area, " fill=\"#fff\"/>\n");
        }
        push_words(&mut self.words, x, y, style, words);
        true
    }

    /// Takes the box of words that are written at this point on another paper, where it is free.
    pub fn keep_free(&mut self, x: u32, y: u32, style: Style, words: &str) {
        self.take(Area::of(x, y, style.anchor, style.size, words));
    }

    /// Takes the box of what is written on another paper, where it is free.
    pub fn take(&mut self, area: Area) {
        self.take_area(area);
    }

    /// Writes words beside the lane whose middle x is: at its left, since what changes a node comes from a higher one,
    /// at its right; or at its right, where the left isn't free.
    pub fn put_beside(&mut self, x: u32, y: u32, colour: &'static str, words: &str) {
        let line = y.saturating_add(4);
        let style = Style {
            anchor: Anchor::End,
            size: 10,
            colour,
            has_ground: true,
        };
        if self.put(x.saturating_sub(ASIDE), line, style, words) {
            return;
        }
        let style = Style {
            anchor: Anchor::Start,
            ..style
        };
        self.put(x.saturating_add(ASIDE), line, style, words);
    }

    /// Draws a green frame that is as high as a word and so wide, where its box is free, and tells whether it was.
    pub fn put_frame(&mut self, x: u32, y: u32, width: u32) -> bool {
        let area = Area {
            x,
            y,
            width,
            height: 13,
        };
        if !self.take_area(area) {
            return false;
        }
        push_area(
            &mut self.words,
            area,
            " fill=\"#fff\" stroke=\"#009E73\"/>\n",
        );
        true
    }

    // Takes the box, where it is free, and tells whether it was.
    fn take_area(&mut self, area: Area) -> bool {
        if !is_free(&area, self.boxes.as_slice()) {
            return false;
        }
        if self.boxes.push(area).is_err() {
            self.words.fail();
        }
        true
    }
}

/// Writes the start of a line, and where it goes.
pub fn push_line(paper: &mut Paper, x1: u32, y1: u32, x2: u32, y2: u32)
    ensures { Extends paper.old paper.new }
{
    paper.push("<line");
    paper.push_attribute("x1", x1);
    paper.push_attribute("y1", y1);
    paper.push_attribute("x2", x2);
    paper.push_attribute("y2", y2);
}

/// Writes a rectangle: where it lies, and then the rest of it.
pub fn push_area(paper: &mut Paper, area: Area, rest: &'static str)
    ensures { Extends paper.old paper.new }
{
    paper.push("<rect");
    paper.push_attribute("x", area.x);
    paper.push_attribute("y", area.y);
    paper.push_attribute("width", area.width);
    paper.push_attribute("height", area.height);
    paper.push(rest);
}

/// Writes the start of words, and where they stand.
pub fn push_place(paper: &mut Paper, x: u32, y: u32, style: Style)
    ensures { Extends paper.old paper.new }
{
    paper.push("<text");
    paper.push_attribute("x", x);
    paper.push_attribute("y", y);
    paper.push_attribute("font-size", style.size);
    paper.push(anchor_text(style.anchor));
}

fn push_words(paper: &mut Paper, x: u32, y: u32, style: Style, words: &str) {
    push_place(paper, x, y, style);
    paper.push(" fill=\"");
    paper.push(style.colour);
    paper.push("\">");
    paper.push_escaped(words);
    paper.push("</text>\n");
}

// What tells where the point lies; nothing at the start.
fn anchor_text(anchor: Anchor) -> &'static str {
    match anchor {
        Anchor::Start => "",
        Anchor::Middle => " text-anchor=\"middle\"",
        Anchor::End => " text-anchor=\"end\"",
    }
}
