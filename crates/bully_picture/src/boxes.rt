//! Where words stand in a picture, so that no two lie on one another.
ghost use Rattle.std.specs.Prelude.{◌≡◌, not};
ghost use Rattle.std.specs.List.{list_any};
ghost use Rattle.bully_picture.specs.Boxes.{meets, overlap};

/// Which end of words lies at the point that they are placed by, or their middle.
#[derive(Clone, Copy)]
pub enum Anchor {
    Start,
    Middle,
    End,
}

/// The box of a word: its left end, its top, its width and its height, in pixels.
#[derive(Clone, Copy)]
pub struct Area {
    pub x: u32,
    pub y: u32,
    pub width: u32,
    pub height: u32,
}

impl Area {
    /// The box of words of this size, whose line stands at y, and which are placed by x.
    pub fn of(x: u32, y: u32, anchor: Anchor, size: u32, words: &str) -> Area {
        let width = width_of(words, size);
        Area {
            x: left_of(x, width, anchor),
            y: y.saturating_sub(size),
            width,
            height: size.saturating_add(3),
        }
    }

    // Whether the two have a point in common.
    fn meets(&self, other: &Area) -> bool
        ensures { result ≡ meets self.now other.now }
    {
        overlap(self.x, self.width, other.x, other.width)
            && overlap(self.y, self.height, other.y, other.height)
    }
}

// Whether each of two stretches starts before the other one ends.
fn overlap(start: u32, long: u32, other: u32, other_long: u32) -> bool
    ensures { result ≡ overlap start long other other_long }
{
    start < other.saturating_add(other_long) && other < start.saturating_add(long)
}

// The left end of what is so wide.
fn left_of(x: u32, width: u32, anchor: Anchor) -> u32 {
    match anchor {
        Anchor::Start => x,
        Anchor::Middle => x.saturating_sub(width / 2),
        Anchor::End => x.saturating_sub(width),
    }
}

/// How wide words of this size are, or a little more.
pub fn width_of(words: &str, size: u32) -> u32 {
    let mut parts = 0u32;
    for letter in words.chars() {
        parts = parts.saturating_add(letter_width(letter));
    }
    parts.saturating_mul(size.min(100)) / 100
}

/// How many letters of words of this size have so much room.
pub fn letters_within(words: &str, size: u32, room: u32) -> usize {
    let room = room.saturating_mul(100);
    let mut count = 0usize;
    let mut width = 0u32;
    for letter in words.chars() {
        width = width.saturating_add(letter_width(letter).saturating_mul(size));
        if width > room {
            return count;
        }
        count = count.saturating_add(1);
    }
    count
}

// How wide a letter is, in hundredths of its size.
fn letter_width(letter: char) -> u32 {
    match letter {
        'i' | 'j' | 'l' | 'f' | 'r' | 't' | 'I' | ' ' | ',' | '.' | ':' | '-' => 42,
        'm' | 'w' | 'M' | 'W' => 100,
        '!'..='~' => 66,
        _ => 100,
    }
}

/// Whether the box has no point in common with one of these.
pub fn is_free(area: &Area, taken: &[Area]) -> bool
    ensures { result ≡ not (list_any (λ other. meets other area.now) taken.now) }
{
    !meets_one(area, taken)
}

fn meets_one(area: &Area, taken: &[Area]) -> bool
    ensures { result ≡ list_any (λ other. meets other area.now) taken.now }
{
    taken.iter().any(|other| other.meets(area))
}
