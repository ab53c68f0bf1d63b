//! Colours for a terminal: a writer that puts marks between the words that are written through it.
//!
//! It builds on the standard library alone. A program that writes through it relies on two things: without its marks,
//! what the writer below got is exactly what was written; and a word that has a colour has its marks once it has ended.
#![tactic(auto)]

ghost use Rattle.bully_paint.specs.Strokes.{PaintsWords};

mod painted;
mod pieces;
mod wanted;
mod words;

pub use painted::Painted;
pub use wanted::wants_colours;
pub use words::Word;

/// The law of words. If nothing is held back, and no word goes on, what goes out of a word that has a colour, up to the
/// byte that parts it from what follows, is the painting of that word and this byte, and then nothing is held back,
/// either.
pub fn words_painted()
    ensures { PaintsWords }
{}
