//! Traces with everything said.
//!
//! It builds on bully_trace and the crates below it. The crates above rely on this: an annotated trace is as lawful as
//! the one that was read.
#![tactic(auto)]

ghost use Rattle.bully_annotate.specs.InFull.{AnnotatedIsInFull, SaysEachCall};
ghost use Rattle.bully_annotate.specs.Shown.{ShowsEachChange, ShowsNoMore, TellsTheVector};
ghost use Rattle.bully_annotate.specs.Told.{AnnotatedHasEvents, AnnotatedIsTold};

mod annotation;
mod annotator;
mod saying;
mod seen;
mod writing;

pub use annotation::{Annotation, annotate};

/// The law of what is said of calls. Of each Start, Run, Lose, Return and Drop that is possible in a world that a
/// lawful list leads to it is said which call it is, and of a Run and a Return what was answered; so the annotated
/// trace of a lawful one has no row of such an event that says less, and no claim of a part of a vector.
pub fn calls_said()
    ensures each { SaysEachCall }
    ensures in_full { AnnotatedIsInFull }
{}

/// The law of what is shown after an event. In a world that a lawful list leads to, an event that is possible changes
/// the vector of one node at most, and after it the vector of each node that it changed is shown, and no other one.
pub fn changes_shown()
    ensures each { ShowsEachChange }
    ensures no_more { ShowsNoMore }
{}

/// The law of claims that tell all of a vector, the up set in falling order, as that of each `NodeSet`. In a world that
/// a lawful list leads to, such a claim is true, as [`bully_trace::check`] asks, exactly where the group has the node
/// and the claim is all of that node's vector.
pub fn vector_told()
    ensures { TellsTheVector }
{}

/// The law of what is read back. The annotated trace of a lawful one that a text can tell is one that a text can tell,
/// too, unless it has more rows than a trace may, and has the same events.
pub fn annotated_told()
    ensures told { AnnotatedIsTold }
    ensures events { AnnotatedHasEvents }
{}
