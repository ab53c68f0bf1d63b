use bully_base::Setup;
use bully_world::Event;
use std::alloc::Global;
use std::fmt::Debug;

/// How a call is tried, and what with.
#[derive(Drop)]
pub struct Trial<'a, R: Print> {
    pub rt: &'a R,
    pub alloc: Global,
    /// Whether it was refused memory, and is made again with the same arguments anew.
    pub is_again: bool,
    /// The group: three nodes and four partitions.
    pub setup: Setup,
    /// The events of an election.
    pub events: &'a [Event],
    /// Those before the run of its first call.
    pub before_run: &'a [Event],
    /// Those before the plan.
    pub before_plan: &'a [Event],
    pub plan: &'a Event,
}

/// What became of a call.
#[derive(Clone, Copy)]
pub enum Outcome {
    /// It was answered, and made again first on what it left or handed back where it was refused memory. What it
    /// answered in the end and what it left is told.
    Told,
    /// It was refused memory. The call is still to be made again, with the same arguments anew.
    Refused,
}

/// The text of what can be read of something.
#[derive(Drop)]
pub struct Text {
    text: String,
    /// Whether there was memory for all of it.
    is_whole: bool,
}

impl<'a, R: Print> Trial<'a, R> {
    /// Comes right before the call. (A line that isn't printed is missed by the script.)
    pub fn begin(&self) {
        let _ = self.rt.println("called");
    }

    /// Comes right after the call.
    pub fn end(&self) {
        let _ = self.rt.println("answered");
    }

    /// Comes right after the call, too: what became of it. Its fault for want of memory reads as `refusal`; None for
    /// another one.
    pub fn outcome<T: Debug + Drop, E: Debug + Drop>(
        &self,
        answer: Result<T, E>,
        refusal: &str,
    ) -> Option<Outcome> {
        self.end();
        match answer {
            Ok(value) => self.tell(false, &Text::of(self.alloc, &value)),
            Err(fault) => self.refused(&fault, refusal),
        }
    }

    /// A call with this fault, whose want of memory reads as `refusal`; None for another one.
    pub fn refused<E: Debug>(&self, fault: &E, refusal: &str) -> Option<Outcome> {
        if Text::of(self.alloc, fault).reads(refusal) {
            Some(Outcome::Refused)
        } else {
            None
        }
    }

    /// Tells how it reads what a call answered in the end or left, and whether it was refused memory at first.
    pub fn tell(&self, was_refused: bool, text: &Text) -> Option<Outcome> {
        if !text.is_whole {
            return None;
        }
        let answer = if self.is_again || was_refused {
            "OutOfMemory"
        } else {
            "ample"
        };
        let text = text.text.as_str();
        match println!(self.rt; "{answer}\n{text}") {
            Ok(()) => Some(Outcome::Told),
            Err(_) => None,
        }
    }
}

impl Text {
    pub fn new(alloc: Global) -> Text {
        Text {
            text: String::new(alloc),
            is_whole: true,
        }
    }

    /// The text of a value.
    pub fn of<T: Debug>(alloc: Global, value: &T) -> Text {
        let mut text = String::new(alloc);
        let is_whole = write!(text, "{value:?}").is_ok();
        Text { text, is_whole }
    }

    /// The text of a value, and after it that of another one.
    pub fn of_both<T: Debug, U: Debug>(alloc: Global, first: &T, second: &U) -> Text {
        let mut text = Text::of(alloc, first);
        text.add(second);
        text
    }

    /// Adds the text of a value.
    pub fn add<T: Debug>(&mut self, value: &T) {
        if write!(self.text, " {value:?}").is_err() {
            self.is_whole = false;
        }
    }

    /// The text of what couldn't be read.
    pub fn unread(alloc: Global) -> Text {
        Text {
            text: String::new(alloc),
            is_whole: false,
        }
    }

    /// Adds another text, in quotes.
    pub fn add_text(&mut self, other: &Text) {
        self.add(&other.text);
        self.is_whole = self.is_whole && other.is_whole;
    }

    /// Whether it is whole, and reads so.
    pub fn reads(&self, text: &str) -> bool {
        self.is_whole && self.text.as_str() == text
    }

    /// Whether both are whole, and the same.
    pub fn is_same(&self, other: &Text) -> bool {
        other.is_whole && self.reads(other.text.as_str())
    }
}
