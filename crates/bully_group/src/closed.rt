ghost use Rattle.std.specs.Prelude.{◌≡◌};
ghost use Rattle.bully_agree.specs.View.{ViewAgrees};
ghost use Rattle.bully_group.specs.Locked.{IsClosed};

use bully_agree::View;
use bully_base::Setup;
use bully_watch::{Entry, Publisher};
use std::marker::Model;
use std::sync::Wait;

/// A finished group, with the publisher of one that was watched. Its type keeps that its entries are a history, and
/// that its view is that of the world that the history leads to. It isn't `Drop`: [`Closed::end`] ends it.
pub struct Closed {
    history: Vec<Entry>,
    view: View,
    publisher: Option<Publisher>,
}

impl Model for Closed {
    ghost use Rattle.bully_group.specs.Locked.{ClosedState, IsClosed};

    ghost Value = { ClosedState };

    ghost view = { λ c. record { history = c.history.items; view = c.view; publisher = c.publisher } };

    ghost invariant = { λ c. IsClosed (record { history = c.history.items; view = c.view; publisher = c.publisher }) };
}

impl Closed {
    /// What the group was set up with.
    pub fn setup(&self) -> Setup
        ensures { result ≡ self.now.view.setup }
    {
        self.view.setup()
    }

    /// Its entries, from the first one on, which are a history.
    pub fn history(&self) -> &[Entry]
        ensures history { result.now ≡ self.now.history }
        ensures closed { IsClosed self.now }
    {
        self.history.as_slice()
    }

    /// The view of the world that the history leads to.
    #[tactic(auto, using(crate::proofs::LockedLemmas::closed_agrees))]
    pub fn view(&self) -> &View
        ensures view { result.now ≡ self.now.view }
        ensures agrees { ViewAgrees self.now.view }
    {
        &self.view
    }

    /// Ends its publisher, if it has one: from then on observers are told that it is gone. Drops the rest.
    pub fn end<R: Wait>(self, rt: &R) {
        let Closed {
            history: _history,
            view: _view,
            publisher,
        } = self;
        end_publisher(publisher, rt);
    }

    // The end of a group with this history, which leads to a world with this view, and with this publisher.
    pub(crate) fn of(history: Vec<Entry>, view: View, publisher: Option<Publisher>) -> Closed
        requires { IsClosed (record { history = history.items; view = view; publisher = publisher }) }
        ensures { result ≡ record { history = history.items; view = view; publisher = publisher } }
    {
        Closed {
            history,
            view,
            publisher,
        }
    }
}

/// Ends the publisher, if there is one.
pub(crate) fn end_publisher<R: Wait>(publisher: Option<Publisher>, rt: &R) {
    match publisher {
        None => {}
        Some(publisher) => publisher.end(rt),
    }
}
