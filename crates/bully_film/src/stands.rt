//! What is seen of a node in its bars: its status and its coordinator.

use crate::snapshot::NodeSnapshot;
use crate::stretches::{Seen, Stretch};
use bully_base::{Node, Status};

/// What a bar shows: a status, and whom the node follows.
#[derive(Clone, Copy, PartialEq, Eq)]
pub struct Stand {
    pub status: Status,
    pub coordinator: Option<Node>,
}

/// A stretch of rows: after each of them a node stood so.
pub type Bar = Stretch<Stand>;

impl Seen for Stand {
    ghost use Rattle.bully_film.specs.Lane.{stand_of};

    ghost seen = { stand_of };

    fn seen_in(snapshot: &NodeSnapshot) -> Stand {
        Stand {
            status: snapshot.status,
            coordinator: snapshot.coordinator,
        }
    }

    fn is_same(&self, other: &Stand) -> bool {
        *self == *other
    }
}
