use crate::Entry;
use bully_base::Setup;
use std::collections::LinkedList;

/// Which publisher: its name, which no other has, and its setup. Contracts alone speak of it; no value is made.
pub struct PublisherId {
    pub name: u64,
    pub setup: Setup,
}

/// What a seat of the kit's table knows: its publisher, once it has learned of one, and a prefix of that one's
/// history. Contracts alone speak of it; no value is made.
pub struct Knowledge {
    pub is_named: bool,
    pub publisher: PublisherId,
    pub seen: LinkedList<Entry>,
}
