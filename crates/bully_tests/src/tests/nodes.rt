//! What node threads do, and nodes on their own. What is played of configurations the cases of the program have, in
//! `tests/cases/play.txt`.

mod agents;
mod gates;
mod threads;
