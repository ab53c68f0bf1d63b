//! Tries the libraries by worked cases, and holds the Rust of the pages. All of it is read with the tests alone, so
//! that it is proved once. Of the tests, `model` has tables, procedures, configurations, traces, runs, rebalances of a
//! group, and each value for the largest group; `groups` has groups under their lock, and observers; `nodes` has node
//! threads, and nodes on their own with the lines that they send each other; `worked` has what is proved of scripts;
//! `colours` has a writer that colours words, at its end. No crate builds on it.
#![tactic(auto)]

#[cfg(test)]
mod snippets;
#[cfg(test)]
mod tests;
