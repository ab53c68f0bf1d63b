//! Pages of traces: an HTML document with the picture of a trace, and below it its rows, which fold, and a search.
//!
//! It builds on bully_picture, whose picture and whose words it has, and on the crates below that. The program relies
//! on this: the document is exactly its head with the title, the picture as it is given, the text below it, the rows
//! that are shown, and the search. It needs nothing from outside: no style, script, font or image. Without scripts
//! there is no search, and all else reads the same.
#![tactic(auto)]

mod changes;
mod page;
mod rows;

pub use page::html_page;
