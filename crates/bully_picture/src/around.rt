//! What stands around a picture.

/// What stands around a picture: nothing; or a page, which has the title as its heading, and the text below by itself.
#[derive(Clone, Copy)]
pub enum Around {
    Nothing,
    Page,
}
