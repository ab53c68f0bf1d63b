//! What goes out of what a writer holds back.
ghost use Rattle.std.specs.Prelude.{◌≡◌, ◌++◌, ◌∷◌, [], true, false, codes, drop, IfSome, MatchOption, OnOk};
ghost use Rattle.bully_paint.specs.Strokes.{goes_within, joins_article};
ghost use Rattle.std.specs.Io.KnownBytes.{Keeps, append_known};
ghost use Rattle.bully_paint.specs.Words.{ending_of};

use crate::words::{Word, is_separator, longer};
use std::io;
use std::io::{ErrorKind, Write};

/// The article before a title.
pub const ARTICLE: &[u8] = b"the ";

/// Writes these bytes up to their end or to the first write that fails, and tells what is left of them.
pub fn put<W: Write>(below: &mut W, bytes: &'static [u8]) -> (&'static [u8], io::Result<()>)
    ensures bytes { Keeps (append_known (W.contents below.old) bytes.now)
        (append_known (W.contents below.new) result.0.now) }
    ensures empty { OnOk result.1 (result.0.now ≡ []) }
{
    let mut rest = bytes;
    while !rest.is_empty() {
        match below.write(rest) {
            Ok(0) => return (rest, Err(io::Error::from(ErrorKind::WriteZero))),
            Ok(count) => rest = &rest[count..],
            Err(error) => return (rest, Err(error)),
        }
    }
    (rest, Ok(()))
}

/// What goes out of a front that this byte doesn't go on with: a whole word as it is painted, and all else as it is.
pub fn ending(front: &'static [u8], byte: u8) -> &'static [u8]
    ensures out { result.now ≡ ending_of front.now byte }
{
    if !is_separator(byte) {
        return front;
    }
    match Word::named(front) {
        Some(word) => word.painting().as_bytes(),
        None => front,
    }
}

/// Whether a word without a colour goes on after these bytes, which went out; after none it is as before.
pub fn goes_within(within: bool, bytes: &[u8]) -> bool
    ensures { result ≡ goes_within within bytes.now }
{
    match bytes.last() {
        Some(last) => !is_separator(*last),
        None => within,
    }
}

/// After an article in this front, the front of a word that the rest of it and this byte are, if they are one.
pub fn title_in(front: &[u8], byte: u8) -> Option<&'static [u8]>
    ensures title { IfSome result (λ title. codes "the " ++ title.now ≡ front.now ++ byte ∷ []) }
    ensures joins { MatchOption result (joins_article front.now byte ≡ false) (λ title.
        (joins_article front.now byte ≡ true) × (title.now ≡ drop 4 front.now ++ byte ∷ [])) }
{
    longer(front.strip_prefix(ARTICLE)?, byte)
}
