//! Words of rows.
ghost use Rattle.std.specs.Prelude.{◌≡◌};
ghost use Rattle.std.specs.Str.{bytes_eq};

/// Whether the text is this word.
// (by its start: `==` calls a function for what is after the first four bytes)
#[inline(always)]
pub fn is_word(text: &[u8], word: &str) -> bool
    ensures { result ≡ bytes_eq text.now word.now }
{
    text.len() == word.len() && word.as_bytes().starts_with(text)
}
