//! Text in a picture: what XML keeps for itself is written by its name.
ghost use Rattle.std.specs.Prelude.{◌≡◌, ◌++◌, OnOk, string_bytes};
ghost use Rattle.std.specs.Str.{chars};
ghost use Rattle.bully_picture.specs.Escaping.{cut_text, escaped, escaped_letter, hover_text, is_forbidden, shortened};
ghost use Rattle.bully_picture.specs.Harmless.{IsHarmless};

use bully_base::OutOfMemory;

/// Appends the text as XML takes it within an element or an attribute: `<`, `>`, `&` and both quotes by their names,
/// and a mark in place of what XML forbids. So nothing of it starts or ends a tag or an attribute.
pub fn push_escaped(text: &mut String, raw: &str) -> Result<(), OutOfMemory>
    ensures escaped { OnOk result (string_bytes text.new ≡ string_bytes text.old ++ escaped (chars raw.now)) }
    ensures harmless { IsHarmless (chars (escaped (chars raw.now))) }
{
    for letter in raw.chars() {
        push_letter(text, letter)?;
    }
    Ok(())
}

/// The same of the first letters, so many, with three dots after them where there are more.
pub fn push_start(text: &mut String, raw: &str, most: usize) -> Result<(), OutOfMemory>
    ensures escaped { OnOk result (string_bytes text.new ≡ string_bytes text.old
        ++ escaped (shortened most (chars raw.now))) }
    ensures harmless { IsHarmless (chars (escaped (shortened most (chars raw.now)))) }
{
    let mut count = 0usize;
    for letter in raw.chars() {
        if count >= most {
            return push_letter(text, '…');
        }
        push_letter(text, letter)?;
        count += 1;
    }
    Ok(())
}

/// Appends so many letters of a line as XML takes them, and, where it is longer, all of it for where the pointer rests.
pub fn push_cut(text: &mut String, line: &str, letters: usize) -> Result<(), OutOfMemory>
    ensures { OnOk result (string_bytes text.new ≡ string_bytes text.old ++ cut_text letters line.now) }
{
    push_start(text, line, letters)?;
    if line.len() <= letters {
        return Ok(());
    }
    push_hover(text, line)
}

// Appends what is shown where the pointer rests.
fn push_hover(text: &mut String, line: &str) -> Result<(), OutOfMemory>
    ensures { OnOk result (string_bytes text.new ≡ string_bytes text.old ++ hover_text line.now) }
{
    text.push_str("<title>")?;
    push_escaped(text, line)?;
    text.push_str("</title>")
}

// Appends one letter.
fn push_letter(text: &mut String, letter: char) -> Result<(), OutOfMemory>
    ensures { OnOk result (string_bytes text.new ≡ string_bytes text.old ++ escaped_letter letter) }
{
    if letter == '<' {
        text.push_str("&lt;")
    } else if letter == '>' {
        text.push_str("&gt;")
    } else if letter == '&' {
        text.push_str("&amp;")
    } else if letter == '"' {
        text.push_str("&quot;")
    } else if letter == '\'' {
        text.push_str("&#39;")
    } else if is_forbidden(letter) {
        text.push('\u{fffd}')
    } else {
        text.push(letter)
    }
}

// Whether it is a control character, or one that no XML document has.
fn is_forbidden(letter: char) -> bool
    ensures { result ≡ is_forbidden letter }
{
    letter < ' '
        || ('\u{7f}' <= letter && letter < '\u{a0}')
        || letter == '\u{fffe}'
        || letter == '\u{ffff}'
}
