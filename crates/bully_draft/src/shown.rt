//! What comes from outside, as a sheet shows it: it ends no line, and turns nothing that stands around it.
ghost use Rattle.std.specs.Prelude.{◌≡◌, ◌++◌, OnOk, map, string_bytes};
ghost use Rattle.std.specs.Str.{chars};
ghost use Rattle.bully_draft.specs.Shown.{AllPlain, AllPrinted, is_control, shown, shown_byte, shown_letter};

use bully_base::OutOfMemory;

/// Appends the letters of the text. In place of each control character, each separator of lines or of paragraphs, and
/// each mark that turns the direction of the text around it there is a question mark.
pub fn push_shown(text: &mut String, raw: &str) -> Result<(), OutOfMemory>
    ensures shown { OnOk result (string_bytes text.new ≡ string_bytes text.old ++ shown raw.now) }
    ensures plain { AllPlain (chars (shown raw.now)) }
{
    for letter in raw.chars() {
        text.push(shown_letter(letter))?;
    }
    Ok(())
}

/// Appends the bytes; one that is no printed ASCII character as a question mark.
pub fn push_bytes(text: &mut String, raw: &[u8]) -> Result<(), OutOfMemory>
    ensures shown { OnOk result (string_bytes text.new ≡ string_bytes text.old ++ map shown_byte raw.now) }
    ensures printed { AllPrinted (map shown_byte raw.now) }
{
    for byte in raw {
        text.push(shown_byte(*byte))?;
    }
    Ok(())
}

// The letter, where it is shown as it is.
fn shown_letter(letter: char) -> char
    ensures { result ≡ shown_letter letter }
{
    if is_control(letter) { '?' } else { letter }
}

// Whether it is a control character, a separator of lines or paragraphs, or a mark that turns the direction of the text
// around it.
fn is_control(letter: char) -> bool
    ensures { result ≡ is_control letter }
{
    letter < ' '
        || ('\u{7f}' <= letter && letter < '\u{a0}')
        || letter == '\u{61c}'
        || ('\u{200e}' <= letter && letter <= '\u{200f}')
        || ('\u{2028}' <= letter && letter <= '\u{202e}')
        || ('\u{2066}' <= letter && letter <= '\u{2069}')
}

// The byte as a letter, where it is a printed ASCII character.
fn shown_byte(byte: u8) -> char
    ensures { result ≡ shown_byte byte }
{
    match byte {
        b' '..=b'~' => char::from(byte),
        _ => '?',
    }
}
