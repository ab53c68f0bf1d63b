//! The words that have a colour.
ghost use Rattle.std.specs.Prelude.{◌≡◌, ◌++◌, ◌∷◌, ◌<◌, ◌+◌, [], true, false, length, take, IfSome, MatchOption};
ghost use Rattle.bully_paint.specs.Strokes.{begins, is_front};
ghost use Rattle.std.specs.Str.{bytes_eq};
ghost use Rattle.bully_paint.specs.Words.{is_separator, painting_of, text_of, word_named};

/// A word that has a colour. It has it only as a whole word: where it stands between what parts words.
#[derive(Clone, Copy)]
pub enum Word {
    Lawful,
    Refused,
    Differs,
    Election,
    Reorganization,
    Normal,
    Down,
    /// The title of a rule in a sheet.
    Rule,
    /// The title of a step in a sheet.
    Step,
    /// What a line about a fault starts with.
    Fault,
    /// What a line about bad words starts with.
    Mistake,
}

/// All of them.
const WORDS: [Word; 11] = [
    Word::Lawful,
    Word::Refused,
    Word::Differs,
    Word::Election,
    Word::Reorganization,
    Word::Normal,
    Word::Down,
    Word::Rule,
    Word::Step,
    Word::Fault,
    Word::Mistake,
];

impl Word {
    /// The word itself.
    pub fn text(self) -> &'static str
        ensures { result.now ≡ text_of self }
    {
        match self {
            Word::Lawful => "lawful",
            Word::Refused => "refused",
            Word::Differs => "differs",
            Word::Election => "election",
            Word::Reorganization => "reorganization",
            Word::Normal => "normal",
            Word::Down => "down",
            Word::Rule => "the rule",
            Word::Step => "the step",
            Word::Fault => "bully:",
            Word::Mistake => "error:",
        }
    }

    /// The word as a terminal gets it: green, red, yellow, cyan, dim or bold.
    pub fn painting(self) -> &'static str
        ensures { result.now ≡ painting_of self }
    {
        match self {
            Word::Lawful => "\x1b[32mlawful\x1b[0m",
            Word::Refused => "\x1b[31mrefused\x1b[0m",
            Word::Differs => "\x1b[31mdiffers\x1b[0m",
            Word::Election => "\x1b[33melection\x1b[0m",
            Word::Reorganization => "\x1b[36mreorganization\x1b[0m",
            Word::Normal => "\x1b[32mnormal\x1b[0m",
            Word::Down => "\x1b[2mdown\x1b[0m",
            Word::Rule => "\x1b[1mthe rule\x1b[0m",
            Word::Step => "\x1b[1mthe step\x1b[0m",
            Word::Fault => "\x1b[31mbully:\x1b[0m",
            Word::Mistake => "\x1b[31merror:\x1b[0m",
        }
    }

    /// The word of this text.
    pub fn named(text: &[u8]) -> Option<Word>
        ensures { result ≡ word_named text.now }
    {
        if is_word(text, Word::Lawful) {
            Some(Word::Lawful)
        } else if is_word(text, Word::Refused) {
            Some(Word::Refused)
        } else if is_word(text, Word::Differs) {
            Some(Word::Differs)
        } else if is_word(text, Word::Election) {
            Some(Word::Election)
        } else if is_word(text, Word::Reorganization) {
            Some(Word::Reorganization)
        } else if is_word(text, Word::Normal) {
            Some(Word::Normal)
        } else if is_word(text, Word::Down) {
            Some(Word::Down)
        } else if is_word(text, Word::Rule) {
            Some(Word::Rule)
        } else if is_word(text, Word::Step) {
            Some(Word::Step)
        } else if is_word(text, Word::Fault) {
            Some(Word::Fault)
        } else if is_word(text, Word::Mistake) {
            Some(Word::Mistake)
        } else {
            None
        }
    }
}

// Whether the text is this word.
fn is_word(text: &[u8], word: Word) -> bool
    ensures { result ≡ bytes_eq text.now (text_of word) }
{
    text == word.text().as_bytes()
}

/// Whether this byte parts words.
pub fn is_separator(byte: u8) -> bool
    ensures { result ≡ is_separator byte }
{
    matches!(byte, b' ' | b'\n' | b',' | b':' | b';' | b'(' | b')')
}

/// The front of a word that this text and this byte are, if they are one.
pub fn longer(front: &[u8], byte: u8) -> Option<&'static [u8]>
    ensures longer { IfSome result (λ longer. longer.now ≡ front.now ++ byte ∷ []) }
    ensures front { MatchOption result (is_front (front.now ++ byte ∷ []) ≡ false) (λ _.
        is_front (front.now ++ byte ∷ []) ≡ true) }
{
    for word in WORDS.iter() {
        let text = word.text().as_bytes();
        if is_next(text, front, byte) {
            return Some(&text[..front.len() + 1]);
        }
    }
    None
}

// Whether the text starts with this front and this byte.
fn is_next(text: &[u8], front: &[u8], byte: u8) -> bool
    ensures next { result ≡ true
        → (length front.now < length text.now) × (take (length front.now + 1) text.now ≡ front.now ++ byte ∷ []) }
    ensures begins { result ≡ begins text.now (front.now ++ byte ∷ []) }
{
    let Some(rest) = text.strip_prefix(front) else {
        return false;
    };
    match rest.first() {
        Some(first) => *first == byte,
        None => false,
    }
}
