//! The words of requests and replies that rows of traces don't have.
ghost use Rattle.std.specs.Prelude.{◌≡◌};
ghost use Rattle.bully_lines.specs.Words.{answer_named};

use bully_calls::Answer;
use bully_rows::answer_word;

/// The first field of a request.
pub const ASK: &str = "ask";

/// The first field of a reply.
pub const TELL: &str = "tell";

/// The answer of this word: one that a call is given where it runs.
pub fn answer_named(word: &str) -> Option<Answer>
    ensures { result ≡ answer_named word.now }
{
    if word == answer_word(Answer::Yes) {
        Some(Answer::Yes)
    } else if word == answer_word(Answer::No) {
        Some(Answer::No)
    } else {
        None
    }
}
