ghost use Rattle.std.specs.Prelude.{◌≡◌, ◌≤◌, ◌∷◌, [], length};
ghost use Rattle.std.specs.List.{position_or_len};
ghost use Rattle.std.specs.Option.{MatchOption};
ghost use Rattle.bully_table.specs.TableText.{pieces_of};
ghost use Rattle.bully_table.specs.Pieces.{is_space};

use std::marker::Model;

/// The pieces of a text that are still to be taken. They are cut at each space.
#[derive(Drop)]
pub struct Pieces<'a> {
    rest: Option<&'a [u8]>,
}

impl<'a> Model for Pieces<'a> {
    ghost use Rattle.std.specs.Prelude.{List, ℕ};
    ghost use Rattle.bully_table.specs.Pieces.{pieces_left};

    ghost Value = { List (List ℕ) };

    ghost view = { λ p. pieces_left p.rest };
}

impl<'a> Pieces<'a> {
    /// All pieces of the text: at least one.
    pub fn of(text: &'a [u8]) -> Self
        ensures { result ≡ pieces_of text.now }
    {
        Pieces { rest: Some(text) }
    }

    /// Takes the next piece; none where all are taken.
    pub fn next(&mut self) -> Option<&'a [u8]>
        ensures { MatchOption result ((self.old ≡ []) × (self.new ≡ [])) (λ piece. self.old ≡ piece.now ∷ self.new) }
    {
        let Some(rest) = self.rest else {
            return None;
        };
        let (piece, tail) = rest.split_at(bytes_before_space(rest));
        if tail.is_empty() {
            self.rest = None;
        } else {
            self.rest = Some(&tail[1..]);
        }
        Some(piece)
    }
}

// How many bytes stand before the first space, or in the text that has none.
fn bytes_before_space(text: &[u8]) -> usize
    ensures value { result ≡ position_or_len is_space text.now }
    ensures within { result ≤ length text.now }
{
    let mut count = 0;
    while count < text.len() && text[count] != b' ' {
        count += 1;
    }
    count
}
