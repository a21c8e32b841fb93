//! The words of a line.

ghost use Rattle.std.specs.Prelude.{◌≡◌, ◌==◌, ◌∷◌, [], MatchOption, position};

use std::marker::Model;

const SPACE: u8 = b' ';

/// The place of the first space.
fn space_in(line: &[u8]) -> Option<usize>
    ensures { result ≡ position (λ byte. byte == 32) line.now }
{
    line.iter().position(|byte| *byte == SPACE)
}

/// The words of a line that are left. One space parts two words, so a word may be empty.
#[derive(Debug, Drop)]
pub struct Words<'a> {
    rest: Option<&'a [u8]>,
}

impl<'a> Model for Words<'a> {
    ghost use Rattle.std.specs.Prelude.{ℕ, List, []};
    ghost use Rattle.std.specs.Option.{option_copied, option_map_or};
    ghost use Rattle.gs_bytes.specs.Words.{words_of};

    ghost Value = { List (List ℕ) };

    ghost view = { λ w. option_map_or words_of (option_copied w.rest) [] };
}

impl<'a> Words<'a> {
    ghost use Rattle.gs_bytes.specs.Words.{words_of};

    /// All words of the line.
    pub fn of(line: &'a [u8]) -> Words<'a>
        ensures { result ≡ words_of line.now }
    {
        Words { rest: Some(line) }
    }

    /// Takes the next word.
    pub fn next_word(&mut self) -> Option<&'a [u8]>
        ensures { MatchOption result ((self.old ≡ []) × (self.new ≡ [])) (λ word. self.old ≡ word.now ∷ self.new) }
    {
        let line = self.rest?;
        match space_in(line) {
            Some(at) => {
                self.rest = Some(&line[at + 1..]);
                Some(&line[..at])
            }
            None => {
                self.rest = None;
                Some(line)
            }
        }
    }
}
