// The words of a command line: bytes in which a 0 byte ends each word.
ghost use Rattle.std.specs.Prelude.{◌≡◌, eqb, position};
ghost use Rattle.std.specs.Iterator.{YieldsFirstRef, item_count};
ghost use Rattle.text.specs.Words.{line_words};

use std::marker::Model;

// The words of a line, without their 0 bytes. What stands behind the last 0 byte is none.
#[derive(Drop)]
pub struct Words<'a> {
    rest: &'a [u8],
}

// A clause sees the list of the words that are left.
impl<'a> Model for Words<'a> {
    ghost use Rattle.std.specs.Prelude.{ℕ, List};
    ghost use Rattle.text.specs.Words.{line_words};

    ghost Value = { List (List ℕ) };

    ghost view = { λ words. line_words words.rest.now };
}

// The place of the first 0 byte of a line. A function of its own for its contract, by which the proof of `next` knows what a run of
// `position` gives.
fn word_end(line: &[u8]) -> Option<usize>
    ensures { result ≡ position (λ b. eqb b 0) line.now }
{
    line.iter().position(|byte| *byte == 0)
}

impl<'a> Iterator for Words<'a> {
    type Item = &'a [u8];

    ghost next_gives = { YieldsFirstRef (λ words. words) };

    ghost remaining = { item_count (λ words. words) };

    #[tactic(auto, using(crate::proofs::WordList::words_none, crate::proofs::WordList::words_first, crate::proofs::WordList::words_fewer))]
    fn next(&mut self) -> Option<&'a [u8]> {
        let end = word_end(self.rest)?;
        let word = &self.rest[..end];
        self.rest = &self.rest[end + 1..];
        Some(word)
    }
}

impl<'a> Words<'a> {
    // The words of a line.
    pub fn new(line: &'a [u8]) -> Self
        ensures { result ≡ line_words line.now }
    {
        Words { rest: line }
    }
}
