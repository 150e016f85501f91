// What comes back from a call for a cutting, but for the buffer.
ghost use Rattle.std.specs.Prelude.{Some, codes, ◌++◌, ◌≡◌, length};
ghost use Rattle.std.specs.Fmt.{decimal};
ghost use Rattle.std.specs.Result.{result_ok};
ghost use Rattle.recorded.specs.Counted.{counted_bytes, left_in, list_end};
ghost use Rattle.recorded.specs.Decimals.{Moved, after, first_word, natural};
ghost use Rattle.recorded.specs.Lent.{Holds};
ghost use Rattle.trials.specs.Replies.{reply};

use crate::BUFFER;
use recorded::words::Words;
use std::fmt;

// Three numbers, as the files have them, and no `Result`: what the call for C puts beside a refusal's number is
// compared too.
#[derive(Clone, Copy, PartialEq, Eq)]
pub struct Reply {
    pub number: u32,
    pub pieces: usize,
    pub bytes: usize,
}

impl Reply {
    // With a refusal come no pieces and no bytes.
    pub fn refused(number: u8) -> Reply
        ensures { result ≡ record { number = number; pieces = 0; bytes = 0 } }
    {
        Reply {
            number: u32::from(number),
            pieces: 0,
            bytes: 0,
        }
    }

    // What must come back, as a text has it; the buffer that the call must leave is put into `buffer`. None where that
    // cannot be read. A word that is no number, where the number or the pieces stand, is none that a call gives: the
    // text can be read, and nothing is due.
    pub fn read(words: &mut Words, buffer: &mut [u8; BUFFER]) -> Option<Option<Reply>>
        ensures value { let text = words.old.text.now in let at = words.old.at in
            result ≡ reply (natural (first_word text at)) (natural (first_word text (after text at)))
            (result_ok (counted_bytes text (after text (after text at)) (length buffer.old))) }
        ensures place { let text = words.old.text.now in let at = words.old.at in
            Moved words.old words.new (list_end text (after text (after text at)) (length buffer.old)) }
        ensures holds { let text = words.old.text.now in let at = words.old.at in
            Holds 0 (left_in text (after text (after text at)) (length buffer.old)) buffer.old buffer.new }
    {
        let number = words.natural();
        let pieces = words.natural();
        let bytes = words.left(buffer).ok()?;
        Some(
            number.zip(pieces).map(|(number, pieces)| Reply {
                number,
                pieces: pieces as usize,
                bytes,
            }),
        )
    }
}

impl fmt::Display for Reply {
    ghost output = { λ r. Some (codes "number " ++ decimal r.number ++ codes ", pieces " ++ decimal r.pieces
        ++ codes ", bytes " ++ decimal r.bytes) };

    fn fmt<W: fmt::Write>(&self, f: &mut fmt::Formatter<W>) -> fmt::Result {
        let Reply {
            number,
            pieces,
            bytes,
        } = self;
        write!(f, "number {number}, pieces {pieces}, bytes {bytes}")
    }
}
