// The words of a text, one after another.
ghost use Rattle.std.specs.Prelude.{◌≡◌, ◌≤◌, Option, Some, pos, length, leb, get_or, drop, IfSome, MatchResult};
ghost use Rattle.recorded.specs.Decimals.{blanks, word, word_at, word_start, word_end, first_word, after, place, natural};
ghost use Rattle.recorded.specs.Decimals.{all_tell, number_in, Moved};
ghost use Rattle.recorded.specs.Counted.{up_to, first_number, fitting, counted, counted_wholes, counted_bytes};
ghost use Rattle.recorded.specs.Counted.{list_end, in_front, list_in, left_in};
ghost use Rattle.recorded.specs.Lent.{Holds};

use crate::counted::{NO_NUMBER, up_to};
use crate::lent;
use crate::numbers::Number;

// A text, and the place in it from which the next word is looked for. Nothing is asked of the place: from the end on
// there is no word, and no word tells no number. It is the whole text and a place, not a slice of what is left: the
// clauses cite `word_start`, `after` and `list_end`, which are places of the text, and a slice would not say where.
#[derive(Clone, Copy)]
pub struct Words<'a> {
    pub text: &'a [u8],
    pub at: usize,
}

// How many blanks the text begins with.
fn blanks(text: &[u8]) -> usize
    ensures { result ≡ blanks text.now }
{
    text.iter().position(|c| *c > b' ').unwrap_or(text.len())
}

// How long the word is that the text begins with.
fn word_len(text: &[u8]) -> usize
    ensures { result ≡ length (word text.now) }
{
    text.iter().position(|c| *c <= b' ').unwrap_or(text.len())
}

impl<'a> Words<'a> {
    pub fn new(text: &'a [u8]) -> Words<'a>
        ensures text { result.text.now ≡ text.now }
        ensures place { result.at ≡ 0 }
    {
        Words { text, at: 0 }
    }

    // The text from the place on.
    fn rest(&self) -> &'a [u8]
        ensures { result.now ≡ drop self.now.at self.now.text.now }
    {
        self.text.get(self.at..).unwrap_or(&[])
    }

    // Goes on to the next word; whether there is none.
    pub fn is_done(&mut self) -> bool
        ensures value { result ≡ leb (length self.old.text.now) (word_start self.old.text.now self.old.at) }
        ensures place { Moved self.old self.new (word_start self.old.text.now self.old.at) }
    {
        self.at += blanks(self.rest());
        self.at >= self.text.len()
    }

    // What is left of the word at the place: an empty one where a blank stands there, and at the end.
    pub fn rest_of_word(&mut self) -> &'a [u8]
        ensures value { result.now ≡ word_at self.old.text.now self.old.at }
        ensures place { Moved self.old self.new (word_end self.old.text.now self.old.at) }
    {
        let rest = self.rest();
        let n = word_len(rest);
        self.at += n;
        &rest[..n]
    }

    // The next word; an empty one where there is none.
    pub fn word(&mut self) -> &'a [u8]
        ensures value { result.now ≡ first_word self.old.text.now self.old.at }
        ensures place { Moved self.old self.new (after self.old.text.now self.old.at) }
    {
        self.is_done();
        self.rest_of_word()
    }

    // The number that the next word tells.
    pub fn number<T: Number>(&mut self) -> Option<T>
        ensures value { result ≡ T.told (first_word self.old.text.now self.old.at) }
        ensures place { Moved self.old self.new (after self.old.text.now self.old.at) }
    {
        T::tell(self.word())
    }

    // A number that is not below zero.
    pub fn natural(&mut self) -> Option<u32>
        ensures value { result ≡ natural (first_word self.old.text.now self.old.at) }
        ensures place { Moved self.old self.new (after self.old.text.now self.old.at) }
    {
        self.number()
    }

    // A number up to `most`. That is what `value` says already; callers that cut a slice there need `bound` at hand.
    pub fn up_to(&mut self, most: usize) -> Option<usize>
        ensures value { result ≡ fitting self.old.text.now self.old.at most }
        ensures bound { IfSome result (λ n. n ≤ most) }
        ensures place { Moved self.old self.new (after self.old.text.now self.old.at) }
    {
        // As in Rust, no `From` leads from 32 bits to a `usize`.
        let n = self.natural()? as usize;
        (n <= most).then_some(n)
    }

    // As many numbers as `out` is long; none where a word tells none, and there `out` has a nought.
    pub fn fill<T: Number>(&mut self, out: &mut [T]) -> Option<()>
        ensures value { result ≡ all_tell T.told self.old.text.now self.old.at (length out.old) }
        ensures place { Moved self.old self.new (place self.old.text.now self.old.at (length out.old)) }
        ensures holds { Holds T.NOUGHT (number_in T.told T.NOUGHT self.old.text.now self.old.at) out.old out.new }
    {
        let mut all = true;
        for x in out.iter_mut() {
            let n = self.number::<T>();
            all &= n.is_some();
            *x = n.unwrap_or(T::NOUGHT);
        }
        all.then_some(())
    }

    // The number in front of a list; `NO_NUMBER` where its word tells none.
    fn first_number(&mut self) -> u64
        ensures value { result ≡ first_number self.old.text.now self.old.at }
        ensures place { Moved self.old self.new (after self.old.text.now self.old.at) }
    {
        self.natural().map_or(NO_NUMBER, u64::from)
    }

    // A list that says how long it is, into the front of `out`: how many numbers, then each. Of one that has no room
    // nothing is read, and the error is 0. Where a word tells no number it is how many there were, and so many places
    // of `out` are written all the same.
    fn counted<T: Number>(&mut self, out: &mut [T]) -> Result<usize, usize>
        ensures value { result ≡ counted T.told self.old.text.now self.old.at (length out.old) }
        ensures bound { MatchResult result (λ n. n ≤ length out.old) (λ n. n ≤ length out.old) }
        ensures place { Moved self.old self.new (list_end self.old.text.now self.old.at (length out.old)) }
        ensures holds { let text = self.old.text.now in let at = self.old.at in
            Holds T.NOUGHT (in_front (up_to (length out.old) (first_number text at))
            (number_in T.told T.NOUGHT text (after text at)) (λ k. get_or out.old k T.NOUGHT)) out.old out.new }
    {
        let n = self.first_number();
        let count = up_to(out.len(), n);
        let all = self.fill(&mut out[..count]);
        if all.is_some() && count as u64 == n {
            Ok(count)
        } else {
            Err(count)
        }
    }

    // A list of numbers of 32 bits. The count is told and no slice of `out`: `holds` and `list_told` speak of a count
    // and of the whole buffer. `bound` as in `up_to`.
    pub fn list(&mut self, out: &mut [i32]) -> Result<usize, usize>
        ensures value { result ≡ counted_wholes self.old.text.now self.old.at (length out.old) }
        ensures bound { MatchResult result (λ n. n ≤ length out.old) (λ n. n ≤ length out.old) }
        ensures place { Moved self.old self.new (list_end self.old.text.now self.old.at (length out.old)) }
        ensures holds { Holds (pos 0) (list_in self.old.text.now self.old.at out.old) out.old out.new }
    {
        self.counted::<i32>(out)
    }

    // What a call must leave: the bytes that the text has (how many, then each), and after them what was there. It is
    // no `list` of bytes: behind its numbers `list` keeps what was lent, and here that is filled first. The count is
    // told, as by `list`; whoever compares what a call left looks at what stands behind the bytes too.
    pub fn left(&mut self, out: &mut [u8]) -> Result<usize, usize>
        ensures value { result ≡ counted_bytes self.old.text.now self.old.at (length out.old) }
        ensures bound { MatchResult result (λ n. n ≤ length out.old) (λ n. n ≤ length out.old) }
        ensures place { Moved self.old self.new (list_end self.old.text.now self.old.at (length out.old)) }
        ensures holds { Holds 0 (left_in self.old.text.now self.old.at (length out.old)) out.old out.new }
    {
        lent::fill(out);
        self.counted::<u8>(out)
    }
}
