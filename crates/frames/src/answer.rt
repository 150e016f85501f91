// The lines of an answer: each is laid into `out` from `at` on, and the place after it comes back. Where it has no
// room, nothing is written and `at` comes back. `out` and `at` are not one slice from `at` on: `Written` speaks of all
// of `out`, and of every `at`, also of one behind its end.
ghost use Rattle.std.specs.Prelude.{◌++◌};
ghost use Rattle.frames.specs.Frames.{line_of, answer_line, refusal_line, fault_line};
ghost use Rattle.frames.specs.Answer.{Written};

use crate::LINE_FEED;
use crate::digits::put_all;

const ANSWER: u8 = 0xA0;

const REFUSAL: u8 = 0xE0;

const FAULT: u8 = 0xEF;

// The line of the bytes of `head` and of `rest`: two digits for each, and a line feed.
fn line(head: &[u8], rest: &[u8], out: &mut [u8], at: usize) -> usize
    ensures { Written (line_of (head.now ++ rest.now)) out.old at result out.new }
{
    let room = out.len().saturating_sub(at);
    if rest.len() >= room.div_ceil(2).saturating_sub(head.len()) {
        return at;
    }
    let next = at + 2 * head.len();
    let end = next + 2 * rest.len();
    put_all(head, &mut out[at..next]);
    put_all(rest, &mut out[next..end]);
    out[end] = LINE_FEED;
    end + 1
}

// A0, the count of pieces and the answer bytes.
pub fn answer_line(pieces: u8, answer: &[u8], out: &mut [u8], at: usize) -> usize
    ensures { Written (answer_line pieces answer.now) out.old at result out.new }
{
    line(&[ANSWER, pieces], answer, out, at)
}

// E0 and the refusal number.
pub fn refusal_line(number: u8, out: &mut [u8], at: usize) -> usize
    ensures { Written (refusal_line number) out.old at result out.new }
{
    line(&[REFUSAL, number], &[], out, at)
}

// EF.
pub fn fault_line(out: &mut [u8], at: usize) -> usize
    ensures { Written fault_line out.old at result out.new }
{
    line(&[FAULT], &[], out, at)
}
