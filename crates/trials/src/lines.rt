// The lines of a file, tried one after another.
ghost use Rattle.std.specs.Prelude.{Some, codes, ◌++◌, ◌≡◌, ◌≢◌, ◌≤◌, true, not, filter, length};
ghost use Rattle.std.specs.Fmt.{decimal};
ghost use Rattle.recorded.specs.Decimals.{word_start};
ghost use Rattle.trials.specs.Names.{call_text};
ghost use Rattle.trials.specs.Steps.{Each};

use crate::TEXT;
use recorded::words::Words;
use std::fmt;
use std::rt::Files;

// Which call it is: that of a line of a file, or one at the limits, which stands in no file.
#[derive(Clone, Copy, PartialEq, Eq)]
pub enum Call {
    Line(u64),
    Limit(u64),
}

impl fmt::Display for Call {
    ghost output = { λ call. Some (call_text call) };

    fn fmt<W: fmt::Write>(&self, f: &mut fmt::Formatter<W>) -> fmt::Result {
        match self {
            Call::Line(number) => write!(f, "line {number}"),
            Call::Limit(number) => write!(f, "limits, call {number}"),
        }
    }
}

// How many calls there were, and how many did not give what they must.
#[derive(Clone, Copy, PartialEq, Eq)]
pub struct Tally {
    pub calls: u64,
    pub differences: u64,
}

impl fmt::Display for Tally {
    ghost output = { λ t.
        Some (decimal t.calls ++ codes " calls, " ++ decimal t.differences ++ codes " differences") };

    fn fmt<W: fmt::Write>(&self, f: &mut fmt::Formatter<W>) -> fmt::Result {
        write!(f, "{} calls, {} differences", self.calls, self.differences)
    }
}

impl Tally {
    // Of calls that are told one by one: whether each gave what it must.
    pub fn of(right: &[bool]) -> Tally
        ensures calls { result.calls ≡ length right.now }
        ensures differences { result.differences ≡ length (filter (λ b. not b) right.now) }
    {
        Tally {
            calls: right.len() as u64,
            differences: right.iter().filter(|right| !**right).count() as u64,
        }
    }
}

// Each line of the text, tried in turn: what gives whether its call came out right, or none where the line cannot be
// read. That is told, counts as a difference and ends the text. Of the closure it is asked only that it may be called,
// as of any that is called here: one that needs nothing of its arguments can be passed.
pub fn lines<F: FnMut(&mut Words, Call) -> Option<bool>>(
    rt: &impl Print,
    text: &[u8],
    mut tried: F,
) -> Tally
    requires { F.IsAlwaysCallable tried }
    ensures calls { result.calls ≤ length text.now }
    ensures none { result.calls ≡ 0 → length text.now ≤ word_start text.now 0 }
    ensures differences { result.differences ≤ result.calls }
    ensures right { Each F.step (λ r. r ≡ Some true) → result.differences ≡ 0 }
    ensures wrong { Each F.step (λ r. r ≢ Some true) → result.differences ≡ result.calls }
{
    let mut words = Words::new(text);
    let mut tally = Tally {
        calls: 0,
        differences: 0,
    };
    // a line has a byte at least
    for _line in 0..text.len() {
        if words.is_done() {
            return tally;
        }
        tally.calls += 1;
        let call = Call::Line(tally.calls);
        let Some(right) = tried(&mut words, call) else {
            let _ = println!(rt; "{call} cannot be read");
            tally.differences += 1;
            return tally;
        };
        tally.differences += u64::from(!right);
    }
    tally
}

// The lines of the file of that name. One that cannot be opened has none.
pub fn file<F: FnMut(&mut Words, Call) -> Option<bool>>(
    rt: &(impl Files + Print),
    name: &str,
    tried: F,
) -> Tally
    requires { F.IsAlwaysCallable tried }
    ensures calls { result.calls ≤ TEXT }
    ensures differences { result.differences ≤ result.calls }
    ensures right { Each F.step (λ r. r ≡ Some true) → result.differences ≡ 0 }
    ensures wrong { Each F.step (λ r. r ≢ Some true) → result.differences ≡ result.calls }
{
    let mut text = [0u8; TEXT];
    let n = loading::load(rt, name, &mut text);
    lines(rt, &text[..n], tried)
}
