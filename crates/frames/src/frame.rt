// One line, a byte at a time: two digits for the tag, two for the count of corners, six for each number.
ghost use Rattle.std.specs.Prelude.{◌≡◌, ◌<◌};
ghost use Rattle.frames.specs.Frames.{two's_complement};
ghost use Rattle.frames.specs.Reader.{nothing_read, closes, begins, reads};

use crate::digits::worth;
use crate::{Fault, LINE_FEED, Line};
use limits::MOST_CORNERS;

// The digits of the first two bytes, and of a number, but for the last.
const HEAD: usize = 3;

const NUMBER: usize = 5;

// Above each value of five digits; above each of six, and the half of that.
const FIVE_DIGITS: u32 = 0x10_0000;

const SIX_DIGITS: i32 = 0x100_0000;

const HALF: u32 = 0x80_0000;

// What a byte did to a line that may still be a frame: it goes on, or it is a whole frame of so many numbers. Neither
// is a failure, so this is no `Result`; one stands around it, for the fault.
#[derive(Clone, Copy, PartialEq, Eq, Debug)]
pub enum After {
    On(Line),
    Frame(usize),
}

// The number of three bytes, in two's complement. (`as`: six digits fit, and `try_from` would bring a case that cannot
// come.)
fn number(value: u32) -> i32
    requires { value < 0x1000000 }
    ensures { result ≡ two's_complement value }
{
    if value < HALF {
        value as i32
    } else {
        value as i32 - SIX_DIGITS
    }
}

// One digit more of the first two bytes, of which `digits` are read; with it their value is `value`.
#[tactic(auto, unfolding(crate::specs::Reader::begins))]
fn begin(tag: u8, digits: usize, value: u32) -> Result<After, Fault>
    ensures { result ≡ begins tag digits value }
{
    if digits < HEAD {
        return Ok(After::On(Line::Head {
            digits: digits + 1,
            value,
        }));
    }
    let empty = u32::from(tag) * 256;
    if value < empty {
        return Err(Fault);
    }
    // 01: "a byte n from 00 to 40 (hexadecimal)"
    let n = (value - empty) as usize;
    if n > MOST_CORNERS {
        return Err(Fault);
    }
    Ok(After::On(Line::Body {
        want: 2 * n,
        at: 0,
        digits: 0,
        value: 0,
    }))
}

impl Line {
    pub(crate) fn blank() -> Line
        ensures { result ≡ nothing_read }
    {
        Line::Head {
            digits: 0,
            value: 0,
        }
    }

    // A character that is no digit: a line feed may end the line.
    #[tactic(auto, unfolding(crate::specs::Reader::closes))]
    fn close(self, c: u8, room: usize) -> Result<After, Fault>
        ensures { result ≡ closes self c room }
    {
        match self {
            Line::Body {
                want,
                at,
                digits,
                ..
            } if c == LINE_FEED && digits == 0 && at == want && at <= room => {
                Ok(After::Frame(at))
            }
            _ => Err(Fault),
        }
    }

    // The next character of a line whose frame has the first byte `tag`; its numbers go into `numbers`.
    pub(crate) fn read(self, tag: u8, c: u8, numbers: &mut [i32]) -> Result<After, Fault>
        ensures { (result, numbers.new) ≡ reads tag self numbers.old c }
    {
        let Some(digit) = worth(c) else {
            return self.close(c, numbers.len());
        };
        match self {
            Line::Head { digits, value } => {
                begin(tag, digits, value % FIVE_DIGITS * 16 + u32::from(digit))
            }
            Line::Body {
                want,
                at,
                digits,
                value,
            } => {
                if at >= want {
                    return Err(Fault);
                }
                let value = value % FIVE_DIGITS * 16 + u32::from(digit);
                if digits < NUMBER {
                    return Ok(After::On(Line::Body {
                        want,
                        at,
                        digits: digits + 1,
                        value,
                    }));
                }
                if at >= numbers.len() {
                    return Err(Fault);
                }
                numbers[at] = number(value);
                Ok(After::On(Line::Body {
                    want,
                    at: at + 1,
                    digits: 0,
                    value: 0,
                }))
            }
        }
    }
}
