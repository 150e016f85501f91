// What a call gives, whichever of the two it is, but for the buffer. Without a place the two axes are zeros.
use marks::Mark;
use marks::flat::iravikkon_carry;
use recorded::floats::bits;
use recorded::words::Words;
use std::fmt;
use trials::BUFFER;
use trials::reply::Reply;

// The step, and the bits of the rest.
#[derive(Clone, Copy, PartialEq, Eq)]
struct Axis {
    step: i64,
    rest: u64,
}

// `lands` is 1 with a place and 0 without. The axes stand beside it, and are no option of a place: what the call for C
// puts beside a 0 is compared too.
#[derive(Clone, Copy, PartialEq, Eq)]
pub struct Got {
    reply: Reply,
    lands: u32,
    x: Axis,
    y: Axis,
}

const NOWHERE: Axis = Axis { step: 0, rest: 0 };

impl From<marks::Axis> for Axis {
    fn from(axis: marks::Axis) -> Axis {
        Axis {
            step: axis.step,
            rest: bits(axis.rest),
        }
    }
}

impl Axis {
    // What must come back for an axis; none where the step cannot be read. The bits stand as four numbers of 16 bits,
    // high first. Another word there is none that a call gives: then nothing is due.
    fn read(words: &mut Words) -> Option<Option<Axis>> {
        let step = i64::from(words.number::<i32>()?);
        let mut rest = Some(0u64);
        for _ in 0..4 {
            let word = words.natural().and_then(|n| u16::try_from(n).ok());
            rest = rest
                .zip(word)
                .map(|(high, word)| high << 16 | u64::from(word));
        }
        Some(rest.map(|rest| Axis { step, rest }))
    }
}

impl Got {
    // What must come back, as a text has it; the buffer that the call must leave is put into `after`. None where the
    // bytes or a step cannot be read. Any other word that is no number is none that a call gives: then nothing is due.
    pub fn read(words: &mut Words, after: &mut [u8; BUFFER]) -> Option<Option<Got>> {
        let reply = Reply::read(words, after)?;
        let lands = words.natural();
        let x = Axis::read(words)?;
        let y = Axis::read(words)?;
        Some(Got::due(reply, lands, x, y))
    }

    // All of it was read: none where a word is one that no call gives.
    fn due(
        reply: Option<Reply>,
        lands: Option<u32>,
        x: Option<Axis>,
        y: Option<Axis>,
    ) -> Option<Got> {
        Some(Got {
            reply: reply?,
            lands: lands?,
            x: x?,
            y: y?,
        })
    }
}

impl fmt::Display for Got {
    fn fmt<W: fmt::Write>(&self, f: &mut fmt::Formatter<W>) -> fmt::Result {
        let reply = self.reply;
        let lands = self.lands;
        let x = self.x.rest;
        let y = self.y.rest;
        write!(f, "{reply}, lands {lands}; bits of the rests {x}, {y}")
    }
}

// The calls themselves, with nothing promised: what comes back is compared here, and its proof stands elsewhere.
pub fn plain(first: &[i32], second: &[i32], mark: Mark, room: &mut [u8]) -> Got {
    match marks::carry(first, second, mark, room) {
        Ok(carried) => Got {
            reply: Reply {
                number: 0,
                pieces: carried.pieces,
                bytes: carried.bytes,
            },
            lands: u32::from(carried.landing.is_some()),
            x: carried.landing.map_or(NOWHERE, |place| Axis::from(place.x)),
            y: carried.landing.map_or(NOWHERE, |place| Axis::from(place.y)),
        },
        Err(refusal) => Got {
            reply: Reply::refused(u8::from(refusal)),
            lands: 0,
            x: NOWHERE,
            y: NOWHERE,
        },
    }
}

pub fn for_c(first: &[i32], second: &[i32], mark: Mark, room: &mut [u8]) -> Got {
    let flat = iravikkon_carry(first, second, mark.x, mark.y, room);
    Got {
        reply: Reply {
            number: u32::from(flat.number),
            pieces: flat.pieces,
            bytes: flat.bytes,
        },
        lands: u32::from(flat.lands == 1),
        x: Axis {
            step: flat.x_step,
            rest: bits(flat.x_rest),
        },
        y: Axis {
            step: flat.y_step,
            rest: bits(flat.y_rest),
        },
    }
}
