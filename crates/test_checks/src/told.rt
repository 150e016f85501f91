// What a call tells, whichever of the two it was. The number of each case stands here again: what the call for C makes
// of the cases is compared too.
use checker::Fault;
use checker::flat::iravikkon_check;
use pair::{Refusal, Which};
use recorded::words::Words;
use std::fmt;

// 02's number, and with 23 and 24 the place and the drawing, 1 or 2; else two zeros.
#[derive(Clone, Copy, PartialEq, Eq)]
pub struct Told {
    number: u32,
    place: usize,
    drawing: u32,
}

impl Told {
    // What must come back, as a text has it.
    pub fn read(words: &mut Words) -> Option<Told> {
        Some(Told {
            number: words.natural()?,
            place: words.natural()? as usize,
            drawing: words.natural()?,
        })
    }
}

impl fmt::Display for Told {
    fn fmt<W: fmt::Write>(&self, f: &mut fmt::Formatter<W>) -> fmt::Result {
        write!(
            f,
            "number {}, place {}, drawing {}",
            self.number, self.place, self.drawing
        )
    }
}

fn numbered(number: u32) -> Told {
    Told {
        number,
        place: 0,
        drawing: 0,
    }
}

fn numbered_at(number: u32, place: usize, drawing: Which) -> Told {
    let drawing = match drawing {
        Which::First => 1,
        Which::Second => 2,
    };
    Told {
        number,
        place,
        drawing,
    }
}

// The calls themselves, with nothing promised: what comes back is compared here, and its proof stands elsewhere.
pub fn plain(first: &[i32], second: &[i32], list: &[u8]) -> Told {
    match checker::check(first, second, list) {
        Ok(()) => numbered(0),
        Err(Fault::Pair(Refusal::Unlike)) => numbered(1),
        Err(Fault::Pair(Refusal::FirstOutOfRange)) => numbered(3),
        Err(Fault::Pair(Refusal::FirstNotSimple)) => numbered(4),
        Err(Fault::Pair(Refusal::FirstNotAnticlockwise)) => numbered(5),
        Err(Fault::Pair(Refusal::SecondOutOfRange)) => numbered(6),
        Err(Fault::Pair(Refusal::SecondNotSimple)) => numbered(7),
        Err(Fault::Pair(Refusal::SecondNotAnticlockwise)) => numbered(8),
        Err(Fault::NoList) => numbered(21),
        Err(Fault::NoCutting) => numbered(22),
        Err(Fault::Unseen { place, drawing }) => numbered_at(23, place, drawing),
        Err(Fault::Misses { place, drawing }) => numbered_at(24, place, drawing),
    }
}

pub fn for_c(first: &[i32], second: &[i32], list: &[u8]) -> Told {
    let flat = iravikkon_check(first, second, list);
    Told {
        number: u32::from(flat.number),
        place: flat.place,
        drawing: u32::from(flat.drawing),
    }
}
