// What comes back for a pair of drawings: document 01, "What comes back". The checks run in the order of its table; a
// sound pair is cut.
#![tactic(auto)]

ghost use Rattle.std.specs.Prelude.{◌≡◌};
ghost use Rattle.desk.specs.Answer.{Answers, number, outcome_of, result_of, for_c};
ghost use Rattle.desk.specs.declared.Refusal.TheVariants as is;

mod cut;
pub mod stages;

use cut::cut;
use limits::ALL_CELLS;
use telling::Told;

// The first line of 01's table that applies: lines 1 and 3 to 8 are the pair's own.
#[derive(Clone, Copy, PartialEq, Eq, Debug)]
pub enum Refusal {
    Pair(pair::Refusal),
    Room,
    NoCutting,
}

impl From<pair::Refusal> for Refusal {
    ghost from_gives = { λ refusal r. r ≡ is.Pair refusal };

    fn from(refusal: pair::Refusal) -> Refusal {
        Refusal::Pair(refusal)
    }
}

// 01's number.
impl From<Refusal> for u8 {
    ghost from_gives = { λ refusal k. k ≡ number refusal };

    fn from(refusal: Refusal) -> u8 {
        match refusal {
            Refusal::Pair(refusal) => u8::from(refusal),
            Refusal::Room => 2,
            Refusal::NoCutting => 9,
        }
    }
}

// What comes back, as the C interface has it: 01's number, the count of pieces and the count of bytes used. Numbers 1
// to 9 come with no pieces and no bytes.
#[repr(C)]
#[derive(Clone, Copy)]
pub struct Outcome {
    pub number: u8,
    pub pieces: usize,
    pub bytes: usize,
}

impl From<Result<Told, Refusal>> for Outcome {
    ghost from_gives = { λ answer o. o ≡ outcome_of answer };

    fn from(answer: Result<Told, Refusal>) -> Outcome {
        match answer {
            Ok(Told { pieces, bytes }) => Outcome {
                number: 0,
                pieces,
                bytes,
            },
            Err(refusal) => Outcome {
                number: u8::from(refusal),
                pieces: 0,
                bytes: 0,
            },
        }
    }
}

// The lines of 01's table in their order. The sight of both drawings is told by the call that judges them, and a sound
// pair is cut by it.
fn look(
    first: &[i32],
    second: &[i32],
    sight1: &mut [u8; ALL_CELLS],
    sight2: &mut [u8; ALL_CELLS],
    room: &mut [u8],
) -> Result<Told, Refusal>
    ensures { Answers first.now second.now room.old (result_of result room.new) }
{
    let sound = pair::sight(first, second, sight1, sight2);
    if sound == Err(pair::Refusal::Unlike) {
        return Err(Refusal::Pair(pair::Refusal::Unlike));
    }
    if room.len() < 5 * (first.len() / 2) - 10 {
        return Err(Refusal::Room);
    }
    sound?;
    cut(first.len() / 2, sight1, sight2, room)
}

// The answer for a pair: what was told, and then the room begins with the bytes of the first smallest cutting; or a
// refusal, and then it keeps every byte. The cells of both drawings stand in this function's frame: 01's flat arrays.
pub fn answer(first: &[i32], second: &[i32], room: &mut [u8]) -> Result<Told, Refusal>
    ensures { Answers first.now second.now room.old (result_of result room.new) }
{
    let mut sight1 = [0u8; ALL_CELLS];
    let mut sight2 = [0u8; ALL_CELLS];
    look(first, second, &mut sight1, &mut sight2, room)
}

// The same call by its name for C. Crate `desk_c` exports it, as a library of Rattle exports nothing.
pub fn iravikkon_answer(first: &[i32], second: &[i32], room: &mut [u8]) -> Outcome
    ensures { Answers first.now second.now room.old (for_c result room.new) }
{
    Outcome::from(answer(first, second, room))
}
