// The call as C takes it: what comes back is a flat struct, by value.
ghost use Rattle.std.specs.Prelude.{◌≡◌};
ghost use Rattle.marks.specs.Carry.{mark};
ghost use Rattle.marks.specs.Flat.{flat, CarriesFlat};

use crate::{Carried, Mark, Refusal, carry};

// `lands` is 1 with a place and 0 without; without one the steps and rests are 0. A flag beside its values, and a
// number for a refusal: C has neither Option nor Result.
#[repr(C)]
#[derive(Clone, Copy)]
pub struct Flat {
    pub number: u8,
    pub lands: u8,
    pub pieces: usize,
    pub bytes: usize,
    pub x_step: i64,
    pub x_rest: f64,
    pub y_step: i64,
    pub y_rest: f64,
}

impl From<Result<Carried, Refusal>> for Flat {
    ghost from_gives = { λ carried f. f ≡ flat carried };

    fn from(carried: Result<Carried, Refusal>) -> Flat {
        let (number, carried) = match carried {
            Ok(carried) => (0, carried),
            Err(refusal) => (u8::from(refusal), Carried::default()),
        };
        let place = carried.landing.unwrap_or_default();
        Flat {
            number,
            lands: u8::from(carried.landing.is_some()),
            pieces: carried.pieces,
            bytes: carried.bytes,
            x_step: place.x.step,
            x_rest: place.x.rest,
            y_step: place.y.step,
            y_rest: place.y.rest,
        }
    }
}

// By its name for C. Crate `marks_c` exports it, as a library of Rattle exports nothing.
pub fn iravikkon_carry(first: &[i32], second: &[i32], x: i32, y: i32, room: &mut [u8]) -> Flat
    ensures { CarriesFlat first.now second.now (mark x y) room.old room.new result }
{
    Flat::from(carry(first, second, Mark { x, y }, room))
}
