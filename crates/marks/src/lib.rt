// Marks carried across: document 02, K1. A mark in the first drawing lands in the second where the same area weights
// put it, by the wedges of the pair's cutting.
#![tactic(auto)]

ghost use Rattle.std.specs.Prelude.{◌≡◌};
ghost use Rattle.marks.specs.Carry.{point_of, number, CarriesMark, result_of, landing_of};
ghost use Rattle.marks.specs.declared.Refusal.TheVariants as is;

pub mod flat;
mod outside;
mod pieces;
mod sizes;
mod steps;
mod walk;
mod wedge;
mod weights;

use sizes::Coordinates;
use walk::Poses;

// A point of the first drawing, anywhere.
#[derive(Clone, Copy, PartialEq, Eq, Debug)]
pub struct Mark {
    pub x: i32,
    pub y: i32,
}

// One axis of a place: whole steps, rounded down also below zero, and the rest of a step.
#[derive(Clone, Copy, PartialEq, Debug, Default)]
pub struct Axis {
    pub step: i64,
    pub rest: f64,
}

// Where a mark lands: across and up.
#[derive(Clone, Copy, PartialEq, Debug, Default)]
pub struct Place {
    pub x: Axis,
    pub y: Axis,
}

// What the pair's answer was, and where the mark lands: none, on no piece.
#[derive(Clone, Copy, PartialEq, Debug, Default)]
pub struct Carried {
    pub pieces: usize,
    pub bytes: usize,
    pub landing: Option<Place>,
}

// The first line that applies: those of the pair, and then the mark's own, number 10.
#[derive(Clone, Copy, PartialEq, Eq, Debug)]
pub enum Refusal {
    Pair(desk::Refusal),
    OutOfRange,
}

impl From<desk::Refusal> for Refusal {
    ghost from_gives = { λ refusal r. r ≡ is.Pair refusal };

    fn from(refusal: desk::Refusal) -> Refusal {
        Refusal::Pair(refusal)
    }
}

// The number: 01's, or 10.
impl From<Refusal> for u8 {
    ghost from_gives = { λ refusal k. k ≡ number refusal };

    fn from(refusal: Refusal) -> u8 {
        match refusal {
            Refusal::Pair(refusal) => u8::from(refusal),
            Refusal::OutOfRange => 10,
        }
    }
}

// The mark of the first drawing. The room is lent and used as by `desk::answer`: where the pair gets a cutting it
// begins with the cutting's bytes, whether the mark lands or not, and with a refusal it keeps every byte.
pub fn carry(first: &[i32], second: &[i32], mark: Mark, room: &mut [u8]) -> Result<Carried, Refusal>
    ensures { CarriesMark first.now second.now (point_of mark) room.old (result_of result room.new)
        (landing_of result) }
{
    let Some(mark) = Coordinates::of(mark) else {
        return Err(outside::refusal(first, second, room.len()));
    };
    let told = desk::answer(first, second, room)?;
    let poses = Poses {
        first,
        second,
        mark,
    };
    Ok(Carried {
        pieces: told.pieces,
        bytes: told.bytes,
        landing: poses.find(&room[..told.bytes]),
    })
}
