// What is refused where the mark is out of range: what 01 refuses of the pair, and else the mark. The pair is answered
// in a spare room, so that the caller's keeps every byte.
ghost use Rattle.marks.specs.Carry.{number};
ghost use Rattle.marks.specs.Parts.{Outside};

use crate::Refusal;
use limits::ROOM;

// Number 2 hangs on how much room there is: the spare room is as long as the caller's, but no longer than any cutting
// needs.
pub fn refusal(first: &[i32], second: &[i32], lent: usize) -> Refusal
    ensures { Outside first.now second.now lent (number result) }
{
    let len = lent.min(ROOM);
    let mut spare = [0u8; ROOM];
    match desk::answer(first, second, &mut spare[..len]) {
        Ok(_) => Refusal::OutOfRange,
        Err(refusal) => Refusal::from(refusal),
    }
}
