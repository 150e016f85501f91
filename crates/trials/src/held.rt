// A call that is lent room in a buffer, held to what must come back.
ghost use Rattle.std.specs.Prelude.{◌<◌, MatchOption};
ghost use Rattle.std.specs.Fn.{FnOnceReturnsAtMut};
ghost use Rattle.trials.specs.Held.{HeldTo, gives_due};

use crate::lines::Call;
use recorded::lent::{agree, fill};
use std::fmt;

// Whether the call, with the first `room` bytes of a buffer, gives what is due and leaves the whole buffer as `after`
// has it; where it does not, what it gave is told. A line may ask for what no call gives: then nothing is due, and the
// call is not right. None where the buffer has no such room.
pub fn held<G: PartialEq + fmt::Display + Drop, F: FnOnce(&mut [u8]) -> G, const N: usize>(
    rt: &impl Print,
    call: Call,
    room: usize,
    due: Option<G>,
    after: &[u8; N],
    answer: F,
) -> Option<bool>
    requires { F.IsAlwaysCallable answer }
    ensures { MatchOption result (N < room)
        (HeldTo (FnOnceReturnsAtMut F.FnOnce answer) (gives_due G.eq due) room after.now) }
{
    if N < room {
        return None;
    }
    let mut buffer = [0u8; N];
    fill(&mut buffer);
    let got = answer(&mut buffer[..room]);
    let place = agree(&buffer, after);
    let right = due.is_some_and(|due| got == due) && place == N;
    if !right {
        let _ = println!(rt; "{call}: {got}; the buffer is right up to place {place}");
    }
    Some(right)
}
