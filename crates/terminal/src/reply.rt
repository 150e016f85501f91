// The line of a pair.
ghost use Rattle.frames.specs.Frames.{pair};
ghost use Rattle.terminal.specs.Laying.{Space, Laid};

use limits::ROOM;

// Lays the line of a pair into `out` from `at` on, and returns the place after it.
pub fn reply(first: &[i32], second: &[i32], out: &mut [u8], at: usize) -> usize
    requires { Space first.now out.old at }
    ensures { Laid (pair first.now second.now) out.old at result out.new }
{
    let mut room = [0u8; ROOM];
    match desk::answer(first, second, &mut room) {
        // `as`: it is proved that an answer has fewer than 256 pieces, and `try_from` would bring a case that cannot
        // come.
        Ok(told) => frames::answer::answer_line(told.pieces as u8, &room[..told.bytes], out, at),
        Err(refusal) => frames::answer::refusal_line(u8::from(refusal), out, at),
    }
}
