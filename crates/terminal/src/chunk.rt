// A chunk, pair by pair. Each turn of the loop lends `feed` both buffers again and goes on where it ended: no iterator
// can hold what it lends anew, so this is no `for`.
ghost use Rattle.std.specs.Prelude.{Some};
ghost use Rattle.terminal.specs.Running.{Lent, Done};

use crate::Ran;
use crate::reply::reply;
use frames::{Fed, Reader};

pub fn read(
    reader: Reader,
    chunk: &[u8],
    first: &mut [i32],
    second: &mut [i32],
    out: &mut [u8],
) -> Ran
    requires { Lent first.old second.old chunk.now out.old }
    ensures { Done (Some reader)
        first.old second.old chunk.now out.old
        first.new second.new out.new result.session result.len }
{
    let mut r = reader;
    let mut at = 0;
    let mut len = 0;
    loop {
        match frames::feed(r, chunk, at, first, second) {
            Ok(Fed::More(next)) => {
                return Ran {
                    session: Some(next),
                    len,
                };
            }
            Ok(
                Fed::Pair {
                    first: a,
                    second: b,
                    next,
                },
            ) => {
                len = reply(&first[..a], &second[..b], out, len);
                at = next;
                r = frames::start();
            }
            Err(_) => {
                return Ran {
                    session: None,
                    len: frames::answer::fault_line(out, len),
                };
            }
        }
    }
}
