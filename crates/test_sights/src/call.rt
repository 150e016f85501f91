// The calls on one list, held to what must come back.
use drawing::Unsound;
use limits::{ALL_CELLS, ROW};
use pair::{Which, number};
use std::fmt;
use trials::held::held;
use trials::lines::Call;

// The buffer: a row of cells more than there may be.
pub const BUFFER: usize = ALL_CELLS + ROW;

// What both calls say of the list.
#[derive(Clone, Copy, PartialEq, Eq)]
struct Said {
    judged: Result<(), Unsound>,
    sighted: Result<(), Unsound>,
}

// As 01 numbers it for a first drawing.
impl fmt::Display for Said {
    fn fmt<W: fmt::Write>(&self, f: &mut fmt::Formatter<W>) -> fmt::Result {
        let judged = number(Which::First, self.judged);
        let sighted = number(Which::First, self.sighted);
        write!(f, "judged {judged}, by sight {sighted}")
    }
}

// The calls themselves, with nothing promised: what comes back is compared here, and its proof stands elsewhere.
fn both_say(xy: &[i32], cells: &mut [u8]) -> Said {
    Said {
        judged: drawing::judge(xy),
        sighted: drawing::sight(xy, cells),
    }
}

// Whether both calls say `due`, and leave the buffer as `after` has it, with so many of its cells lent.
pub fn right(
    rt: &impl Print,
    call: Call,
    xy: &[i32],
    lent: usize,
    due: Result<(), Unsound>,
    after: &[u8; BUFFER],
) -> Option<bool> {
    let due = Said {
        judged: due,
        sighted: due,
    };
    held(
        rt,
        call,
        lent,
        Some(due),
        after,
        |cells| both_say(xy, cells),
    )
}
