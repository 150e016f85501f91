// Calls for a cutting that are refused: too few corners, too many, each table a cell short (1), the room a byte short
// (2). All see all, and every byte of the buffer must stay.
use crate::tables::cut;
use limits::{ALL_CELLS, FEWEST_CORNERS, MOST_CORNERS, ROOM};
use recorded::lent::fill;
use trials::BUFFER;
use trials::held::held;
use trials::lines::{Call, Tally};
use trials::reply::Reply;

fn refused(
    rt: &impl Print,
    call: u64,
    number: u8,
    n: usize,
    first: &[u8],
    second: &[u8],
    lent: usize,
) -> bool {
    let mut after = [0u8; BUFFER];
    fill(&mut after);
    let due = Reply::refused(number);
    held(
        rt,
        Call::Limit(call),
        lent,
        Some(due),
        &after,
        |room| cut(n, first, second, room),
    ) == Some(true)
}

pub fn all(rt: &impl Print) {
    let first = [3u8; ALL_CELLS];
    let second = [3u8; ALL_CELLS];
    let short = [3u8; ALL_CELLS - 1];
    let tally = Tally::of(&[
        refused(rt, 1, 1, FEWEST_CORNERS - 1, &first, &second, ROOM),
        refused(rt, 2, 1, MOST_CORNERS + 1, &first, &second, BUFFER),
        refused(rt, 3, 1, MOST_CORNERS, &short, &second, ROOM),
        refused(rt, 4, 1, MOST_CORNERS, &first, &short, ROOM),
        refused(rt, 5, 2, MOST_CORNERS, &first, &second, ROOM - 1),
    ]);
    let _ = println!(rt; "limits: {tally}");
}
