// A call of the search alone: two tables of sight.
use crate::lists::reply;
use limits::{ALL_CELLS, MOST_CORNERS, ROW};
use recorded::lent::fill;
use recorded::words::Words;
use trials::BUFFER;
use trials::held::held;
use trials::lines::Call;
use trials::reply::Reply;

// The rows of a table. Every other cell has a value that no search may look at.
fn table(words: &mut Words, n: usize, cells: &mut [u8; ALL_CELLS]) -> Option<()> {
    fill(cells);
    for row in cells.chunks_exact_mut(ROW).take(n) {
        words.fill(row.get_mut(..n)?)?;
    }
    Some(())
}

// The call itself, with nothing promised: what comes back is compared here, and its proof stands elsewhere.
pub fn cut(n: usize, first: &[u8], second: &[u8], room: &mut [u8]) -> Reply {
    reply(desk::stages::iravikkon_cut(n, first, second, room))
}

pub fn tried(rt: &impl Print, words: &mut Words, call: Call) -> Option<bool> {
    let mut first = [0u8; ALL_CELLS];
    let mut second = [0u8; ALL_CELLS];
    let mut after = [0u8; BUFFER];
    let _name = words.word();
    let n = words.up_to(MOST_CORNERS)?;
    table(words, n, &mut first)?;
    table(words, n, &mut second)?;
    let lent = words.up_to(BUFFER)?;
    let due = Reply::read(words, &mut after)?;
    held(
        rt,
        call,
        lent,
        due,
        &after,
        |room| cut(n, &first, &second, room),
    )
}
