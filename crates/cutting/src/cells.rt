// Tables of pairs of corners: flat, a row for each corner that there may be. No other place makes an index of two
// corners.
//
//           b
//       . . . . .
//     a . . # . .      the cell of a and b stands at a * ROW + b
//       . . . . .
ghost use Rattle.std.specs.Prelude.{◌≡◌, ◌<◌, set};
ghost use Rattle.limits.specs.Limits.{row, place};
ghost use Rattle.rules.specs.Cells as cells;

use limits::{ALL_CELLS, ROW};

// Flat, and no array of rows: 01 names this form for the cells of sight, which a caller lends. `telling` and `drawing`
// index theirs by themselves: a call that another crate can name asks for nothing, so one for all would have to test
// each index.
pub type Table = [u8; ALL_CELLS];

pub fn cell(t: &Table, a: usize, b: usize) -> u8
    requires { (a < row) × (b < row) }
    ensures { result ≡ cells.cell t.now a b }
{
    t[a * ROW + b]
}

pub fn put(t: &mut Table, a: usize, b: usize, v: u8)
    requires { (a < row) × (b < row) }
    ensures { t.new ≡ set t.old (place a b) v }
{
    t[a * ROW + b] = v;
}
