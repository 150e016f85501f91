// What a cell of a flat array says.
ghost use Rattle.std.specs.Prelude.{◌≡◌, ◌<◌};
ghost use Rattle.limits.specs.Limits.{row};
ghost use Rattle.rules.specs.Cells.{filled, centre_sees};

use limits::{ALL_CELLS, ROW};

// A flat array of cells, a row for each corner that there may be: 01 names the form. That x and y are below `ROW`
// stays a clause: corners are bytes of the answer's buffer, and a type of them would be made anew of each byte that is
// read.
pub type Cells = [u8; ALL_CELLS];

// Of a set of pairs: whether the cell of x and y is not 0.
pub fn has(cells: &Cells, x: usize, y: usize) -> bool
    requires { (x < row) × (y < row) }
    ensures { result ≡ filled cells.now x y }
{
    cells[x * ROW + y] != 0
}

// Of a drawing: whether x, as a centre, sees y.
pub fn sees(cells: &Cells, x: usize, y: usize) -> bool
    requires { (x < row) × (y < row) }
    ensures { result ≡ centre_sees cells.now x y }
{
    cells[x * ROW + y] / 2 % 2 == 1
}
