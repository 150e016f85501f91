// The first smallest cutting of n corners as a set of pairs, from who sees whom in two drawings: for a cut, and as a
// centre. Knows no coordinate and no byte of an answer.
//
// The search fills the values of the lines column by column (`lines`, over the rows of `lanes`); of the earlier
// columns it keeps tables of pairs only. The cutting is then traced from the values (`pieces`, `tracing`). No choice
// is stored.
#![tactic(auto)]

mod again;
mod cells;
mod lanes;
mod lines;
mod pieces;
mod reading;
mod tracing;

ghost use Rattle.cutting.specs.Held.{FindsBy};
ghost use Rattle.cutting.specs.Answer.{Served, Searches};

use cells::{Table, cell};
use lanes::NONE;
use limits::{ALL_CELLS, FEWEST_CORNERS, MOST_CORNERS};
use lines::Tables;
use reading::Readings;

// Why nothing was found; `number` of `specs/Answer` has 01's number for each case, and `Searches` what is promised.
#[derive(Clone, Copy, PartialEq, Eq, Debug)]
pub enum Refusal {
    Unserved,
    NoCutting,
}

// The tables are filled by the readings, and the set is traced from them, where there is one: the value of the whole
// range says so. The column is filled anew for each last corner, by the one and by the other. Whether there is a set
// is a truth value here and in `find`: no more is to be told, and `frame` makes the Result of it.
fn work(readings: &Readings, tables: &mut Tables, col: &mut Table, pairs: &mut Table) -> bool
    ensures { FindsBy readings.now pairs.old pairs.new result }
{
    tables.solve(readings, col);
    if cell(&tables.val, 0, readings.n - 1) == NONE {
        return false;
    }
    tables.trace(readings, col, pairs);
    true
}

// The tables stand in this frame, and no loop beside them.
fn find(readings: &Readings, pairs: &mut Table) -> bool
    ensures { FindsBy readings.now pairs.old pairs.new result }
{
    let mut tables = Tables {
        val: [0; ALL_CELLS],
        left: [0; ALL_CELLS],
        right: [0; ALL_CELLS],
    };
    let mut col = [0; ALL_CELLS];
    work(readings, &mut tables, &mut col, pairs)
}

// The readings stand in this one: behind it nobody looks at the caller's cells.
fn frame(n: usize, first: &Table, second: &Table, pairs: &mut Table) -> Result<(), Refusal>
    requires { Served n first.now second.now pairs.old }
    ensures { Searches n first.now second.now pairs.old pairs.new result }
{
    let mut readings = Readings {
        n,
        cuts: [0; ALL_CELLS],
        veil: [0; ALL_CELLS],
    };
    readings.read(first, second);
    if find(&readings, pairs) {
        Ok(())
    } else {
        Err(Refusal::NoCutting)
    }
}

// The first smallest cutting of n corners. Cell x * 64 + y of `first` and of `second` tells two kinds of sight in that
// drawing: 1 says that x sees y by the strict rule, for a cut, and 2 that x, as a centre, sees y; no other of its
// binary digits counts. Where there is a cutting, cell a * 64 + b of `pairs` becomes 1 where a < b is a cut of the
// first smallest, and every other cell of the 4,096 becomes 0; those beyond stay. What is not served leaves `pairs`
// alone: n outside 3 to 64, arrays under 4,096 cells. So does a search without a find.
pub fn search(n: usize, first: &[u8], second: &[u8], pairs: &mut [u8]) -> Result<(), Refusal>
    ensures { Searches n first.now second.now pairs.old pairs.new result }
{
    if !(FEWEST_CORNERS..=MOST_CORNERS).contains(&n) {
        return Err(Refusal::Unserved);
    }
    let first = first.first_chunk().ok_or(Refusal::Unserved)?;
    let second = second.first_chunk().ok_or(Refusal::Unserved)?;
    let pairs = pairs.first_chunk_mut().ok_or(Refusal::Unserved)?;
    frame(n, first, second, pairs)
}
