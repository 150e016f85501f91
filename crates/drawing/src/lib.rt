// The drawing: whether a list of coordinates is a sound drawing, and which of its corners see each other
// (document 01). Everything that works on coordinates is in this crate; others learn of a drawing only its judgement
// and its sight.
#![tactic(auto)]

ghost use Rattle.drawing.specs.Judgement.{Judgement};
ghost use Rattle.drawing.specs.Sight.{Told, Sight};

mod beginnings;
mod corners;
mod faced;
mod marks;
mod masks;
mod parting;
mod seeing;
mod segment;
mod simple;
mod table;

use corners::Ring;
use limits::ALL_CELLS;

// What is wrong with a list of coordinates: the first of 01's conditions that it fails, in 01's order.
#[derive(Clone, Copy, PartialEq, Eq, Debug)]
pub enum Unsound {
    Misshapen,
    OutOfRange,
    NotSimple,
    NotAnticlockwise,
}

pub fn judge(xy: &[i32]) -> Result<(), Unsound>
    ensures { Judgement xy.now result }
{
    if !corners::shaped(xy) {
        return Err(Unsound::Misshapen);
    }
    if !corners::in_range(xy) {
        return Err(Unsound::OutOfRange);
    }
    if !simple::simple(xy) {
        return Err(Unsound::NotSimple);
    }
    if simple::doubled_area(xy) <= 0 {
        return Err(Unsound::NotAnticlockwise);
    }
    Ok(())
}

// The judgement of `xy`, and where it is sound who sees whom: cell i * 64 + j has a 1 where corner i sees corner j by
// 01's rule, and 2 more where it sees it as a centre (02, K3). Every other cell keeps its value. Of a drawing that is
// not sound nothing is told, nor where `cells` has no room for 64 rows. `cells` is a slice and no array, since
// `Sight` promises of cells without that room, too, that they are left as they were.
pub fn sight(xy: &[i32], cells: &mut [u8]) -> Result<(), Unsound>
    ensures { Sight xy.now cells.old cells.new result }
{
    judge(xy)?;
    tell(Ring { xy }, cells);
    Ok(())
}

// Where there is room.
fn tell(ring: Ring, cells: &mut [u8])
    ensures { Told ring.entry.xy.now cells.old cells.new }
{
    if let Some(table) = cells.first_chunk_mut::<ALL_CELLS>() {
        table::fill(ring, table);
    }
}
