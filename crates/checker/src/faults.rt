// The first piece of a list at fault: numbers 23 and 24.
ghost use Rattle.std.specs.Prelude.{◌≡◌, [], ◌∷◌};
ghost use Rattle.rules.specs.Cells.{centre_sees};
ghost use Rattle.outline.specs.Tells.{Tells};
ghost use Rattle.checker.specs.Checks.{verdict, LinesSeen, CentreSeesAll, FirstFailed, of_pieces};
ghost use Rattle.checker.specs.Parts.{Corners, Readable, strictly_sees, as_entry, in_cells, FirstFault};

use crate::Fault;
use crate::lines::cell;
use crate::pieces::{Piece, Pieces};
use pair::Which;

// The sight of the two drawings of a pair, as cells.
#[derive(Clone, Copy)]
pub struct Sights<'a> {
    pub first: &'a [u8],
    pub second: &'a [u8],
}

// What a cell tells of x and y: whether they see each other by the strict rule, and whether x, as a centre, sees y.
fn strictly(sight: &[u8], x: u8, y: u8) -> bool
    ensures { result ≡ strictly_sees sight.now x y }
{
    cell(sight, x, y) % 2 == 1
}

// (The crates below have no such function: `sees` of `telling` asks that x and y be below ROW; here nothing is asked.)
fn as_centre(sight: &[u8], x: u8, y: u8) -> bool
    ensures { result ≡ centre_sees sight.now x y }
{
    cell(sight, x, y) / 2 % 2 == 1
}

impl Piece<'_> {
    // Whether every line of the piece is seen: from each corner to the next, and from the first to the last.
    fn lines_seen(&self, sight: &[u8]) -> bool
        requires { Corners self.now.corners.now }
        ensures { Tells result (LinesSeen (in_cells sight.now) self.now.corners.now) }
    {
        let (first, last) = self.closing();
        self.corners.is_sorted_by(|x, y| strictly(sight, *x, *y)) && strictly(sight, first, last)
    }

    // Whether the centre sees every corner of the piece.
    fn centre_sees(&self, sight: &[u8]) -> bool
        ensures { Tells result (CentreSeesAll (in_cells sight.now) (as_entry self.now)) }
    {
        self.corners
            .iter()
            .all(|y| as_centre(sight, self.centre, *y))
    }

    // The first of 02's four questions that fails, in its order: a drawing and a kind of fault for each. One after the
    // other, as 02 has them: a loop over the drawings would pick the cells by `Which`, twice, and be no shorter.
    fn fault(&self, place: usize, sights: &Sights) -> Result<(), Fault>
        requires { Corners self.now.corners.now }
        ensures { FirstFailed
            (of_pieces (in_cells sights.now.first.now) (in_cells sights.now.second.now) place
            (as_entry self.now ∷ []))
            (verdict result) }
    {
        if !self.lines_seen(sights.first) {
            return Err(Fault::Unseen {
                place,
                drawing: Which::First,
            });
        }
        if !self.lines_seen(sights.second) {
            return Err(Fault::Unseen {
                place,
                drawing: Which::Second,
            });
        }
        if !self.centre_sees(sights.first) {
            return Err(Fault::Misses {
                place,
                drawing: Which::First,
            });
        }
        if !self.centre_sees(sights.second) {
            return Err(Fault::Misses {
                place,
                drawing: Which::Second,
            });
        }
        Ok(())
    }
}

pub fn first_fault(sights: &Sights, list: &[u8]) -> Result<(), Fault>
    requires { Readable list.now }
    ensures { FirstFault sights.now.first.now sights.now.second.now list.now (verdict result) }
{
    for (place, piece) in (Pieces { rest: list }).enumerate() {
        piece.fault(place, sights)?;
    }
    Ok(())
}
