// The wedges of an answer, one after another, until one holds the mark.
ghost use Rattle.std.specs.Prelude.{◌≡◌};
ghost use Rattle.outline.specs.Drawing.{corners, InRange};
ghost use Rattle.marks.specs.Lands.{Lands};
ghost use Rattle.marks.specs.Parts.{point, wedge_of, Below, Tried, Piece, piece_fan, Read, Finds};

use crate::Place;
use crate::pieces::{Pieces, Wedges};
use crate::sizes::{Coordinates, Weights};
use crate::wedge::Wedge;

// Two drawings of equally many corners, and a mark of the first; all within the limits.
#[derive(Clone, Copy)]
pub struct Poses<'a> {
    pub first: &'a [i32],
    pub second: &'a [i32],
    pub mark: Coordinates,
    ghost first_in: { InRange first.now },
    ghost second_in: { InRange second.now },
    ghost alike: { corners second.now ≡ corners first.now },
}

impl<'a> Poses<'a> {
    // By one wedge.
    fn land(&self, wedge: Wedge) -> Option<Place>
        requires { Below (corners self.now.first.now) wedge }
        ensures { Tried self.now.first.now self.now.second.now (point self.now.mark) (wedge_of wedge) result }
    {
        let weights = Weights::of(self.mark, wedge.triangle(self.first))?;
        Some(weights.place(wedge.triangle(self.second)))
    }

    // By the wedges of one piece.
    fn within(&self, piece: &[u8]) -> Option<Place>
        requires { Piece (corners self.now.first.now) piece.now }
        ensures { Lands self.now.first.now self.now.second.now (point self.now.mark) (piece_fan piece.now) result }
    {
        Wedges::of(piece).find_map(|wedge| self.land(wedge))
    }

    // By the wedges of the whole answer.
    pub fn find(&self, told: &[u8]) -> Option<Place>
        requires { Read (corners self.now.first.now) told.now }
        ensures { Finds self.now.first.now self.now.second.now (point self.now.mark) told.now result }
    {
        Pieces { told }.find_map(|piece| self.within(piece))
    }
}
