// The centres are put in: a pass over pieces that are told already. Knows no pairs.
//
//     told:  k 0 corners | k 0 corners ..    `lowest` chooses among the corners of one piece, and another choice would
//            piece         rest              stand beside it
ghost use Rattle.std.specs.Prelude.{◌≡◌, ◌<◌};
ghost use Rattle.limits.specs.Limits.{row};
ghost use Rattle.rules.specs.Cells.{both_see};
ghost use Rattle.rules.specs.Lays.{all, centre};
ghost use Rattle.telling.specs.Parts.{Small, Pieces, Centred};

use crate::cells::{Cells, sees};

// The cells of both drawings. `checker` has such a struct for cells of any length, where each is read with a default:
// here the length is known, and none is needed.
#[derive(Clone, Copy)]
pub struct Sights<'a> {
    pub first: &'a Cells,
    pub second: &'a Cells,
}

impl Sights<'_> {
    // Whether x, as a centre, sees every corner of the piece in both drawings.
    fn sees_all(&self, piece: &[u8], x: usize) -> bool
        requires { Small piece.now × (x < row) }
        ensures { result ≡ all (both_see self.now.first.now self.now.second.now x) piece.now }
    {
        piece.iter().all(|y| {
            let y = usize::from(*y);
            sees(self.first, x, y) && sees(self.second, x, y)
        })
    }

    // What stands in the centre's place: the lowest corner that sees every corner of the piece, 0 where there is none.
    fn lowest(&self, piece: &[u8]) -> u8
        requires { Small piece.now }
        ensures { result ≡ centre (both_see self.now.first.now self.now.second.now) piece.now }
    {
        piece
            .iter()
            .copied()
            .find(|x| self.sees_all(piece, usize::from(*x)))
            .unwrap_or(0)
    }

    // The centre of each of the pieces in `told`.
    pub fn put_centres(&self, told: &mut [u8])
        requires { Pieces told.old }
        ensures { Centred self.now.first.now self.now.second.now told.old told.new }
    {
        if !told.is_empty() {
            let to = 2 + usize::from(told[0]);
            let (piece, rest) = told.split_at_mut(to);
            piece[1] = self.lowest(&piece[2..]);
            self.put_centres(rest);
        }
    }
}
