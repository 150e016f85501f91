// Whether bytes are a list of pieces: number 21.
ghost use Rattle.std.specs.Prelude.{◌≡◌};
ghost use Rattle.outline.specs.Tells.{Tells};
ghost use Rattle.checker.specs.Checks.{Allowed, IsList};
ghost use Rattle.checker.specs.Parts.{as_entry, rises};

use crate::pieces::{Piece, Pieces};
use limits::FEWEST_CORNERS;

fn rises(n: usize, x: u8, y: u8) -> bool
    ensures { result ≡ rises n x y }
{
    x < y && usize::from(y) < n
}

impl Piece<'_> {
    // Whether there are 3 to n corners, which rise, those after the first below n, and the centre is one of them.
    fn is_allowed(&self, n: usize) -> bool
        ensures { Tells result (Allowed n (as_entry self.now)) }
    {
        (FEWEST_CORNERS..=n).contains(&self.corners.len())
            && self.corners.is_sorted_by(|x, y| rises(n, *x, *y))
            && self.corners.contains(&self.centre)
    }
}

pub fn is_list(n: usize, list: &[u8]) -> bool
    ensures { Tells result (IsList n list.now) }
{
    let mut pieces = Pieces { rest: list };
    let allowed = pieces.all(|piece| piece.is_allowed(n));
    allowed && !list.is_empty() && pieces.rest.is_empty()
}
