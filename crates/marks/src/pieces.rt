// The pieces of an answer by its bytes, and the wedges of a piece.
ghost use Rattle.std.specs.Prelude.{◌≡◌, ◌≤◌, length, option_map};
ghost use Rattle.std.specs.Iterator.{at_most};
ghost use Rattle.marks.specs.Parts.{Told, Takes, Gives, IsFan};

use crate::wedge::Wedge;

// Pieces, one after another, as bytes tell them: k, the centre, the k corners. `checker` has such an iterator for
// bytes from anywhere, and it stops where they are no piece. These are known to be pieces, and none may be left out.
#[derive(Drop)]
pub struct Pieces<'a> {
    pub told: &'a [u8],
}

impl<'a> Iterator for Pieces<'a> {
    type Item = &'a [u8];

    ghost can_next = { λ s. Told s.told.now };

    ghost next_gives = { λ s r t. Takes s.told.now (option_map (λ x. x.now) r) t.told.now };

    ghost remaining = { λ s. at_most (length s.told.now) };

    fn next(&mut self) -> Option<&'a [u8]> {
        let told = self.told;
        let k = *told.first()?;
        let (piece, rest) = told.split_at(2 + usize::from(k));
        self.told = rest;
        Some(piece)
    }
}

// The wedges of a piece: the centre with each corner and the one that follows it, with the last and the first at the
// end. A corner with the centre itself makes no area: such a pair need not be told from a wedge.
#[derive(Drop)]
pub struct Wedges<'a> {
    centre: u8,
    first: u8,
    corners: &'a [u8],
}

impl<'a> Wedges<'a> {
    pub fn of(piece: &'a [u8]) -> Wedges<'a>
        requires { 3 ≤ length piece.now }
        ensures { IsFan piece.now result }
    {
        Wedges {
            centre: piece[1],
            first: piece[2],
            corners: &piece[2..],
        }
    }
}

impl<'a> Iterator for Wedges<'a> {
    type Item = Wedge;

    ghost next_gives = { Gives };

    ghost remaining = { λ s. at_most (length s.corners.now) };

    fn next(&mut self) -> Option<Wedge> {
        let (from, corners) = self.corners.split_first()?;
        self.corners = corners;
        let to = corners.first().copied().unwrap_or(self.first);
        Some(Wedge {
            centre: usize::from(self.centre),
            from: usize::from(*from),
            to: usize::from(to),
        })
    }
}
