// The pieces of a list in 01's layout, as they follow one another: k, the centre, the k corners.
ghost use Rattle.std.specs.Prelude.{◌≡◌, length};
ghost use Rattle.std.specs.Iterator.{at_most};
ghost use Rattle.limits.specs.Limits.{place};
ghost use Rattle.rules.specs.Cutting.{closing};
ghost use Rattle.checker.specs.Parts.{Reads};

#[derive(Clone, Copy)]
pub struct Piece<'a> {
    pub centre: u8,
    pub corners: &'a [u8],
}

impl<'a> Piece<'a> {
    // The closing line, from the first corner to the last.
    pub fn closing(&self) -> (u8, u8)
        ensures { place result.0 result.1 ≡ closing place self.now.corners.now }
    {
        match self.corners {
            [first, .., last] => (*first, *last),
            [only] => (*only, *only),
            [] => (0, 0),
        }
    }
}

// Bytes that are still to be read. Those that begin with no whole piece stay. (`marks` has a `Pieces` too, for bytes
// that are known to be pieces. These may be any, so the iterator stops where a piece should begin and none does.)
#[derive(Clone, Copy)]
pub struct Pieces<'a> {
    pub rest: &'a [u8],
}

impl<'a> Iterator for Pieces<'a> {
    type Item = Piece<'a>;

    ghost next_gives = { λ s r t. Reads s.rest.now r t.rest.now };

    ghost remaining = { λ s. at_most (length s.rest.now) };

    fn next(&mut self) -> Option<Piece<'a>> {
        let [k, centre, after @ ..] = self.rest else {
            return None;
        };
        let (corners, rest) = after.split_at_checked(usize::from(*k))?;
        self.rest = rest;
        Some(Piece {
            centre: *centre,
            corners,
        })
    }
}
