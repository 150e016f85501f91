// Whether the pieces of a list are those of one set of uncrossed pairs, each once: number 22.
//
//     0 . 2 . . 5    Each piece closes on a line of its own, from its first corner to its last; one of them on 0, n-1.
//      \_/ \___/     Each step of a piece, from a corner to the next, that is no side is a closing line, and each
//                    closing line but 0, n-1 is a step of some piece.
ghost use Rattle.std.specs.Prelude.{◌≡◌, ◌≤◌};
ghost use Rattle.limits.specs.Limits.{fewest_corners, most_corners};
ghost use Rattle.checker.specs.Checks.{IsList};
ghost use Rattle.checker.specs.Parts.{Readable, closes, fits, stepped};
ghost use Rattle.checker.specs.Parts.{MarksPiece, MarksAll, TellsCutting};

use crate::lines::Lines;
use crate::pieces::{Piece, Pieces};

// Whether a step is a side, or a piece closes on it.
fn closes(closings: &Lines, x: u8, y: u8) -> bool
    ensures { result ≡ closes closings.now x y }
{
    y.saturating_sub(x) < 2 || closings.has(x, y)
}

impl Piece<'_> {
    // The steps are marked, sides too: they are not asked for.
    fn mark_steps(&self, steps: &mut Lines)
        ensures { steps.new ≡ stepped self.now.corners.now steps.old }
    {
        for step in self.corners.windows(2) {
            steps.add(step[0], step[1]);
        }
    }
}

// The lines that pieces close on, and the steps of pieces, as far as the pieces are marked.
#[derive(Drop)]
struct Marked {
    closings: Lines,
    steps: Lines,
}

impl Marked {
    // The lines of a piece are marked. False where another piece closes on the same line.
    fn mark(&mut self, piece: &Piece) -> bool
        ensures { MarksPiece piece.now.corners.now self.old.closings self.old.steps
            self.new.closings self.new.steps result }
    {
        let (first, last) = piece.closing();
        if self.closings.has(first, last) {
            return false;
        }
        self.closings.add(first, last);
        piece.mark_steps(&mut self.steps);
        true
    }

    // A loop, as nothing is known after `all` of what its closure has changed.
    fn mark_all(&mut self, list: &[u8]) -> bool
        requires { Readable list.now }
        ensures { MarksAll list.now self.old.closings self.old.steps self.new.closings self.new.steps result }
    {
        for piece in (Pieces { rest: list }) {
            if !self.mark(&piece) {
                return false;
            }
        }
        true
    }

    // Whether all lines of a piece are where they should be.
    fn fits(&self, piece: &Piece) -> bool
        ensures { result ≡ fits self.now.closings self.now.steps piece.now.corners.now }
    {
        let (first, last) = piece.closing();
        piece
            .corners
            .is_sorted_by(|x, y| closes(&self.closings, *x, *y))
            && self.steps.has(first, last)
    }
}

// The line from the first corner of all to the last is a step of no piece: it is marked as if it were.
pub fn is_cutting(n: usize, list: &[u8]) -> bool
    requires { (fewest_corners ≤ n) × (n ≤ most_corners) × IsList n list.now }
    ensures { TellsCutting n list.now result }
{
    let mut marked = Marked {
        closings: Lines::none(),
        steps: Lines::none(),
    };
    // `n` is 64 at most, and `try_from` would bring a case that cannot come.
    let last = (n - 1) as u8;
    if !marked.mark_all(list) || !marked.closings.has(0, last) {
        return false;
    }
    marked.steps.add(0, last);
    Pieces { rest: list }.all(|piece| marked.fits(&piece))
}
