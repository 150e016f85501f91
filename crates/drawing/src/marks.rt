// The marks of a mask, one after the other: the numbers of its digits that are 1, the lowest first.
ghost use Rattle.std.specs.Iterator.{at_most};
ghost use Rattle.drawing.specs.Walk.{NextMark};

#[derive(Clone, Copy)]
pub struct EachMark(pub u64);

impl Iterator for EachMark {
    type Item = usize;

    ghost remaining = { λ s. at_most s.0 };

    ghost next_gives = { λ s k t. NextMark s.0 k t.0 };

    fn next(&mut self) -> Option<usize> {
        if self.0 == 0 {
            return None;
        }
        let k = self.0.trailing_zeros() as usize;
        self.0 &= self.0 - 1;
        Some(k)
    }
}
