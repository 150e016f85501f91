// Lines between corners, as cells of a flat table of pairs, and sets of lines.
ghost use Rattle.std.specs.Prelude.{◌≡◌, List, ℕ, set, replicate};
ghost use Rattle.limits.specs.Limits.{all_cells, place};
ghost use Rattle.rules.specs.Cells.{cell, filled};

use limits::{ALL_CELLS, ROW};
use std::marker::Model;

fn place(x: u8, y: u8) -> usize
    ensures { result ≡ place x y }
{
    usize::from(x) * ROW + usize::from(y)
}

// The cell of a line; 0 where the table has none, as the definition reads it, so that nothing is asked of x and y.
pub fn cell(table: &[u8], x: u8, y: u8) -> u8
    ensures { result ≡ cell table.now x y }
{
    table.get(place(x, y)).copied().unwrap_or(0)
}

// A set of lines: those whose cell is not 0.
#[derive(Drop)]
pub struct Lines {
    cells: [u8; ALL_CELLS],
}

impl Model for Lines {
    ghost Value = { List ℕ };

    ghost view = { λ s. s.cells };
}

impl Lines {
    pub fn none() -> Self
        ensures { result ≡ replicate all_cells 0 }
    {
        Lines {
            cells: [0; ALL_CELLS],
        }
    }

    pub fn has(&self, x: u8, y: u8) -> bool
        ensures { result ≡ filled self.now x y }
    {
        cell(&self.cells, x, y) != 0
    }

    pub fn add(&mut self, x: u8, y: u8)
        ensures { self.new ≡ set self.old (place x y) 1 }
    {
        let at = place(x, y);
        if at < ALL_CELLS {
            self.cells[at] = 1;
        }
    }
}
