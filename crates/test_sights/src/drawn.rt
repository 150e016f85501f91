// A drawing of the file: read, and its calls run.
ghost use Rattle.std.specs.Prelude.{◌≤◌, IfSome};
ghost use Rattle.limits.specs.Limits.{all_cells};

use crate::call::{BUFFER, right};
use drawing::Unsound;
use limits::{ALL_CELLS, MOST_CORNERS, MOST_NUMBERS, ROW};
use recorded::lent::fill;
use recorded::words::Words;
use trials::lines::Call;

// How many cells were told, and whether the drawing gave what it must.
#[derive(Clone, Copy)]
pub struct Told {
    pub cells: u64,
    pub right: bool,
}

// The word of a judgement.
fn judgement(word: &[u8]) -> Option<Result<(), Unsound>> {
    match word {
        b"sound" => Some(Ok(())),
        b"out-of-range" => Some(Err(Unsound::OutOfRange)),
        b"not-simple" => Some(Err(Unsound::NotSimple)),
        b"not-anticlockwise" => Some(Err(Unsound::NotAnticlockwise)),
        _ => None,
    }
}

// A cell is a digit from 0 to 3: 1 for strict sight plus 2 for a centre's.
fn cell(c: u8) -> Option<u8> {
    match c {
        b'0'..=b'3' => Some(c - b'0'),
        _ => None,
    }
}

// A word with a digit for each cell of `out`.
fn row(word: &[u8], out: &mut [u8]) -> Option<()> {
    if word.len() != out.len() {
        return None;
    }
    for (told, c) in out.iter_mut().zip(word) {
        *told = cell(*c)?;
    }
    Some(())
}

// A word for each of n corners; how many cells were read.
pub fn rows(words: &mut Words, n: usize, out: &mut [u8; BUFFER]) -> Option<usize>
    ensures { IfSome result (λ cells. cells ≤ all_cells) }
{
    let mut cells = 0;
    // the last row of the buffer is for no corner
    for told in out[..ALL_CELLS].chunks_exact_mut(ROW).take(n) {
        row(words.word(), told.get_mut(..n)?)?;
        cells += n;
    }
    Some(cells)
}

// The drawing that begins at the next word. The rows stand after its judgement; one that is not sound has none.
pub fn tried(rt: &impl Print, words: &mut Words, call: Call) -> Option<Told>
    ensures { IfSome result (λ told. told.cells ≤ all_cells) }
{
    let mut xy = [0i32; MOST_NUMBERS];
    let mut after = [0u8; BUFFER];
    fill(&mut after);
    let n = words.up_to(MOST_CORNERS)?;
    let xy = &mut xy[..2 * n];
    words.fill(xy)?;
    let due = judgement(words.word())?;
    let cells = if due.is_ok() {
        rows(words, n, &mut after)?
    } else {
        0
    };
    Some(Told {
        cells: cells as u64,
        right: right(rt, call, xy, BUFFER, due, &after)?,
    })
}
