// Runs `judge` and `sight` on every drawing of sight.txt, and on calls at 01's limits, and prints what differs: the
// judgement by either call, and every cell of the buffer, also those that must keep their values.
//
// A line of the file is a drawing: its corners, the coordinates, the word of its judgement, and, where it is sound, a
// row of digits for each corner: 1 for strict sight plus 2 for a centre's. What is not of this form counts as a
// difference and ends the file.
#![tactic(auto)]

mod call;
mod drawn;
mod limited;

use trials::lines::file;

fn main(rt: HostRuntime) {
    let mut cells: u64 = 0;
    let tally = file(&rt, "sight.txt", |words, call| {
        let told = drawn::tried(&rt, words, call)?;
        cells = cells.saturating_add(told.cells);
        Some(told.right)
    });
    let drawings = tally.calls;
    let differences = tally.differences;
    let _ = println!(rt;
        "sight.txt: {drawings} drawings, {cells} cells told, {differences} differences"
    );
    limited::all(&rt);
}
