// The limits of document 01, and what follows from them, for code; `specs/Limits.antt` has the same for definitions.
// No other crate has such a number of its own.
#![tactic(auto)]

// 01, "A sound drawing": "n is 3 to 64. Each coordinate is -1,000,000 to 1,000,000."
pub const FEWEST_CORNERS: usize = 3;

pub const MOST_CORNERS: usize = 64;

pub const FURTHEST: i32 = 1000000;

// A table of pairs of corners is flat, with a row for each corner that there may be, however many there are.
pub const ROW: usize = MOST_CORNERS;

pub const ALL_CELLS: usize = ROW * ROW;

// The numbers of a drawing: an x and a y for each corner.
pub const MOST_NUMBERS: usize = 2 * MOST_CORNERS;

// 01, "What comes back": "5n-10 is the most that any cutting of n corners takes". The room that the program gives each
// pair.
pub const ROOM: usize = 5 * MOST_CORNERS - 10;

// The longest line of the program: two digits for A0, for the count of pieces and for each byte of the room, and the
// line feed.
pub const LONGEST_LINE: usize = 2 * (2 + ROOM) + 1;
