// What the tests share that run the calls of a file. A line of it is a call: what is asked, and what must come back.
#![tactic(auto)]

pub mod held;
pub mod lines;
pub mod reply;

// Each file has fewer bytes.
pub const TEXT: usize = 131072;

// The longest list of a call.
pub const LIST: usize = 512;

// The buffer, of which a call is lent the room.
pub const BUFFER: usize = 16384;
