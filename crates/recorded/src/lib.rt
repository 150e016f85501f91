// What the test programs and `questions` share: the numbers of a text, the bits of floats, and the buffers that a call
// is lent and must leave.
#![tactic(auto)]

pub mod counted;
pub mod floats;
pub mod lent;
pub mod numbers;
pub mod words;
