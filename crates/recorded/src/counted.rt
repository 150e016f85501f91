// How many numbers a list has that says it in front.
ghost use Rattle.std.specs.Prelude.{◌≡◌, ◌≤◌};
ghost use Rattle.recorded.specs.Counted.{up_to};

// What a word counts for that tells no number, in front of a list.
pub const NO_NUMBER: u64 = 4294967296;

// A number up to `most`, or 0. `upper_bound` follows from `value`; callers that cut a slice there need it at hand.
pub fn up_to(most: usize, n: u64) -> usize
    ensures value { result ≡ up_to most n }
    ensures upper_bound { result ≤ most }
{
    if n <= most as u64 { n as usize } else { 0 }
}
