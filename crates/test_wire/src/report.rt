// What was found, as text.
use crate::replay::Found;

// How many lines end in the first `bytes` bytes of a text.
pub fn lines(text: &[u8], bytes: usize) -> usize {
    text.iter().take(bytes).filter(|&&b| b == b'\n').count()
}

// The line of the first byte that differs.
pub fn place(rt: &impl Print, found: Found, expected: &[u8]) {
    let size = found.size;
    let line = lines(expected, found.bytes);
    let _ = println!(rt; " differs in chunks of {size} after line {line}");
}

// The line of a file: how many of what were compared, and how many of them differ.
pub fn print_counts(rt: &impl Print, count: u64, what: &str, differences: u64) {
    let _ = println!(rt; ": {count} {what}, {differences} differences");
}
