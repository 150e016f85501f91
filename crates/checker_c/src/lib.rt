// The call of `checker` for C, and for what links as C does: each slice is a pointer and a length, and a flat struct
// comes by value. A crate is built as a library or as an archive, not as both: so the export here calls the function
// of that name in `checker`, and states its clause again.
#![tactic(auto)]

ghost use Rattle.checker.specs.Checks.{ChecksList};

use checker::flat::Verdict;

// `checker::check` for C.
#[unsafe(no_mangle)]
pub extern "C" fn iravikkon_check(first: &[i32], second: &[i32], list: &[u8]) -> Verdict
    ensures { ChecksList first.now second.now list.now result }
{
    checker::flat::iravikkon_check(first, second, list)
}
