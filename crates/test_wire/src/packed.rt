// Many inputs in one file: for each the lengths of its name, of the input and of its output, three bytes each, high
// byte first, and the bytes of all three.
ghost use Rattle.std.specs.Prelude.{◌<◌, length, IfSome};

use crate::replay::tried;
use crate::report::place;

#[derive(Clone, Copy)]
struct Case<'a> {
    name: &'a [u8],
    input: &'a [u8],
    expected: &'a [u8],
    // what stands after it
    rest: &'a [u8],
}

// How many cases there are, and how many came out otherwise. `trials` counts calls, and says so in what it prints.
#[derive(Drop)]
pub struct Tally {
    pub count: u64,
    pub differences: u64,
}

// A length, and what stands after it.
fn length(packed: &[u8]) -> Option<(usize, &[u8])>
    ensures { IfSome result (λ r. length r.1.now < length packed.now) }
{
    let (&[high, middle, low], rest) = packed.split_first_chunk::<3>()?;
    Some((u32::from_be_bytes([0, high, middle, low]) as usize, rest))
}

// The first case; none where it is cut off.
fn first(packed: &[u8]) -> Option<Case<'_>>
    ensures { IfSome result (λ r. length r.rest.now < length packed.now) }
{
    let (name, rest) = length(packed)?;
    let (input, rest) = length(rest)?;
    let (expected, rest) = length(rest)?;
    let (name, rest) = rest.split_at_checked(name)?;
    let (input, rest) = rest.split_at_checked(input)?;
    let (expected, rest) = rest.split_at_checked(expected)?;
    Some(Case {
        name,
        input,
        expected,
        rest,
    })
}

// Each case by itself. No index is counted here: what is left gets shorter. An iterator over the cases would be used
// once, and is longer than this loop.
pub fn cases(rt: &impl Print, packed: &[u8]) -> Tally {
    let mut tally = Tally {
        count: 0,
        differences: 0,
    };
    let mut rest = packed;
    while !rest.is_empty() {
        tally.count += 1;
        let Some(case) = first(rest) else {
            let _ = println!(rt; "a case is cut off");
            tally.differences += 1;
            return tally;
        };
        if let Err(found) = tried(case.input, case.expected) {
            tally.differences += 1;
            let _ = rt.write_all(case.name);
            place(rt, found, case.expected);
        }
        rest = case.rest;
    }
    tally
}
