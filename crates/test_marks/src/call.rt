// One call: read, run, compared.
use crate::got::Got;
use marks::Mark;
use recorded::words::Words;
use trials::held::held;
use trials::lines::Call;
use trials::{BUFFER, LIST};

pub fn tried<F: Fn(&[i32], &[i32], Mark, &mut [u8]) -> Got>(
    rt: &impl Print,
    words: &mut Words,
    call: Call,
    carry: F,
) -> Option<bool>
    requires { F.IsAlwaysCallable carry }
{
    let mut first = [0i32; LIST];
    let mut second = [0i32; LIST];
    let mut after = [0u8; BUFFER];
    let _name = words.word();
    let n = words.list(&mut first).ok()?;
    let m = words.list(&mut second).ok()?;
    let lent = words.up_to(BUFFER)?;
    let mark = Mark {
        x: words.number()?,
        y: words.number()?,
    };
    let due = Got::read(words, &mut after)?;
    held(
        rt,
        call,
        lent,
        due,
        &after,
        |room| carry(&first[..n], &second[..m], mark, room),
    )
}
