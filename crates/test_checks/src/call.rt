// One call: read, run, compared.
use crate::told::Told;
use recorded::words::Words;
use trials::LIST;
use trials::lines::Call;

// What the call gives is printed where it differs. What `left` puts after the bytes is no part of the call.
pub fn tried<F: Fn(&[i32], &[i32], &[u8]) -> Told>(
    rt: &impl Print,
    words: &mut Words,
    call: Call,
    check: F,
) -> Option<bool>
    requires { F.IsAlwaysCallable check }
{
    let mut first = [0i32; LIST];
    let mut second = [0i32; LIST];
    let mut list = [0u8; LIST];
    let _name = words.word();
    let n = words.list(&mut first).ok()?;
    let m = words.list(&mut second).ok()?;
    let k = words.left(&mut list).ok()?;
    let due = Told::read(words)?;
    let got = check(&first[..n], &second[..m], &list[..k]);
    let right = got == due;
    if !right {
        let _ = println!(rt; "{call}: {got}");
    }
    Some(right)
}
