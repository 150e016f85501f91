// A call of `answer`: two lists.
use desk::Outcome;
use recorded::words::Words;
use trials::held::held;
use trials::lines::Call;
use trials::reply::Reply;
use trials::{BUFFER, LIST};

// What C gets, number by number: what stands beside a refusal is compared as well.
pub fn reply(outcome: Outcome) -> Reply {
    Reply {
        number: u32::from(outcome.number),
        pieces: outcome.pieces,
        bytes: outcome.bytes,
    }
}

// The call itself, with nothing promised: what comes back is compared here, and its proof stands elsewhere.
fn answer(first: &[i32], second: &[i32], room: &mut [u8]) -> Reply {
    reply(Outcome::from(desk::answer(first, second, room)))
}

pub fn tried(rt: &impl Print, words: &mut Words, call: Call) -> Option<bool> {
    let mut first = [0i32; LIST];
    let mut second = [0i32; LIST];
    let mut after = [0u8; BUFFER];
    let _name = words.word();
    let n = words.list(&mut first).ok()?;
    let m = words.list(&mut second).ok()?;
    let lent = words.up_to(BUFFER)?;
    let due = Reply::read(words, &mut after)?;
    held(
        rt,
        call,
        lent,
        due,
        &after,
        |room| answer(&first[..n], &second[..m], room),
    )
}
