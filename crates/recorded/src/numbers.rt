// What a word tells: a decimal number.
ghost use Rattle.std.specs.Prelude.{◌≡◌, List, ℕ, Option, Some, pos};
ghost use Rattle.recorded.specs.Decimals.{natural, byte, whole};
ghost use Rattle.recorded.specs.Digits.{with_digit, number};

// A number that a word tells. `NOUGHT` is what stands in a list for a word that tells none.
pub trait Number: Copy {
    ghost told: { List ℕ → Option Self };

    ghost NOUGHT: { Self };

    const NOUGHT: Self;

    fn tell(word: &[u8]) -> Option<Self>
        ensures { result ≡ told word.now };
}

// The number m with one digit more; none where it is as large as 2^32.
fn with_digit(m: u32, c: u8) -> Option<u32>
    ensures { result ≡ with_digit (Some m) c }
{
    if !c.is_ascii_digit() {
        return None;
    }
    m.checked_mul(10)?.checked_add(u32::from(c - b'0'))
}

fn digits(word: &[u8]) -> Option<u32>
    ensures { result ≡ number (Some 0) word.now }
{
    let mut m = 0;
    for c in word {
        m = with_digit(m, *c)?;
    }
    Some(m)
}

impl Number for u32 {
    ghost told = { natural };

    ghost NOUGHT = { 0 };

    const NOUGHT: u32 = 0;

    fn tell(word: &[u8]) -> Option<u32> {
        if word.is_empty() { None } else { digits(word) }
    }
}

impl Number for u8 {
    ghost told = { byte };

    ghost NOUGHT = { 0 };

    const NOUGHT: u8 = 0;

    fn tell(word: &[u8]) -> Option<u8> {
        u8::try_from(u32::tell(word)?).ok()
    }
}

// With a minus where it is below zero.
impl Number for i32 {
    ghost told = { whole };

    ghost NOUGHT = { pos 0 };

    const NOUGHT: i32 = 0;

    fn tell(word: &[u8]) -> Option<i32> {
        match word.strip_prefix(b"-") {
            Some(digits) => 0i32.checked_sub_unsigned(u32::tell(digits)?),
            None => i32::try_from(u32::tell(word)?).ok(),
        }
    }
}
