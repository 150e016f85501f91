// Hexadecimal digits.
ghost use Rattle.std.specs.Prelude.{◌≡◌, ◌*◌, ◌<◌, length};
ghost use Rattle.frames.specs.Frames.{digit_of, digits_of};
ghost use Rattle.frames.specs.Reader.{digit_value};

// What a character is worth as a digit. Both differences are taken first, and 16 stands for no digit until the end, so
// that the compiler chooses the value without a branch: with one, reading takes 1.7 times as long.
pub fn worth(c: u8) -> Option<u8>
    ensures { result ≡ digit_value c }
{
    let d = c.wrapping_sub(b'0');
    let e = c.wrapping_sub(b'A');
    let value = if d < 10 {
        d
    } else if e < 6 {
        e + 10
    } else {
        16
    };
    if value < 16 { Some(value) } else { None }
}

// The digit of a value.
fn digit_of(v: u8) -> u8
    requires { v < 16 }
    ensures { result ≡ digit_of v }
{
    if v < 10 { b'0' + v } else { b'A' + (v - 10) }
}

// The digits of some bytes, two for each, fill `out`.
pub fn put_all(bytes: &[u8], out: &mut [u8])
    requires { length out.old ≡ 2 * length bytes.now }
    ensures { out.new ≡ digits_of bytes.now }
{
    // By index. Tried with `bytes.iter().zip(out.chunks_exact_mut(2))`, after which a proof knows no element of `out`;
    // and with `flat_map` to the digits, each then stored at its place, where `search` did not find that the loop may
    // begin (`loop-i-init`).
    for (i, byte) in bytes.iter().enumerate() {
        out[2 * i] = digit_of(*byte / 16);
        out[2 * i + 1] = digit_of(*byte % 16);
    }
}
