// The buffer that is lent to a call.
ghost use Rattle.std.specs.Prelude.{◌≡◌};
ghost use Rattle.recorded.specs.Lent.{unwritten, agreeing, Holds};

// What byte i holds before a call. An answer has no byte above 64 and a cell is 0 or 1: a byte that was written shows.
fn unwritten(i: usize) -> u8
    ensures { result ≡ unwritten i }
{
    200 + (i % 50) as u8
}

pub fn fill(buffer: &mut [u8])
    ensures { Holds 0 unwritten buffer.old buffer.new }
{
    for (i, byte) in buffer.iter_mut().enumerate() {
        *byte = unwritten(i);
    }
}

// The first place where two buffers differ or one of them ends.
pub fn agree(a: &[u8], b: &[u8]) -> usize
    ensures { result ≡ agreeing a.now b.now }
{
    a.iter().zip(b).take_while(|(x, y)| x == y).count()
}
