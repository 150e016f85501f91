// The bits of a float, to be told and compared as a number.
ghost use Rattle.std.specs.Prelude.{◌≡◌};
ghost use Rattle.std.specs.Float.{binary64};
ghost use Rattle.std.specs.Float.Ieee.{to_bits};

// The bits of what is no number; every other float has its own.
const NO_NUMBER: u64 = 9221120237041090560;

pub fn bits(x: f64) -> u64
    ensures { result ≡ to_bits binary64 x }
{
    if x.is_nan() { NO_NUMBER } else { x.to_bits() }
}
