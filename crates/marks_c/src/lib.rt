// The call of `marks` for C, and for what links as C does: each slice is a pointer and a length, and a flat struct
// comes by value. A crate is built as a library or as an archive, not as both: so the export here calls the function
// of that name in `marks`, and states its clause again.
#![tactic(auto)]

ghost use Rattle.marks.specs.Carry.{mark};
ghost use Rattle.marks.specs.Flat.{CarriesFlat};

use marks::flat::Flat;

// `marks::carry` for C.
#[unsafe(no_mangle)]
pub extern "C" fn iravikkon_carry(
    first: &[i32],
    second: &[i32],
    x: i32,
    y: i32,
    room: &mut [u8],
) -> Flat
    ensures { CarriesFlat first.now second.now (mark x y) room.old room.new result }
{
    marks::flat::iravikkon_carry(first, second, x, y, room)
}
