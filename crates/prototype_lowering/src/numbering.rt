//! The number in the typelib of each interface of a scope.

ghost use Rattle.std.specs.Prelude.{◌<◌, ◌≤◌, All, length};
ghost use Rattle.prototype_lowering.specs.Numbering.{HasItsNumbers};

/// Writes the numbers, counted from 1, of the interfaces in this order: each by its number in the
/// scope.
pub(crate) fn write_numbers(numbers: &mut [u16], order: &[u32])
    requires few { length order.now ≤ 65535 }
    requires within { All (λ k. k < length numbers.old) order.now }
    ensures { HasItsNumbers order.now numbers.new }
{
    let mut place = order.len();
    while place > 0 {
        place -= 1;
        numbers[order[place] as usize] = place as u16 + 1;
    }
}
