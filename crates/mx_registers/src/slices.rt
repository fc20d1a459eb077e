//! Pieces of lists that are written in place or after them.

ghost use Rattle.std.specs.Prelude.{◌≡◌, ◌≤◌, ◌+◌, ◌-◌, ◌++◌, length, take, drop};
ghost use Rattle.std.specs.Vec.{vec_len, vec_capacity};
ghost use Rattle.mx_word.specs.Lists.{with_part};
ghost use Rattle.mx_registers.specs.Parts.{with_zeros_at};

/// Appends items to a list that has room for them.
#[inline(always)]
pub(crate) fn append(list: &mut Vec<u64>, items: &[u64])
    requires { vec_len list.old + length items.now ≤ vec_capacity list.old }
    ensures items { list.new.items ≡ list.old.items ++ items.now }
    ensures capacity { vec_capacity list.old ≤ vec_capacity list.new }
{
    let Ok(()) = list.extend_from_slice(items) else {
        unreachable!()
    };
}

/// Zeros in place of the octas from `from` up to `to`.
#[inline]
pub(crate) fn fill_with_zeros(items: &mut [u64], from: usize, to: usize)
    requires forward { from ≤ to }
    requires inside { to ≤ length items.old }
    ensures { items.new ≡ with_zeros_at items.old from to }
{
    items[from..to].fill(0);
}

/// Other items in place of as many from `place` on.
#[inline(always)]
pub(crate) fn copy_to(items: &mut [u64], place: usize, others: &[u64])
    requires { place + length others.now ≤ length items.old }
    ensures { items.new ≡ with_part items.old place others.now }
{
    items[place..place + others.len()].copy_from_slice(others);
}

/// The octas from `from` up to `to`, once more from `place` on.
#[inline(always)]
pub(crate) fn copy_within(items: &mut [u64], from: usize, to: usize, place: usize)
    requires forward { from ≤ to }
    requires inside { to ≤ length items.old }
    requires fits { place + (to - from) ≤ length items.old }
    ensures { items.new
        ≡ take place items.old ++ take (to - from) (drop from items.old) ++ drop (place + (to - from)) items.old }
{
    items.copy_within(from..to, place);
}
