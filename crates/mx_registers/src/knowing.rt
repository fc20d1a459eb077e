//! Octas are below 2^64.

ghost use Rattle.std.specs.Prelude.{◌<◌, ◌^◌, ℕ, slice_index};

/// States that each item of a slice of octas is below 2^64. It does nothing.
#[inline(always)]
pub(crate) fn know_octas(octas: &[u64])
    ensures { (i : ℕ) → slice_index octas.now i < 2 ^ 64 }
{
    let _octas = octas;
}
