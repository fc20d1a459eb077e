//! Complete names.

ghost use Rattle.std.specs.Prelude.{◌≡◌, ◌≢◌, ◌++◌};
ghost use Rattle.mx_names.specs.Names as spec;

use crate::NameFault;
use mx_word::Bytes;
use std::alloc::Global;

/// The most bytes of a complete name.
const LONGEST: usize = 1024;

/// Whether a symbol is complete, which is where it begins with a colon.
pub(crate) fn is_complete(name: &[u8]) -> bool
    ensures { result ≡ spec.is_complete name.now }
{
    name.first() == Some(&b':')
}

/// A copy of a complete name, where it is not too long.
pub(crate) fn copy_of(alloc: Global, full: &[u8]) -> Result<Bytes, NameFault>
    ensures { result ≢ Err NameFault.OutOfMemory → result ≡ spec.fitting_form full.now }
{
    if full.len() > LONGEST {
        return Err(NameFault::NameTooLong);
    }
    Ok(Bytes::copy(alloc, full)?)
}

/// The prefix followed by a symbol, where that is not too long.
pub(crate) fn name_with_prefix(
    alloc: Global,
    prefix: &[u8],
    name: &[u8],
) -> Result<Bytes, NameFault>
    ensures { result ≢ Err NameFault.OutOfMemory → result ≡ spec.fitting_form (prefix.now ++ name.now) }
{
    if prefix.len().saturating_add(name.len()) > LONGEST {
        return Err(NameFault::NameTooLong);
    }
    let mut full = Bytes::copy(alloc, prefix)?;
    full.extend(name)?;
    Ok(full)
}
