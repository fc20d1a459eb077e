//! The operations that place data.

ghost use Rattle.std.specs.Prelude.{◌≡◌};
ghost use Rattle.mx_slips.specs.Operations as spec;

/// Whether an operation places data.
pub fn is_data_operation(op: &[u8]) -> bool
    ensures { result ≡ spec.is_data_operation op.now }
{
    op == b"BYTE".as_slice()
        || op == b"WYDE".as_slice()
        || op == b"TETRA".as_slice()
        || op == b"OCTA".as_slice()
}
