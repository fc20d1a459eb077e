//! What is known where an expression is valued.

ghost use Rattle.std.specs.Prelude.{◌≡◌, ◌≢◌, ℕ, ◌≤◌, List, Option, Result, IfErr, ◌⊎◌};
ghost use Rattle.mx_word.specs.declared.symbols.Value.{Value};
ghost use Rattle.mx_expr.specs.declared.faults.ExprFault.{ExprFault};

use crate::ExprFault;
use mx_word::Value;

/// The symbols that have a value, the local labels and the place.
pub trait Known {
    /// The value of each symbol as it is written; nothing where it is not known.
    ghost symbols: { Self → List ℕ → Result (Option Value) ExprFault };
    /// The value of `dB`.
    ghost backs: { Self → ℕ → Value };
    /// The place.
    ghost at: { Self → ℕ };

    /// The value of a symbol as it is written; nothing where it is not known. It refuses with
    /// `NameTooLong`, exactly where the complete form is too long, or where there is no memory.
    fn symbol(&self, name: &[u8]) -> Result<Option<Value>, ExprFault>
        ensures told { result ≢ Err ExprFault.OutOfMemory → result ≡ symbols self.now name.now }
        ensures refuses { IfErr result (λ e. (e ≡ ExprFault.NameTooLong) ⊎ (e ≡ ExprFault.OutOfMemory)) };

    /// The value of the last local label `dH`. The digit d is at most 9.
    fn back(&self, d: u8) -> Value
        requires { d ≤ 9 }
        ensures { result ≡ backs self.now d };

    /// The place, which `@` means.
    fn place(&self) -> u64
        ensures { result ≡ at self.now };
}
