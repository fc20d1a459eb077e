//! What is known at a statement.

ghost use Rattle.mx_stmt.specs.Operands.{symbol_value};
ghost use Rattle.mx_names.specs.Names.{back_of};

use mx_expr::{ExprFault, Known};
use mx_names::{Gregs, NameFault, Names};
use mx_word::Value;
use std::alloc::Global;

/// The names, the place that `@` means, the global registers that are allocated, and the
/// allocator.
#[derive(Clone, Copy)]
pub struct Env<'a> {
    pub alloc: Global,
    pub names: &'a Names,
    pub at: u64,
    pub gregs: &'a Gregs,
}

impl Known for Env<'_> {
    ghost symbols = { λ env text. symbol_value env.names.now.names text };

    ghost backs = { λ env d. back_of env.names.now.names d };

    ghost at = { λ env. env.at };

    fn symbol(&self, name: &[u8]) -> Result<Option<Value>, ExprFault> {
        match self.names.resolve(name) {
            Ok(full) => Ok(self.names.lookup(full.as_slice())),
            Err(NameFault::OutOfMemory) => Err(ExprFault::OutOfMemory),
            Err(_) => Err(ExprFault::NameTooLong),
        }
    }

    fn back(&self, d: u8) -> Value {
        self.names.local_back(d)
    }

    fn place(&self) -> u64 {
        self.at
    }
}
