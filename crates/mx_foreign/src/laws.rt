//! What holds of the table.

ghost use Rattle.std.specs.Prelude.{IsTrue};
ghost use Rattle.std.specs.List.{list_all};
ghost use Rattle.mx_foreign.specs.Foreign.{foreign, is_foreign};

/// No name of the table is an operation of MMIXAL.
#[tactic(auto, using(crate::proofs::Rows::rows))]
pub fn foreign_names_are_no_operations()
    ensures { IsTrue (list_all is_foreign foreign) }
{}
