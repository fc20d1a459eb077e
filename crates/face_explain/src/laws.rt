//! What holds of the whole table.

ghost use Rattle.std.specs.Prelude.{◌≡◌, ◌≢◌, ℕ, List, [], Some, IsTrue, decimal, false};
ghost use Rattle.std.specs.List.{list_all};
ghost use Rattle.mx_ops.specs.Opcodes.{operation_of};
ghost use Rattle.mx_ops.specs.declared.op.Op.{Op};
ghost use Rattle.mx_outcome.specs.Names.{fault_name_of, usage_name_of};
ghost use Rattle.mx_outcome.specs.Status.{status_of};
ghost use Rattle.mx_outcome.specs.declared.outcome.Outcome.{Outcome};
ghost use Rattle.mx_warn.specs.Kinds.{kind_name, kind_number};
ghost use Rattle.mx_warn.specs.declared.warnings.Kind.{Kind};
ghost use Rattle.mx_explain.specs.Facts.{value_of};
ghost use Rattle.face_explain.specs.Known as spec;
ghost use Rattle.face_explain.specs.Tables.{table};

/// Every fault, reason, kind and warning that has a name is explained by its number and by its name; every exit status that a
/// program does not give itself by its number; every operation and every predefined symbol by its name.
pub fn what_the_tables_have_is_explained()
    ensures faults { (n : ℕ) → fault_name_of n ≢ [] → IsTrue (spec.explains (decimal n) (spec.is_fault n)) }
    ensures names { (n : ℕ) → fault_name_of n ≢ [] → IsTrue (spec.explains (fault_name_of n) (spec.is_fault n)) }
    ensures kinds { (n : ℕ) → usage_name_of n ≢ [] → IsTrue (spec.explains (decimal n) (spec.is_kind n)) }
    ensures kind_names { (n : ℕ) → usage_name_of n ≢ [] → IsTrue (spec.explains (usage_name_of n) (spec.is_kind n)) }
    ensures warnings { (k : Kind) → IsTrue (spec.explains (decimal (kind_number k)) (spec.is_warning k)) }
    ensures warning_names { (k : Kind) → IsTrue (spec.explains (kind_name k) (spec.is_warning k)) }
    ensures statuses { (o : Outcome) → spec.is_its_own o ≡ false →
        IsTrue (spec.explains (decimal (status_of o)) (spec.is_status (status_of o))) }
    ensures operations { (name : List ℕ) (op : Op) → operation_of name ≡ Some op → IsTrue (spec.explains name (spec.is_operation name)) }
    ensures symbols { (name : List ℕ) (v : ℕ) → value_of name ≡ Some v → IsTrue (spec.explains name (spec.is_symbol name)) }
{}

/// Every row is about a number or a name that the tables of the program and of MMIXAL have.
#[tactic(auto, using(crate::proofs::Covered::rows))]
pub fn what_is_explained_is_in_the_tables()
    ensures { IsTrue (list_all spec.is_known table) }
{}
