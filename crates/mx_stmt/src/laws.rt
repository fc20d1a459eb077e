//! What holds of the definitions alone.

ghost use Rattle.std.specs.Prelude.{◌≡◌, ◌<◌, ℕ, List, [], Err};
ghost use Rattle.std.specs.List.{AllByRecursion};
ghost use Rattle.mx_names.specs.Names.{start};
ghost use Rattle.mx_word.specs.declared.symbols.Value.{Value};
ghost use Rattle.mx_names.specs.Gregs.{IsAllocable};
ghost use Rattle.mx_stmt.specs.declared.placed.Placed.{Placed};
ghost use Rattle.mx_stmt.specs.Encoding.{StatementTree, IsPossible, encoding};
ghost use Rattle.mx_stmt.specs.Faults.{fault_number};
ghost use Rattle.mx_stmt.specs.declared.faults.StmtFault.{StmtFault};
ghost use Rattle.mx_stmt.specs.Fixes.{IsOperation, IsSound, HasRegisterNumber};
ghost use Rattle.mx_stmt.specs.Laid.{IsLaid};
ghost use Rattle.mx_stmt.specs.Laws.{HasRegisterLabel, IsNew, IsUnknown, JoinsTargets, Places};
ghost use Rattle.mx_stmt.specs.Laws.{with_local, with_name, with_given};
ghost use Rattle.mx_stmt.specs.Operands.{Known, Targets};
ghost use Rattle.mx_stmt.specs.Reading.{Fields, IsFault, IsRead};

/// The operation of a statement that was read is that of a name.
pub fn operations_have_names()
    ensures { (fields : Fields) (line : ℕ) (s : StatementTree) → IsRead fields line s → IsOperation s.op }
{}

/// Where the targets of future references are known, a statement comes to what it comes to without
/// them, or to the same fault; only what its references add is joined to its bytes.
pub fn targets_join_their_bytes()
    ensures { (t : Targets) (k : Known) (s : StatementTree) → IsOperation s.op → IsSound k →
        JoinsTargets t k s }
{}

/// A label never means a register above $255, and a register that is allocated may be.
pub fn registers_are_bytes()
    ensures label { (t : Targets) (k : Known) (s : StatementTree) (p : Placed) → IsSound k → Places t k s p →
        HasRegisterLabel p }
    ensures effect { (t : Targets) (k : Known) (s : StatementTree) (p : Placed) → IsSound k → Places t k s p →
        IsPossible k.gregs p.effect }
{}

/// What is known stays sound: no name and no local label means a register above $255, and none
/// below $32 is allocated. It is so before the first statement, after the label of a symbol that was
/// not defined, after a local label, and after a register that is given.
pub fn knowledge_stays_sound()
    ensures start { (at : ℕ) → IsSound (record { names = start; at = at; gregs = [] }) }
    ensures symbol { (k : Known) (name : List ℕ) (v : Value) → IsNew name k → HasRegisterNumber v →
        IsSound k → IsSound (with_name k name v) }
    ensures local { (k : Known) (d : ℕ) (v : Value) → HasRegisterNumber v → IsSound k →
        IsSound (with_local k d v) }
    ensures register { (k : Known) (reg value : ℕ) → IsAllocable k.gregs reg → IsSound k →
        IsSound (with_given k reg value) }
{}

/// The bytes of a statement are bytes below the stack segment, and each of its references is at a
/// multiple of 4 within them.
pub fn references_are_in_their_bytes()
    ensures { (t : Targets) (k : Known) (s : StatementTree) (p : Placed) → Places t k s p → IsLaid p }
{}

/// A statement waits only for local labels, and for names that have no value at it.
pub fn awaited_names_are_unknown()
    ensures { (t : Targets) (k : Known) (s : StatementTree) (p : Placed) → Places t k s p →
        AllByRecursion (IsUnknown k) p.waits }
{}

/// By its definition a statement is never refused because memory runs out: each fault that its fields have, and
/// each that it comes to, has a number above 0.
#[tactic(auto, using(crate::proofs::NumberedFaults::numbered))]
pub fn faults_have_numbers()
    ensures read { (fields : Fields) (fault : StmtFault) → IsFault fields fault → 0 < fault_number fault }
    ensures placed { (t : Targets) (k : Known) (s : StatementTree) (fault : StmtFault) → encoding t k s ≡ Err fault →
        0 < fault_number fault }
{}
