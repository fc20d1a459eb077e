//! What holds of trips and insertions over their definitions alone.

ghost use Rattle.std.specs.Prelude.{◌≡◌, ◌≢◌, ◌≤◌, ◌<◌, ◌^◌, ◌%◌, ℕ, Some, codes};
ghost use Rattle.mx_alu.specs.declared.answer.Event.{Event};
ghost use Rattle.mx_alu.specs.declared.answer.Event.TheVariants.{Divide, Overflow};
ghost use Rattle.mx_ops.specs.Opcodes.{opcode_name};
ghost use Rattle.mx_ops.specs.Predefined.{predefined_value};
ghost use Rattle.mx_alu.specs.Insertions.{insertion, marked_instruction, trap_code, resume_code, code_in};
ghost use Rattle.mx_alu.specs.Trips.{decided, event_bit, handler};
ghost use Rattle.mx_alu.specs.declared.decision.Trip.TheVariants.{Noted};
ghost use Rattle.mx_alu.specs.declared.insertion.Insert.TheVariants.{Back, Perform};
ghost use Rattle.mx_alu.specs.declared.insertion.Kind.{Kind};
ghost use Rattle.mx_alu.specs.declared.insertion.Kind.TheVariants.{Set};

/// The codes are those of TRAP and RESUME.
#[tactic(auto, using(crate::proofs::Events::names))]
pub fn codes_have_their_names()
    ensures trap { opcode_name trap_code ≡ codes "TRAP" }
    ensures resume { opcode_name resume_code ≡ codes "RESUME" }
{}

/// The bits and handlers of events are those of the predefined symbols.
#[tactic(auto, using(crate::proofs::Events::symbols))]
pub fn events_have_their_symbols()
    ensures d_bit { predefined_value (codes ":D_BIT") ≡ Some (event_bit Divide) }
    ensures v_bit { predefined_value (codes ":V_BIT") ≡ Some (event_bit Overflow) }
    ensures d_handler { predefined_value (codes ":D_Handler") ≡ Some (handler Divide) }
    ensures v_handler { predefined_value (codes ":V_Handler") ≡ Some (handler Overflow) }
{}

/// An rA of 18 bits, as PUT gives it, has 18 bits after an event is noted.
#[tactic(auto, using(crate::proofs::Events::noted_below))]
pub fn noted_events_stay_in_18_bits()
    ensures { (ra x : ℕ) (event : Event) → ra < 2 ^ 18 → decided ra event ≡ Noted x → x < 2 ^ 18 }
{}

/// After a trip RESUME 0 goes to the address that the trip left in rW.
pub fn trips_are_resumed()
    ensures { (w next l g : ℕ) → next % 4 ≡ 0 → insertion (marked_instruction w) next l g ≡ Back next }
{}

/// RESUME 0 goes to a multiple of 4, which is not above rW. What it performs is at a multiple of 4
/// below 2^64, and is a tetra.
pub fn insertions_are_at_tetras()
    ensures back { (rx next l g a : ℕ) → insertion rx next l g ≡ Back a → a % 4 ≡ 0 }
    ensures not_above { (rx next l g a : ℕ) → insertion rx next l g ≡ Back a → a ≤ next }
    ensures place { (rx next l g at w : ℕ) (kind : Kind) → insertion rx next l g ≡ Perform kind at w → at % 4 ≡ 0 }
    ensures octa { (rx next l g at w : ℕ) (kind : Kind) → insertion rx next l g ≡ Perform kind at w → at < 2 ^ 64 }
    ensures tetra { (rx next l g at w : ℕ) (kind : Kind) → insertion rx next l g ≡ Perform kind at w → w < 2 ^ 32 }
{}

/// What RESUME 0 performs is no RESUME, so that it inserts nothing itself; and it is no TRAP where its
/// code counts.
pub fn insertions_end()
    ensures resume { (rx next l g at w : ℕ) (kind : Kind) → insertion rx next l g ≡ Perform kind at w
        → code_in w ≢ resume_code }
    ensures trap { (rx next l g at w : ℕ) (kind : Kind) → insertion rx next l g ≡ Perform kind at w → kind ≢ Set
        → code_in w ≢ trap_code }
{}
