//! What each code does, as tables by the code.

ghost use Rattle.std.specs.Prelude.{◌≡◌};
ghost use Rattle.mx_code.specs.Operations as spec;

use crate::operation::{Loading, Operation, Storing};
use mx_mem::Part;

const TRAP: Operation = Operation::Trap;

const FLOAT: Operation = Operation::Float;

const COMPUTE: Operation = Operation::Compute;

const NEGATE: Operation = Operation::Negate;

const WYDE: Operation = Operation::Wyde;

const BRANCH: Operation = Operation::Branch;

const CHOOSE: Operation = Operation::ConditionalSet;

const SET: Operation = Operation::ZeroOrSet;

const LDB: Operation = Operation::Load(Loading::Signed(Part::Byte));

const LDBU: Operation = Operation::Load(Loading::Unsigned(Part::Byte));

const LDW: Operation = Operation::Load(Loading::Signed(Part::Wyde));

const LDWU: Operation = Operation::Load(Loading::Unsigned(Part::Wyde));

const LDT: Operation = Operation::Load(Loading::Signed(Part::Tetra));

const LDTU: Operation = Operation::Load(Loading::Unsigned(Part::Tetra));

const LDO: Operation = Operation::Load(Loading::Unsigned(Part::Octa));

const LDHT: Operation = Operation::Load(Loading::HighTetra);

const STB: Operation = Operation::Store(Storing::Signed(Part::Byte));

const STBU: Operation = Operation::Store(Storing::Unsigned(Part::Byte));

const STW: Operation = Operation::Store(Storing::Signed(Part::Wyde));

const STWU: Operation = Operation::Store(Storing::Unsigned(Part::Wyde));

const STT: Operation = Operation::Store(Storing::Signed(Part::Tetra));

const STTU: Operation = Operation::Store(Storing::Unsigned(Part::Tetra));

const STO: Operation = Operation::Store(Storing::Unsigned(Part::Octa));

const STHT: Operation = Operation::Store(Storing::HighTetra);

const STCO: Operation = Operation::Store(Storing::Constant);

const CSWAP: Operation = Operation::CompareAndSwap;

const NOTHING: Operation = Operation::Nothing;

const LDVTS: Operation = Operation::Privileged;

const SYNC: Operation = Operation::Synchronize;

const GETA: Operation = Operation::Address;

const JMP: Operation = Operation::Jump;

const GO: Operation = Operation::Go;

const PUSHJ: Operation = Operation::PushJump;

const PUSHGO: Operation = Operation::PushGo;

const POP: Operation = Operation::Pop;

const SAVE: Operation = Operation::Save;

const UNSAVE: Operation = Operation::Unsave;

const GET: Operation = Operation::Get;

const PUT: Operation = Operation::Put;

const TRIP: Operation = Operation::Trip;

const RESUME: Operation = Operation::Resume;

/// What the machine does for each code.
static OPERATIONS: [Operation; 256] = [
    TRAP, FLOAT, FLOAT, FLOAT, FLOAT, FLOAT, FLOAT, FLOAT, FLOAT, FLOAT, FLOAT, FLOAT, FLOAT,
    FLOAT, FLOAT, FLOAT, FLOAT, FLOAT, FLOAT, FLOAT, FLOAT, FLOAT, FLOAT, FLOAT, COMPUTE, COMPUTE,
    COMPUTE, COMPUTE, COMPUTE, COMPUTE, COMPUTE, COMPUTE, COMPUTE, COMPUTE, COMPUTE, COMPUTE,
    COMPUTE, COMPUTE, COMPUTE, COMPUTE, COMPUTE, COMPUTE, COMPUTE, COMPUTE, COMPUTE, COMPUTE,
    COMPUTE, COMPUTE, COMPUTE, COMPUTE, COMPUTE, COMPUTE, NEGATE, NEGATE, NEGATE, NEGATE, COMPUTE,
    COMPUTE, COMPUTE, COMPUTE, COMPUTE, COMPUTE, COMPUTE, COMPUTE, BRANCH, BRANCH, BRANCH, BRANCH,
    BRANCH, BRANCH, BRANCH, BRANCH, BRANCH, BRANCH, BRANCH, BRANCH, BRANCH, BRANCH, BRANCH, BRANCH,
    BRANCH, BRANCH, BRANCH, BRANCH, BRANCH, BRANCH, BRANCH, BRANCH, BRANCH, BRANCH, BRANCH, BRANCH,
    BRANCH, BRANCH, BRANCH, BRANCH, CHOOSE, CHOOSE, CHOOSE, CHOOSE, CHOOSE, CHOOSE, CHOOSE, CHOOSE,
    CHOOSE, CHOOSE, CHOOSE, CHOOSE, CHOOSE, CHOOSE, CHOOSE, CHOOSE, SET, SET, SET, SET, SET, SET,
    SET, SET, SET, SET, SET, SET, SET, SET, SET, SET, LDB, LDB, LDBU, LDBU, LDW, LDW, LDWU, LDWU,
    LDT, LDT, LDTU, LDTU, LDO, LDO, LDO, LDO, FLOAT, FLOAT, LDHT, LDHT, CSWAP, CSWAP, LDO, LDO,
    LDVTS, LDVTS, NOTHING, NOTHING, NOTHING, NOTHING, GO, GO, STB, STB, STBU, STBU, STW, STW, STWU,
    STWU, STT, STT, STTU, STTU, STO, STO, STO, STO, FLOAT, FLOAT, STHT, STHT, STCO, STCO, STO, STO,
    NOTHING, NOTHING, NOTHING, NOTHING, NOTHING, NOTHING, PUSHGO, PUSHGO, COMPUTE, COMPUTE,
    COMPUTE, COMPUTE, COMPUTE, COMPUTE, COMPUTE, COMPUTE, COMPUTE, COMPUTE, COMPUTE, COMPUTE,
    COMPUTE, COMPUTE, COMPUTE, COMPUTE, COMPUTE, COMPUTE, COMPUTE, COMPUTE, COMPUTE, COMPUTE,
    COMPUTE, COMPUTE, COMPUTE, COMPUTE, COMPUTE, COMPUTE, COMPUTE, COMPUTE, COMPUTE, COMPUTE, WYDE,
    WYDE, WYDE, WYDE, WYDE, WYDE, WYDE, WYDE, WYDE, WYDE, WYDE, WYDE, WYDE, WYDE, WYDE, WYDE, JMP,
    JMP, PUSHJ, PUSHJ, GETA, GETA, PUT, PUT, POP, RESUME, SAVE, UNSAVE, SYNC, NOTHING, GET, TRIP,
];

/// What the machine does for a code, from 0 to 255.
#[inline(always)]
pub fn operation_of(code: u8) -> Operation
    ensures { result ≡ spec.operation_of code }
{
    OPERATIONS[usize::from(code)]
}
