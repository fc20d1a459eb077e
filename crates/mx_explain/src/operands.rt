//! How operations are written.

ghost use Rattle.std.specs.Prelude.{◌≡◌};
ghost use Rattle.mx_explain.specs.Operands as spec;

use mx_ops::{Op, Pseudo, Shape, is_immediate, shape_of};

/// The operands of a shape, where the code after a code of it may have Z as a number.
fn shape_operands(shape: Shape, has_immediate: bool) -> &'static str
    ensures { result.now ≡ spec.shape_operands shape has_immediate }
{
    match shape {
        Shape::Three => "$X,$Y,$Z|Z",
        Shape::Regs => "$X,$Y,$Z",
        Shape::Round => {
            if has_immediate {
                "$X,$Z|Z or $X,Y,$Z|Z"
            } else {
                "$X,$Z or $X,Y,$Z"
            }
        }
        Shape::Neg => "$X,$Z|Z or $X,Y,$Z|Z",
        Shape::Rel => "$X,a",
        Shape::Mem => "$X,$Y,$Z|Z or $X,$Y or $X,A",
        Shape::MemPure => "X,$Y,$Z|Z or X,$Y or X,A",
        Shape::Wyde => "$X,YZ",
        Shape::Jump => "a",
        Shape::Put => "X,$Z|Z",
        Shape::Get => "$X,Z",
        Shape::Pop => "X,YZ",
        Shape::One => "XYZ",
        Shape::Save => "$X,0",
        Shape::Unsave => "$Z",
        Shape::Free => "X,Y,Z or X,YZ or XYZ",
    }
}

/// The operands of a pseudo-operation.
fn pseudo_operands(pseudo: Pseudo) -> &'static str
    ensures { result.now ≡ spec.pseudo_operands pseudo }
{
    match pseudo {
        Pseudo::Is | Pseudo::Loc | Pseudo::Greg => "v",
        Pseudo::Prefix => "name",
        Pseudo::Local => "$X",
        Pseudo::Byte | Pseudo::Wyde | Pseudo::Tetra | Pseudo::Octa => "v,v,..",
    }
}

/// The operands of an operation, if there is one.
pub(crate) fn operands(op: Option<Op>) -> &'static str
    ensures { result.now ≡ spec.operands op }
{
    match op {
        None => "",
        Some(Op::Pseudo(pseudo)) => pseudo_operands(pseudo),
        Some(Op::Lda) => "$X,$Y,$Z|Z or $X,$Y or $X,A",
        Some(Op::Set) => "$X,$Y or $X,YZ",
        Some(Op::Code(code)) => shape_operands(shape_of(code), is_immediate(code.wrapping_add(1))),
    }
}
