//! How much room an operation has for a number.

ghost use Rattle.std.specs.Prelude.{◌≡◌};
ghost use Rattle.mx_ops.specs.Shapes.{shapes_of};
ghost use Rattle.mx_marks.specs.Marks as spec;

use mx_ops::{Op, Pseudo, Shape, shape_of};

/// The room for a number in a field of an instruction or in data.
#[derive(Clone, Copy, PartialEq, Eq)]
pub enum Room {
    Byte,
    Wyde,
    Tetra,
    DataByte,
    DataWyde,
}

/// The room in operands of a shape.
fn shape_room(shape: Shape) -> Room
    ensures { result ≡ spec.shape_room shape }
{
    match shape {
        Shape::Wyde => Room::Wyde,
        _ => Room::Byte,
    }
}

/// The room in the operands of a code.
fn code_room(code: u8) -> Room
    ensures { result ≡ spec.first_room (shapes_of code) }
{
    shape_room(shape_of(code))
}

/// The room in data.
fn pseudo_room(pseudo: Pseudo) -> Room
    ensures { result ≡ spec.pseudo_room pseudo }
{
    match pseudo {
        Pseudo::Byte => Room::DataByte,
        Pseudo::Wyde => Room::DataWyde,
        Pseudo::Tetra => Room::Tetra,
        _ => Room::Byte,
    }
}

/// The room for a number in the operands of an operation.
pub(crate) fn room_of(operation: Option<Op>) -> Room
    ensures { result ≡ spec.room_of operation }
{
    match operation {
        None | Some(Op::Lda) => Room::Byte,
        Some(Op::Set) => Room::Wyde,
        Some(Op::Pseudo(pseudo)) => pseudo_room(pseudo),
        Some(Op::Code(code)) => code_room(code),
    }
}

/// The largest number that has room.
pub(crate) fn limit_of(room: Room) -> u64
    ensures { result ≡ spec.limit_of room }
{
    match room {
        Room::Byte | Room::DataByte => 255,
        Room::Wyde | Room::DataWyde => 65535,
        Room::Tetra => 4_294_967_295,
    }
}
