//! Expressions as trees, and lists of them.

ghost use Rattle.std.specs.Prelude.{◌≡◌, ◌+◌, ◌<◌};
ghost use Rattle.mx_expr.specs.Tree.{tree_of, weight};

use mx_word::{Bytes, Sequence};
use std::alloc::Global;
use std::mem;

/// An operator before an operand.
#[derive(Clone, Copy)]
pub enum UnOp {
    /// `+`
    Plus,
    /// `-`
    Minus,
    /// `~`
    Not,
    /// `$`
    Register,
}

/// An operator between two operands. `Mul` to `And` are strong, the others weak.
#[derive(Clone, Copy)]
pub enum BinOp {
    /// `*`
    Mul,
    /// `/`
    Div,
    /// `//`
    Fraction,
    /// `%`
    Rem,
    /// `<<`
    Left,
    /// `>>`
    Right,
    /// `&`
    And,
    /// `+`
    Add,
    /// `-`
    Sub,
    /// `|`
    Or,
    /// `^`
    Xor,
}

/// An expression (MMIXAL, expressions). Parentheses leave no trace in it.
pub enum Expr {
    /// A constant.
    Number(u64),
    /// A symbol as it is written.
    Name(Bytes),
    /// `dB`, the last local label `dH`; d is at most 9.
    Back(u8),
    /// `dF`, the next local label `dH`; d is at most 9.
    Ahead(u8),
    /// `@`, the place.
    Here,
    /// An operator before its operand.
    Unary(UnOp, Box<Expr>),
    /// An operator between its left and its right operand.
    Binary(BinOp, Box<Expr>, Box<Expr>),
}

impl Drop for Expr {
    /// Lets a tree go, however deep it is, by a loop: a left operand that has two operands is
    /// turned to the right, until there is none.
    fn drop(mut self) {
        loop {
            match self {
                Expr::Number(_) | Expr::Back(_) | Expr::Ahead(_) | Expr::Here => return,
                Expr::Name(_) => return,
                Expr::Unary(_, operand) => self = Box::into_inner(operand),
                Expr::Binary(op, mut left, right) => {
                    let first = mem::replace(&mut *left, Expr::Here);
                    self = first.rotate(op, left, right);
                }
            }
        }
    }
}

impl Expr {
    /// The tree of this left operand, whose box is now free, and a right one, with one node less
    /// to the left.
    fn rotate(self, op: BinOp, mut free: Box<Expr>, right: Box<Expr>) -> Expr
        requires { free.value ≡ Expr.Here }
        ensures { weight (tree_of result) < 1 + (weight (tree_of self) + weight (tree_of self)) + weight
            (tree_of right.value) }
    {
        match self {
            Expr::Binary(inner, first, second) => {
                mem::replace(&mut *free, Expr::Binary(op, second, right)).vanish();
                Expr::Binary(inner, first, free)
            }
            Expr::Unary(_, operand) => {
                Box::into_inner(free).vanish();
                Expr::Binary(op, operand, right)
            }
            Expr::Number(_) | Expr::Back(_) | Expr::Ahead(_) | Expr::Here => {
                Box::into_inner(free).vanish();
                Box::into_inner(right)
            }
            Expr::Name(_) => {
                Box::into_inner(free).vanish();
                Box::into_inner(right)
            }
        }
    }

    /// Lets a leaf go that holds nothing.
    fn vanish(self)
        requires { self ≡ Expr.Here }
    {
        match self {
            Expr::Here => {}
            _ => unreachable!(),
        }
    }
}

/// A list of expressions.
pub type Exprs = Sequence<Expr>;
