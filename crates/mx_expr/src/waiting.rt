//! What waits for the expression that is being read.

ghost use Rattle.std.specs.Prelude.{◌≡◌, ◌≢◌, [], ◌∷◌, length, map, Ok, Err, List, OnOk, OnErr, IfErr, MatchOption};
ghost use Rattle.mx_expr.specs.Tree.{tree_of};
ghost use Rattle.mx_expr.specs.Reading as spec;
ghost use Rattle.mx_expr.specs.declared.waiting.Waiting.{Waiting};
ghost use Rattle.mx_expr.specs.Machine.{waiting_of, settled_as, all_waiting, last_sign, last_strong, last_weak};
ghost use Rattle.mx_expr.specs.Machine.{last_parenthesis};

use crate::{BinOp, Expr, ExprFault, UnOp};
use std::alloc::Global;
use std::marker::Model;

/// An operator with its left operand, or an open parenthesis.
#[derive(Drop)]
pub(crate) enum Waiting {
    Sign(UnOp),
    Strong(BinOp, Expr),
    Weak(BinOp, Expr),
    Parenthesis,
}

/// What waits, which contracts see as a list, the last first.
#[derive(Drop)]
pub(crate) struct Stack {
    items: Vec<Waiting>,
}

impl Model for Stack {
    ghost use Rattle.std.specs.Prelude.{List, reverse};
    ghost use Rattle.std.specs.Coded.{codes};
    ghost use Rattle.mx_expr.specs.declared.waiting.Waiting.{Waiting};
    ghost use Rattle.mx_expr.specs.contracts.tree.Expr as e;

    ghost Value = { List Waiting };

    ghost coded = { Prim.hlevel (codes, e.the_row.coded) };

    ghost view = { λ s. reverse s.items.items };
}

impl Stack {
    /// Nothing waits. It takes no memory.
    pub(crate) fn new(alloc: Global) -> Stack
        ensures { result ≡ [] }
    {
        Stack {
            items: Vec::new(alloc),
        }
    }

    /// One more thing waits.
    pub(crate) fn push(&mut self, item: Waiting) -> Result<(), ExprFault>
        ensures ok { OnOk result (self.new ≡ item ∷ self.old) }
        ensures err { IfErr result (λ e. e ≡ ExprFault.OutOfMemory) }
    {
        self.items.push(item)?;
        Ok(())
    }

    /// What waits last.
    fn pop(&mut self) -> Option<Waiting>
        ensures { MatchOption result (self.old ≡ []) (λ item. self.old ≡ item ∷ self.new) }
    {
        self.items.pop()
    }

    /// A look at what waits last.
    pub(crate) fn top(&self) -> Option<&Waiting>
        ensures { MatchOption result (self.now ≡ []) (λ item. (rest : List Waiting) × (self.now ≡ item.now ∷ rest)) }
    {
        self.items.last()
    }
}

impl Stack {
    /// A unary operator that waits last.
    pub(crate) fn pop_sign(&mut self) -> Option<UnOp>
        ensures { (result, self.new) ≡ last_sign self.old }
    {
        match self.top() {
            Some(Waiting::Sign(op)) => {
                let op = *op;
                self.pop();
                Some(op)
            }
            _ => None,
        }
    }

    /// A strong operator that waits last, with its left operand.
    pub(crate) fn pop_strong(&mut self) -> Option<(BinOp, Expr)>
        ensures { (result, self.new) ≡ last_strong self.old }
    {
        if !matches!(self.top(), Some(Waiting::Strong(_, _))) {
            return None;
        }
        match self.pop() {
            Some(Waiting::Strong(op, left)) => Some((op, left)),
            _ => unreachable!(),
        }
    }

    /// A weak operator that waits last, with its left operand.
    pub(crate) fn pop_weak(&mut self) -> Option<(BinOp, Expr)>
        ensures { (result, self.new) ≡ last_weak self.old }
    {
        if !matches!(self.top(), Some(Waiting::Weak(_, _))) {
            return None;
        }
        match self.pop() {
            Some(Waiting::Weak(op, left)) => Some((op, left)),
            _ => unreachable!(),
        }
    }

    /// Whether a parenthesis that waits last was taken.
    pub(crate) fn pop_parenthesis(&mut self) -> bool
        ensures { (result, self.new) ≡ last_parenthesis self.old }
    {
        if !matches!(self.top(), Some(Waiting::Parenthesis)) {
            return false;
        }
        self.pop();
        true
    }
}
