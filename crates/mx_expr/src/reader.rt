//! A field is read byte by byte.

ghost use Rattle.std.specs.Prelude.{◌≡◌, ◌≢◌, ◌+◌, ◌*◌, ◌-◌, ◌^◌, ◌<◌, ◌≤◌, List, [], ◌∷◌, ◌++◌, None, Some, Ok, Err};
ghost use Rattle.std.specs.Prelude.{IfOk, IfErr, OnOk, OnErr, IsTrue};
ghost use Rattle.mx_expr.specs.Tree.{ReadsAs, tree_of, trees_of};
ghost use Rattle.mx_expr.specs.Bytes as kinds;
ghost use Rattle.mx_expr.specs.Reading as spec;
ghost use Rattle.mx_expr.specs.Machine.{GoesOn, TakesByte, all_waiting, mode_of, waiting_of, reading_of, listing_of};

use crate::joining::{settle, sum};
use crate::kinds::digit_value;
use crate::waiting::{Stack, Waiting};
use crate::{BinOp, Expr, ExprFault, Exprs, UnOp};
use mx_word::{Bytes, is_digit, is_hexadecimal, is_letter, is_name_byte};
use std::alloc::Global;

/// How far reading has come, with the expression or the token that is being read.
#[derive(Drop)]
pub(crate) enum Mode {
    /// A primary comes next.
    Operand,
    /// After a primary, which is joined with the strong operators before it.
    Whole(Expr),
    /// After the first decimal digit of a constant.
    Digit(u8),
    /// In a decimal constant.
    Decimal(u64),
    /// After `#`.
    Hash,
    /// In a hexadecimal constant.
    Hexadecimal(u64),
    /// After an apostrophe.
    Quote,
    /// After an apostrophe and a byte.
    Character(u8),
    /// In a symbol.
    Symbol(Bytes),
    /// After `/`, which may be the first byte of `//`.
    Slash(Expr),
    /// After `<`, the first byte of `<<`.
    Less(Expr),
    /// After `>`, the first byte of `>>`.
    Greater(Expr),
    /// In a string, which has no byte so far or some.
    String(bool),
    /// After a string.
    Closed,
}

/// What is kept while a field is read: what waits for the expression, how many parentheses are
/// open, and the operands before it.
#[derive(Drop)]
pub(crate) struct Reader {
    alloc: Global,
    waiting: Stack,
    depth: usize,
    done: Exprs,
}

impl Reader {
    /// Nothing is read so far.
    pub(crate) fn new(alloc: Global) -> Reader
        ensures { reading_of (Ok Mode.Operand) result ≡ Ok spec.start }
    {
        Reader {
            alloc,
            waiting: Stack::new(alloc),
            depth: 0,
            done: Exprs::new(alloc),
        }
    }

    /// A primary is complete.
    fn complete(&mut self, primary: Expr) -> Result<Mode, ExprFault>
        ensures { GoesOn result self.old self.new (spec.primary_end (tree_of primary)) }
    {
        Ok(Mode::Whole(settle(self.alloc, &mut self.waiting, primary)?))
    }

    /// One more thing waits for the next primary.
    fn wait(&mut self, item: Waiting) -> Result<Mode, ExprFault>
        ensures { GoesOn result self.old self.new (λ k. spec.at spec.operand (waiting_of item ∷ k)) }
    {
        self.waiting.push(item)?;
        Ok(Mode::Operand)
    }

    /// The first byte of a primary.
    fn begin(&mut self, b: u8) -> Result<Mode, ExprFault>
        requires { b ≡ 40 → self.old.depth < 255 }
        ensures { GoesOn result self.old self.new (spec.primary_start b) }
    {
        if is_digit(b) {
            Ok(Mode::Digit(b - b'0'))
        } else if is_letter(b) {
            self.lengthen(Bytes::new(self.alloc), b)
        } else {
            self.begin_mark(b)
        }
    }

    /// The first byte of a primary that is no digit and no letter.
    fn begin_mark(&mut self, b: u8) -> Result<Mode, ExprFault>
        requires { b ≡ 40 → self.old.depth < 255 }
        ensures { GoesOn result self.old self.new (spec.mark_start b) }
    {
        match b {
            b'#' => Ok(Mode::Hash),
            b'\'' => Ok(Mode::Quote),
            b'@' => self.complete(Expr::Here),
            b'(' => {
                self.depth += 1;
                self.wait(Waiting::Parenthesis)
            }
            b'"' => self.open_string(),
            b'+' => self.wait(Waiting::Sign(UnOp::Plus)),
            b'-' => self.wait(Waiting::Sign(UnOp::Minus)),
            b'~' => self.wait(Waiting::Sign(UnOp::Not)),
            b'$' => self.wait(Waiting::Sign(UnOp::Register)),
            _ => Err(ExprFault::Syntax),
        }
    }

    /// The start of a string, which is a whole operand: nothing waits for it.
    fn open_string(&self) -> Result<Mode, ExprFault>
        ensures { GoesOn result self.now self.now spec.string_start }
    {
        match self.waiting.top() {
            None => Ok(Mode::String(true)),
            Some(_) => Err(ExprFault::Syntax),
        }
    }

    /// One more byte of a symbol.
    fn lengthen(&mut self, text: Bytes, b: u8) -> Result<Mode, ExprFault>
        ensures { GoesOn result self.old self.new (spec.at (spec.symbol (text ++ b ∷ []))) }
    {
        let mut text = text;
        text.push(b)?;
        Ok(Mode::Symbol(text))
    }

    /// A byte after a primary that it does not go on.
    fn beyond(&mut self, primary: Expr, b: u8) -> Result<Mode, ExprFault>
        ensures { GoesOn result self.old self.new (spec.beyond b (tree_of primary)) }
    {
        let product = settle(self.alloc, &mut self.waiting, primary)?;
        self.after(product, b)
    }

    /// A byte after a product.
    fn after(&mut self, product: Expr, b: u8) -> Result<Mode, ExprFault>
        ensures { GoesOn result self.old self.new (λ k. spec.after b (tree_of product, k)) }
    {
        match b {
            b'*' => self.wait(Waiting::Strong(BinOp::Mul, product)),
            b'%' => self.wait(Waiting::Strong(BinOp::Rem, product)),
            b'&' => self.wait(Waiting::Strong(BinOp::And, product)),
            b'/' => Ok(Mode::Slash(product)),
            b'<' => Ok(Mode::Less(product)),
            b'>' => Ok(Mode::Greater(product)),
            _ => self.after_sum(product, b),
        }
    }

    /// A byte after the last product of a sum.
    fn after_sum(&mut self, product: Expr, b: u8) -> Result<Mode, ExprFault>
        ensures { GoesOn result self.old self.new
            (λ k. spec.weakly_or_end (spec.weak_of b) b (spec.with_weak k (tree_of product))) }
    {
        let e = sum(self.alloc, &mut self.waiting, product)?;
        match b {
            b'+' => self.wait(Waiting::Weak(BinOp::Add, e)),
            b'-' => self.wait(Waiting::Weak(BinOp::Sub, e)),
            b'|' => self.wait(Waiting::Weak(BinOp::Or, e)),
            b'^' => self.wait(Waiting::Weak(BinOp::Xor, e)),
            b')' => self.close(e),
            b',' => {
                self.list(e)?;
                Ok(Mode::Operand)
            }
            _ => Err(ExprFault::Syntax),
        }
    }

    /// The end of an expression in parentheses.
    fn close(&mut self, e: Expr) -> Result<Mode, ExprFault>
        ensures { GoesOn result self.old self.new (λ k. spec.enclosed (tree_of e, k)) }
    {
        if !self.waiting.pop_parenthesis() {
            return Err(ExprFault::Syntax);
        }
        self.depth = self.depth.saturating_sub(1);
        self.complete(e)
    }

    /// The end of an operand.
    fn list(&mut self, e: Expr) -> Result<(), ExprFault>
        ensures list { result ≢ Err ExprFault.OutOfMemory → listing_of result self.new.done ≡
            spec.listed (tree_of e, all_waiting self.old.waiting) (trees_of self.old.done) }
        ensures waiting { self.new.waiting ≡ self.old.waiting }
        ensures depth { self.new.depth ≡ self.old.depth }
    {
        match self.waiting.top() {
            None => Ok(self.done.push(e)?),
            Some(_) => Err(ExprFault::Syntax),
        }
    }

    /// One more byte, where it passes no bound.
    fn take(&mut self, mode: Mode, b: u8) -> Result<Mode, ExprFault>
        requires { spec.passed_bound (mode_of mode) self.old.depth b ≡ None }
        ensures { TakesByte result self.old self.new (mode_of mode) b }
    {
        match mode {
            Mode::Operand => self.begin(b),
            Mode::Whole(e) => self.after(e, b),
            Mode::Digit(n) => self.take_digit(n, b),
            Mode::Decimal(n) => self.take_decimal(n, b),
            Mode::Hash => self.take_hash(b),
            Mode::Hexadecimal(n) => self.take_hexadecimal(n, b),
            Mode::Quote => Ok(Mode::Character(b)),
            Mode::Character(c) => self.take_character(c, b),
            Mode::Symbol(text) => self.take_symbol(text, b),
            Mode::Slash(e) => self.take_slash(e, b),
            Mode::Less(e) => self.take_less(e, b),
            Mode::Greater(e) => self.take_greater(e, b),
            Mode::String(_) => self.take_string(b),
            Mode::Closed => self.take_comma(b),
        }
    }

    /// A byte in a decimal constant, or after it.
    fn take_decimal(&mut self, n: u64, b: u8) -> Result<Mode, ExprFault>
        requires { spec.passed_bound (spec.decimal n) self.old.depth b ≡ None }
        ensures { TakesByte result self.old self.new (spec.decimal n) b }
    {
        if is_digit(b) {
            Ok(Mode::Decimal(n * 10 + u64::from(b - b'0')))
        } else {
            self.beyond(Expr::Number(n), b)
        }
    }

    /// The first hexadecimal digit.
    fn take_hash(&mut self, b: u8) -> Result<Mode, ExprFault>
        ensures { TakesByte result self.old self.new spec.hash b }
    {
        if is_hexadecimal(b) {
            Ok(Mode::Hexadecimal(u64::from(digit_value(b))))
        } else {
            Err(ExprFault::Syntax)
        }
    }

    /// A byte in a hexadecimal constant, or after it.
    fn take_hexadecimal(&mut self, n: u64, b: u8) -> Result<Mode, ExprFault>
        requires { spec.passed_bound (spec.hexadecimal n) self.old.depth b ≡ None }
        ensures { TakesByte result self.old self.new (spec.hexadecimal n) b }
    {
        if is_hexadecimal(b) {
            Ok(Mode::Hexadecimal(n * 16 + u64::from(digit_value(b))))
        } else {
            self.beyond(Expr::Number(n), b)
        }
    }

    /// The end of a character constant.
    fn take_character(&mut self, c: u8, b: u8) -> Result<Mode, ExprFault>
        ensures { TakesByte result self.old self.new (spec.character c) b }
    {
        if b == b'\'' {
            self.complete(Expr::Number(u64::from(c)))
        } else {
            Err(ExprFault::Syntax)
        }
    }

    /// A byte in a symbol, or after it.
    fn take_symbol(&mut self, text: Bytes, b: u8) -> Result<Mode, ExprFault>
        ensures { TakesByte result self.old self.new (spec.symbol text) b }
    {
        if is_name_byte(b) {
            self.lengthen(text, b)
        } else {
            self.beyond(Expr::Name(text), b)
        }
    }

    /// The second byte of `<<`.
    fn take_less(&mut self, left: Expr, b: u8) -> Result<Mode, ExprFault>
        ensures { TakesByte result self.old self.new (spec.less (tree_of left)) b }
    {
        if b == b'<' {
            self.wait(Waiting::Strong(BinOp::Left, left))
        } else {
            Err(ExprFault::Syntax)
        }
    }

    /// The second byte of `>>`.
    fn take_greater(&mut self, left: Expr, b: u8) -> Result<Mode, ExprFault>
        ensures { TakesByte result self.old self.new (spec.greater (tree_of left)) b }
    {
        if b == b'>' {
            self.wait(Waiting::Strong(BinOp::Right, left))
        } else {
            Err(ExprFault::Syntax)
        }
    }

    /// The comma after a string.
    fn take_comma(&mut self, b: u8) -> Result<Mode, ExprFault>
        ensures { TakesByte result self.old self.new spec.closed b }
    {
        if b == b',' {
            Ok(Mode::Operand)
        } else {
            Err(ExprFault::Syntax)
        }
    }

    /// A byte after the first digit: one more digit, or the letter of a local label.
    fn take_digit(&mut self, n: u8, b: u8) -> Result<Mode, ExprFault>
        ensures { TakesByte result self.old self.new (spec.digit n) b }
    {
        if is_digit(b) {
            Ok(Mode::Decimal(u64::from(n) * 10 + u64::from(b - b'0')))
        } else if b == b'B' {
            self.complete(Expr::Back(n))
        } else if b == b'F' {
            self.complete(Expr::Ahead(n))
        } else {
            self.beyond(Expr::Number(u64::from(n)), b)
        }
    }

    /// A byte after `/`: one more, or the first of a primary.
    fn take_slash(&mut self, left: Expr, b: u8) -> Result<Mode, ExprFault>
        requires { b ≡ 40 → self.old.depth < 255 }
        ensures { TakesByte result self.old self.new (spec.slash (tree_of left)) b }
    {
        if b == b'/' {
            return self.wait(Waiting::Strong(BinOp::Fraction, left));
        }
        self.wait(Waiting::Strong(BinOp::Div, left))?;
        self.begin(b)
    }

    /// A byte in a string.
    fn take_string(&mut self, b: u8) -> Result<Mode, ExprFault>
        ensures { GoesOn result self.old self.new (spec.in_string b) }
    {
        if b == b'"' {
            return Ok(Mode::Closed);
        }
        self.done.push(Expr::Number(u64::from(b)))?;
        Ok(Mode::String(false))
    }

    /// The bound that a byte would pass.
    fn bound(&self, mode: &Mode, b: u8) -> Option<ExprFault>
        ensures { result ≡ spec.passed_bound (mode_of mode.now) self.now.depth b }
    {
        match mode {
            Mode::Operand | Mode::Slash(_) if b == b'(' && self.depth >= 255 => {
                Some(ExprFault::TooDeep)
            }
            Mode::Decimal(n) if is_digit(b) => too_wide(u128::from(*n) * 10 + u128::from(b - b'0')),
            Mode::Hexadecimal(n) if is_hexadecimal(b) => {
                too_wide(u128::from(*n) * 16 + u128::from(digit_value(b)))
            }
            Mode::String(true) if b == b'"' => Some(ExprFault::EmptyString),
            _ => None,
        }
    }

    /// One more byte.
    pub(crate) fn step(&mut self, mode: Mode, b: u8) -> Result<Mode, ExprFault>
        ensures { GoesOn result self.old self.new (λ k depth done. spec.bounded_step (mode_of mode) k depth done b) }
    {
        match self.bound(&mode, b) {
            Some(fault) => Err(fault),
            None => self.take(mode, b),
        }
    }

    /// The list, at the end of the field.
    pub(crate) fn finish(self, mode: Mode) -> Result<Exprs, ExprFault>
        ensures { ReadsAs result (spec.field_end (mode_of mode) (all_waiting self.waiting) (trees_of self.done)) }
    {
        match mode {
            Mode::Whole(e) => self.end(e),
            Mode::Digit(n) => self.end_primary(Expr::Number(u64::from(n))),
            Mode::Decimal(n) | Mode::Hexadecimal(n) => self.end_primary(Expr::Number(n)),
            Mode::Symbol(text) => self.end_primary(Expr::Name(text)),
            Mode::Closed => Ok(self.done),
            _ => Err(ExprFault::Syntax),
        }
    }

    /// The list, where the field ends with a primary.
    fn end_primary(mut self, primary: Expr) -> Result<Exprs, ExprFault>
        ensures { ReadsAs result (let p = spec.with_strong (all_waiting self.waiting) (tree_of primary) in
            spec.listed (spec.with_weak p.1 p.0) (trees_of self.done)) }
    {
        let product = settle(self.alloc, &mut self.waiting, primary)?;
        self.end(product)
    }

    /// The list, where the field ends with a product.
    fn end(mut self, product: Expr) -> Result<Exprs, ExprFault>
        ensures { ReadsAs result
            (spec.listed (spec.with_weak (all_waiting self.waiting) (tree_of product)) (trees_of self.done)) }
    {
        let e = sum(self.alloc, &mut self.waiting, product)?;
        self.list(e)?;
        Ok(self.done)
    }
}

/// The fault of a constant that is 2^64 or more.
fn too_wide(n: u128) -> Option<ExprFault>
    ensures { result ≡ spec.too_wide n }
{
    if n > 0xffff_ffff_ffff_ffff {
        Some(ExprFault::TooWide)
    } else {
        None
    }
}
