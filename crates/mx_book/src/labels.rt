//! The symbols that are labels.

ghost use Rattle.std.specs.Prelude.{◌≡◌, ◌++◌, IfOk, OnOk};
ghost use Rattle.std.specs.List.{flat_map};
ghost use Rattle.mx_slips.specs.Cases.{ends_with};
ghost use Rattle.mx_book.specs.Labels as spec;

use mx_object::{Label, Labels, ListedTetra};
use mx_slips::{SourceLine, Statement, Token};
use mx_word::{Bytes, NoMemory, Sequence, Symbol, Value};
use std::alloc::Global;

/// A list of names.
type Names = Sequence<Bytes>;

/// The first address of the data segment.
const DATA_SEGMENT: u64 = 1 << 61;

/// Whether operands begin with the place where the line is.
fn starts_with_place(tokens: &[Token]) -> bool
    ensures { result ≡ spec.begin_with_place tokens.now }
{
    match tokens {
        [] => false,
        [first, ..] => first.text.as_slice() == b"@".as_slice(),
    }
}

/// Whether a statement gives its label a value that is no place.
fn is_constant(statement: &Statement) -> bool
    ensures { result ≡ spec.is_constant statement.now }
{
    statement.op.text.as_slice() == b"IS".as_slice()
        && !starts_with_place(statement.tokens.as_slice())
}

/// Adds a name after a colon.
fn add_name(alloc: Global, names: &mut Names, label: &[u8]) -> Result<(), NoMemory>
    ensures { OnOk result (names.new ≡ names.old ++ spec.full_name label.now) }
{
    let mut name = Bytes::copy(alloc, b":")?;
    name.extend(label)?;
    names.push(name)
}

/// Adds the name of a constant that a statement defines, if it defines one.
fn add_constant(alloc: Global, names: &mut Names, statement: &Statement) -> Result<(), NoMemory>
    ensures { OnOk result (names.new ≡ names.old ++ spec.constant_of statement.now) }
{
    if !is_constant(statement) {
        return Ok(());
    }
    match &statement.label {
        None => Ok(()),
        Some(label) => add_name(alloc, names, label.text.as_slice()),
    }
}

/// Adds the names of the constants that statements define.
fn add_constants(alloc: Global, names: &mut Names, statements: &[Statement]) -> Result<(), NoMemory>
    ensures { OnOk result (names.new ≡ names.old ++ flat_map spec.constant_of statements.now) }
{
    for statement in statements {
        add_constant(alloc, names, statement)?;
    }
    Ok(())
}

/// The names of the constants that the lines of a source define.
pub(crate) fn constants_in(alloc: Global, lines: &[SourceLine]) -> Result<Names, NoMemory>
    ensures { IfOk result (λ names. names ≡ spec.constants_in lines.now) }
{
    let mut names = Names::new(alloc);
    for line in lines {
        add_constants(alloc, &mut names, line.statements.as_slice())?;
    }
    Ok(names)
}

/// The end of a text, this many bytes or all.
fn end_of(text: &[u8], count: usize) -> &[u8]
    ensures { result.now ≡ spec.end_of text.now count }
{
    text.split_at(text.len().saturating_sub(count)).1
}

/// Whether a complete name ends with another name.
fn is_end(name: &[u8], end: &[u8]) -> bool
    ensures { result ≡ ends_with name.now end.now }
{
    end_of(name, end.len()) == end
}

/// Whether a complete name is that of a constant.
fn is_among(constants: &[Bytes], name: &[u8]) -> bool
    ensures { result ≡ spec.is_among constants.now name.now }
{
    constants.iter().any(|end| is_end(name, end.as_slice()))
}

/// Adds a label.
fn add_label(alloc: Global, labels: &mut Labels, name: &[u8], address: u64) -> Result<(), NoMemory>
    ensures { OnOk result (labels.new ≡ labels.old ++ spec.label_at name.now address) }
{
    let name = Bytes::copy(alloc, name)?;
    labels.push(Label { name, address })
}

/// Adds the label that a symbol of a source is, unless it is a register or a constant.
fn add_unless_constant(
    alloc: Global,
    labels: &mut Labels,
    constants: &[Bytes],
    symbol: &Symbol,
) -> Result<(), NoMemory>
    ensures { OnOk result (labels.new ≡ labels.old ++ spec.label_unless constants.now symbol.now) }
{
    let Value::Pure(address) = symbol.value else {
        return Ok(());
    };
    if is_among(constants, symbol.name.as_slice()) {
        return Ok(());
    }
    add_label(alloc, labels, symbol.name.as_slice(), address)
}

/// The labels of a source: its symbols but for registers and constants.
pub(crate) fn source_labels(
    alloc: Global,
    constants: &[Bytes],
    symbols: &[Symbol],
) -> Result<Labels, NoMemory>
    ensures { IfOk result (λ labels. labels ≡ flat_map (spec.label_unless constants.now) symbols.now) }
{
    let mut labels = Labels::new(alloc);
    for symbol in symbols {
        add_unless_constant(alloc, &mut labels, constants, symbol)?;
    }
    Ok(labels)
}

/// Adds labels like these.
fn add_labels(alloc: Global, labels: &mut Labels, others: &[Label]) -> Result<(), NoMemory>
    ensures { OnOk result (labels.new ≡ labels.old ++ others.now) }
{
    for label in others {
        add_label(alloc, labels, label.name.as_slice(), label.address)?;
    }
    Ok(())
}

/// Adds the labels of a tetra before the data segment.
fn add_tetra(alloc: Global, labels: &mut Labels, tetra: &ListedTetra) -> Result<(), NoMemory>
    ensures { OnOk result (labels.new ≡ labels.old ++ spec.near_labels tetra.now) }
{
    if DATA_SEGMENT <= tetra.address {
        return Ok(());
    }
    add_labels(alloc, labels, tetra.labels.as_slice())
}

/// Adds the label that a symbol of an object is, if its value is in the data segment or after it.
fn add_far(alloc: Global, labels: &mut Labels, symbol: &Symbol) -> Result<(), NoMemory>
    ensures { OnOk result (labels.new ≡ labels.old ++ spec.far_label symbol.now) }
{
    let Value::Pure(address) = symbol.value else {
        return Ok(());
    };
    if address < DATA_SEGMENT {
        return Ok(());
    }
    add_label(alloc, labels, symbol.name.as_slice(), address)
}

/// The labels of the tetras before the data segment.
fn near_labels(alloc: Global, tetras: &[ListedTetra]) -> Result<Labels, NoMemory>
    ensures { IfOk result (λ labels. labels ≡ flat_map spec.near_labels tetras.now) }
{
    let mut labels = Labels::new(alloc);
    for tetra in tetras {
        add_tetra(alloc, &mut labels, tetra)?;
    }
    Ok(labels)
}

/// Adds the symbols whose values are in the data segment or after it.
fn add_far_labels(alloc: Global, labels: &mut Labels, symbols: &[Symbol]) -> Result<(), NoMemory>
    ensures { OnOk result (labels.new ≡ labels.old ++ flat_map spec.far_label symbols.now) }
{
    for symbol in symbols {
        add_far(alloc, labels, symbol)?;
    }
    Ok(())
}

/// The labels of an object: those of the tetras that it loads before the data segment, and all symbols whose values are in
/// that segment or after it.
pub(crate) fn object_labels(
    alloc: Global,
    tetras: &[ListedTetra],
    symbols: &[Symbol],
) -> Result<Labels, NoMemory>
    ensures { IfOk result (λ labels. labels ≡ spec.object_labels tetras.now symbols.now) }
{
    let mut labels = near_labels(alloc, tetras)?;
    add_far_labels(alloc, &mut labels, symbols)?;
    Ok(labels)
}
