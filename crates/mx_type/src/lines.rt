//! The lines of items.

ghost use Rattle.std.specs.Prelude.{◌≡◌, ◌++◌, OnOk, codes};
ghost use Rattle.mx_text.specs.Numbers.{hex_text};
ghost use Rattle.mx_type.specs.Lambda as lambdas;
ghost use Rattle.mx_type.specs.Lines as lines;
ghost use Rattle.mx_type.specs.Texts as spec;

use crate::fields::{add_bytes, add_counted, add_octas, add_placed, add_tetra, add_tetras};
use mx_mmo::Item;
use mx_text::{add_decimal, add_instruction, octa_hex, tetra_hex};
use mx_word::{Bytes, NoMemory};

/// The address of the tetra that holds an address.
fn tetra_address(a: u64) -> u64
    ensures { result ≡ lines.tetra_address a }
{
    4 * (a / 4)
}

/// Lambda after an item, where it was an address before it.
pub(crate) fn lambda_after(lambda: u64, item: &Item) -> u64
    ensures { result ≡ lambdas.lambda_after lambda item.now }
{
    match item {
        Item::Load(_) => tetra_address(lambda).wrapping_add(4),
        Item::Loc(a) => *a,
        Item::Skip(n) => lambda.wrapping_add(u64::from(*n)),
        _ => lambda,
    }
}

/// Adds the line of an item where lambda is an address, and nothing for `stab`.
pub(crate) fn add_item(text: &mut Bytes, lambda: u64, item: &Item) -> Result<(), NoMemory>
    ensures { OnOk result (text.new ≡ text.old ++ spec.item_text lambda item.now) }
{
    match item {
        Item::Load(word) => add_load(text, tetra_address(lambda), *word),
        Item::Loc(a) => add_placed(text, b"loc ", *a),
        Item::Skip(n) => add_counted(text, b"skip ", *n),
        Item::FixOcta(a) => add_placed(text, b"fixo ", *a),
        Item::FixNear(n) => add_counted(text, b"fixr ", *n),
        Item::FixFar { bits, word } => add_far(text, *bits, *word),
        Item::File { number, name } => add_file(text, *number, name),
        Item::Line(n) => add_counted(text, b"line ", *n),
        Item::Spec(n) => add_counted(text, b"spec ", *n),
        Item::Pre(words) => add_pre(text, words.as_slice()),
        Item::Post { g, values } => add_post(text, *g, values.as_slice()),
        Item::Stab => Ok(()),
    }
}

/// An address and the tetra that it has, each with a blank after it.
fn tetra_at(address: u64, word: u32) -> [u8; 27]
    ensures { result ≡ hex_text address ++ lines.next_tetra word ++ codes " " }
{
    let [mark, a, b, c, d, e, f, g, h, i, j, k, l, m, n, o, p] = octa_hex(address);
    let [q, r, s, t, u, v, w, x] = tetra_hex(word);
    [
        mark, a, b, c, d, e, f, g, h, i, j, k, l, m, n, o, p, b' ', q, r, s, t, u, v, w, x, b' ',
    ]
}

/// Adds the line of a tetra at its address.
fn add_load(text: &mut Bytes, a: u64, word: u32) -> Result<(), NoMemory>
    ensures { OnOk result (text.new ≡ text.old ++ lines.ended (spec.tetra_text a word)) }
{
    text.extend(&tetra_at(a, word))?;
    add_instruction(text, word, a)?;
    text.push(b'\n')
}

/// Adds the line of a far fix.
fn add_far(text: &mut Bytes, bits: u8, word: u32) -> Result<(), NoMemory>
    ensures { OnOk result (text.new ≡ text.old ++ spec.item_text 0 (Item.FixFar bits word)) }
{
    text.extend(b"fixrx ")?;
    add_decimal(text, u64::from(bits))?;
    add_tetra(text, word)?;
    text.push(b'\n')
}

/// Adds the line of a file with its name, where it has one.
fn add_file(text: &mut Bytes, number: u8, name: &Option<Bytes>) -> Result<(), NoMemory>
    ensures { OnOk result (text.new ≡ text.old ++ spec.item_text 0 (Item.File number name.now)) }
{
    text.extend(b"file ")?;
    add_decimal(text, u64::from(number))?;
    add_name(text, name)?;
    text.push(b'\n')
}

/// Adds the name of a file after a blank, where there is one.
fn add_name(text: &mut Bytes, name: &Option<Bytes>) -> Result<(), NoMemory>
    ensures { OnOk result (text.new ≡ text.old ++ spec.name_text name.now) }
{
    let Some(name) = name else {
        return Ok(());
    };
    text.push(b' ')?;
    add_bytes(text, name.as_slice())
}

/// Adds the line of `pre`.
fn add_pre(text: &mut Bytes, words: &[u32]) -> Result<(), NoMemory>
    ensures { OnOk result (text.new ≡ text.old ++ spec.item_text 0 (Item.Pre words.now)) }
{
    text.extend(b"pre")?;
    add_tetras(text, words)?;
    text.push(b'\n')
}

/// Adds the line of `post`.
fn add_post(text: &mut Bytes, g: u8, values: &[u64]) -> Result<(), NoMemory>
    ensures { OnOk result (text.new ≡ text.old ++ spec.item_text 0 (Item.Post g values.now)) }
{
    text.extend(b"post ")?;
    add_decimal(text, u64::from(g))?;
    add_octas(text, values)?;
    text.push(b'\n')
}
