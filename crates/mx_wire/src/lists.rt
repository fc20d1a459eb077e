//! Lists of values.

ghost use Rattle.std.specs.Prelude.{◌≡◌, ◌++◌, OnOk};
ghost use Rattle.mx_json.specs.Json.{array, further};

use mx_word::{Bytes, NoMemory, Sequence};

/// The texts of values.
pub type Values = Sequence<Bytes>;

/// Adds further values by their texts.
fn add_more(text: &mut Bytes, values: &[Bytes]) -> Result<(), NoMemory>
    ensures { OnOk result (text.new ≡ text.old ++ further (λ value. value) values.now) }
{
    for value in values {
        text.extend(b",")?;
        text.extend(value.as_slice())?;
    }
    Ok(())
}

/// Adds the list of values by their texts.
pub fn add_array(text: &mut Bytes, values: &[Bytes]) -> Result<(), NoMemory>
    ensures { OnOk result (text.new ≡ text.old ++ array (λ value. value) values.now) }
{
    match values {
        [] => text.extend(b"[]"),
        [value, more @ ..] => {
            text.extend(b"[")?;
            text.extend(value.as_slice())?;
            add_more(text, more)?;
            text.extend(b"]")
        }
    }
}
