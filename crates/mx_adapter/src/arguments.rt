//! The arguments of a request. A value of another type than the one that is asked for counts as missing.

ghost use Rattle.std.specs.Prelude.{◌≡◌, option_map};
ghost use Rattle.serde_json.specs.View.{view};
ghost use Rattle.mx_adapter.specs.Requests as spec;

use serde_json::Value;

/// The argument of a request at a path, if there is one that is not `null`.
pub fn argument<'a>(message: &'a Value, path: &str) -> Option<&'a Value> {
    let value = message.pointer(path)?;
    if value.is_null() { None } else { Some(value) }
}

/// The text of a member of a value.
pub fn text_in<'a>(value: &'a Value, name: &'static str) -> Option<&'a [u8]> {
    Some(value.get(name)?.as_str()?.as_bytes())
}

/// A text at a path.
pub fn text_at<'a>(message: &'a Value, path: &str) -> Option<&'a [u8]>
    ensures { option_map (λ text. text.now) result ≡ spec.text_in path.now (view message.now) }
{
    Some(message.pointer(path)?.as_str()?.as_bytes())
}

/// A number at a path.
pub fn number_at(message: &Value, path: &str) -> Option<u64>
    ensures { result ≡ spec.number_in path.now (view message.now) }
{
    message.pointer(path)?.as_u64()
}

/// A number at a path, which may be negative; 0 where there is none.
pub fn integer_at(message: &Value, path: &str) -> i64 {
    match message.pointer(path) {
        None => 0,
        Some(value) => value.as_i64().unwrap_or(0),
    }
}

/// Whether a flag at a path is there and true; where there is none, this.
pub fn flag_at(message: &Value, path: &str, missing: bool) -> bool {
    match message.pointer(path) {
        None => missing,
        Some(value) => value.as_bool().unwrap_or(missing),
    }
}

/// The values of a list at a path; none where there is no list.
pub fn list_at<'a>(message: &'a Value, path: &str) -> &'a [Value] {
    match message.pointer(path) {
        None => &[],
        Some(value) => match value.as_array() {
            None => &[],
            Some(values) => values.as_slice(),
        },
    }
}
