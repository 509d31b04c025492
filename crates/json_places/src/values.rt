//! What a value is, in words.

use serde_json::Value;
use std::alloc::{AllocError, Global};
use std::fmt::Write;

/// How many characters of a text are shown.
const SHOWN: usize = 40;

/// Appends what a value is.
pub fn put_value(alloc: Global, text: &mut String, value: &Value) -> Result<(), AllocError> {
    match value {
        Value::Array(_) => text.push_str("an array"),
        Value::Object(_) => text.push_str("an object"),
        Value::String(shown) => put_text(text, shown.as_str()),
        Value::Null => text.push_str("null"),
        Value::Bool(true) => text.push_str("true"),
        Value::Bool(false) => text.push_str("false"),
        Value::Number(_) => {
            let shown = value.to_string(alloc)?;
            text.push_str(shown.as_str())
        }
    }
}

/// Appends what stands there, and the line's end.
pub fn put_standing(alloc: Global, text: &mut String, value: &Value) -> Result<(), AllocError> {
    text.push_str("here stands ")?;
    put_value(alloc, text, value)?;
    text.push_str("\n")
}

/// Appends a text in its quotes; where it is empty or long, its front and how long it is.
pub fn put_text(text: &mut String, shown: &str) -> Result<(), AllocError> {
    text.push_str("the text \"")?;
    for character in shown.chars().take(SHOWN) {
        write!(text, "{}", character.escape_debug())?;
    }
    let units = shown.encode_utf16().count();
    if units == 0 || units > SHOWN {
        let dots = if units == 0 { "" } else { ".." };
        return write!(text, "{dots}\", {units} units");
    }
    text.push_str("\"")
}
