//! What differs between what is wanted and what came, in lines.
use crate::page::Page;
use std::alloc::Global;
use toml::Value;

/// Adds the lines of a value, each behind a mark. A text stands as it is, without quotes.
fn put_value(alloc: Global, told: &mut Page, mark: &str, value: &Value) {
    match value {
        Value::String(text) => told.put_lines(mark, text.as_str()),
        _ => {
            let mut shown = Page::new(alloc);
            shown.put_shown(value);
            match shown.text() {
                Some(text) => told.put_lines(mark, text),
                None => told.cut(),
            }
        }
    }
}

/// Tells that nothing came for a member.
pub fn put_missed(alloc: Global, told: &mut Page, member: &str, wanted: &Value) {
    told.put_all(&["  ", member, ": nothing came\n"]);
    put_value(alloc, told, "wanted", wanted);
}

/// Tells that what came for a member isn't what is wanted.
pub fn put_difference(
    alloc: Global,
    told: &mut Page,
    member: &str,
    wanted: Option<&Value>,
    came: &Value,
) {
    match wanted {
        Some(wanted) => {
            told.put_all(&["  ", member, ": another one came\n"]);
            put_value(alloc, told, "wanted", wanted);
        }
        None => told.put_all(&["  ", member, ": the row doesn't say it\n"]),
    }
    put_value(alloc, told, "came", came);
}
