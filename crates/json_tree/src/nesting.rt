//! How deep a value of the reader nests.

ghost use Rattle.std.specs.Prelude.{◌≡◌, nat_le};
ghost use Rattle.serde_json.specs.Data.{depth, items_depth, members_depth};
ghost use Rattle.serde_json.specs.View.{view, items_view, members_view};

use serde_json::{Map, Value};

/// Whether at most `limit` lists and objects are inside one another. The recursion goes no deeper.
#[cycle(within)]
pub fn is_within(value: &Value, limit: u64) -> bool
    ensures { result ≡ nat_le (depth (view value.now)) limit }
{
    match value {
        Value::Null | Value::Bool(_) | Value::Number(_) | Value::String(_) => true,
        Value::Array(items) => limit > 0 && items_are_within(items.as_slice(), limit - 1),
        Value::Object(members) => limit > 0 && members_are_within(members, limit - 1),
    }
}

#[cycle(within)]
fn items_are_within(items: &[Value], limit: u64) -> bool
    ensures { result ≡ nat_le (items_depth (items_view items.now)) limit }
{
    for item in items {
        if !is_within(item, limit) {
            return false;
        }
    }
    true
}

#[cycle(within)]
fn members_are_within(members: &Map<String, Value>, limit: u64) -> bool
    ensures { result ≡ nat_le (members_depth (members_view members.now.entries)) limit }
{
    for (_, value) in members.iter() {
        if !is_within(value, limit) {
            return false;
        }
    }
    true
}
