//! What stands in a table.
ghost use Rattle.std.specs.Prelude.{◌≡◌, option_map};
ghost use Rattle.toml.specs.View.{view, table_view, items_view};
ghost use Rattle.toml.specs.Data.{get_member};
ghost use Rattle.board_tables.specs.Fields as spec;

use toml::{Table, Value};

/// The value at a key.
fn value_at<'t>(table: &'t Table, key: &str) -> Option<&'t Value>
    ensures { option_map (λ v. view v.now) result ≡ get_member key.now (table_view table.now) }
{
    table.get(key)
}

/// The text at a key, if there is one.
pub fn text_at<'t>(table: &'t Table, key: &str) -> Option<&'t str>
    ensures { option_map (λ s. s.now) result ≡ spec.text_at key.now (table_view table.now) }
{
    match value_at(table, key) {
        Some(value) => value.as_str(),
        None => None,
    }
}

/// The items of the array at a key, none where there is no array.
pub fn items_at<'t>(table: &'t Table, key: &str) -> &'t [Value]
    ensures { items_view result.now ≡ spec.items_at key.now (table_view table.now) }
{
    match value_at(table, key) {
        Some(value) => match value.as_array() {
            Some(items) => items,
            None => &[],
        },
        None => &[],
    }
}

/// The name that a device or a net gives itself.
pub fn name_at(table: &Table) -> &str
    ensures { result.now ≡ spec.name_at (table_view table.now) }
{
    text_at(table, "name").unwrap_or("")
}
