//! What stands in the tables of a document.

ghost use Rattle.std.specs.Prelude.{◌≡◌, option_map};
ghost use Rattle.toml.specs.{Data.{get_member}, View.{view, table_view, items_view}};
ghost use Rattle.configuration.specs.TomlTables.{array_items};

use toml::{Table, Value};

/// The value at a key.
pub fn value_at<'a>(table: &'a Table, name: &str) -> Option<&'a Value>
    ensures { option_map (λ v. view v.now) result ≡ get_member name.now (table_view table.now) }
{
    table.get(name)
}

/// The items of the array at a key, or none.
pub fn items_at<'a>(table: &'a Table, name: &str) -> &'a [Value]
    ensures { items_view result.now ≡ array_items (get_member name.now (table_view table.now)) }
{
    match value_at(table, name).and_then(Value::as_array) {
        Some(items) => items.as_slice(),
        None => &[],
    }
}
