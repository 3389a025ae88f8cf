//! The keys that a table may have, and the types of their values.

ghost use Rattle.std.specs.{Prelude.{◌≡◌, ◌↔◌, IsTrue, IsSome, IfSome, All, Any, map, string_bytes}, BTreeMap.{keys}};
ghost use Rattle.toml.specs.{Data.{as_table}, View.{view, table_view}};
ghost use Rattle.configuration.specs.{TomlTables.{tables_at}, Schema.{HasRequiredAndOnlyKnownKeys, HasTypes, Passes, key_rule_of}};

use super::table::{items_at, value_at};
use toml::{Table, Value};

/// The type of a value, as TOML has it.
#[derive(Clone, Copy, Debug, PartialEq, Eq)]
pub enum ValueType {
    /// An integer.
    Integer,
    /// A boolean.
    Boolean,
    /// A string.
    Text,
    /// An array of tables.
    Tables,
}

fn are_tables(items: &[Value]) -> bool
    ensures { IsTrue result ↔ All (λ item. IsSome (as_table (view item))) items.now }
{
    items.iter().all(|item| item.is_table())
}

impl ValueType {
    ghost use Rattle.configuration.specs.Schema.{HasType};

    fn fits(self, value: &Value) -> bool
        ensures { IsTrue result ↔ HasType self (view value.now) }
    {
        match self {
            ValueType::Integer => value.is_integer(),
            ValueType::Boolean => value.is_bool(),
            ValueType::Text => value.is_str(),
            ValueType::Tables => match value.as_array() {
                Some(items) => are_tables(items.as_slice()),
                None => false,
            },
        }
    }
}

/// A key that a table may have.
#[derive(Clone, Copy, Debug)]
pub struct Key {
    /// The key itself.
    pub name: &'static str,
    /// The type of its value.
    pub value_type: ValueType,
    /// Whether the table has to have it.
    pub is_required: bool,
}

impl Key {
    ghost use Rattle.configuration.specs.Schema.{HasItsTypeIfPresent, IsKnown, IsPresentIfRequired};

    fn is_present(&self, table: &Table) -> bool
        ensures { IsTrue result ↔ IsPresentIfRequired (table_view table.now) (key_rule_of self.now) }
    {
        !self.is_required || value_at(table, self.name).is_some()
    }

    fn has_its_type(&self, table: &Table) -> bool
        ensures { IsTrue result ↔ HasItsTypeIfPresent (table_view table.now) (key_rule_of self.now) }
    {
        match value_at(table, self.name) {
            Some(value) => self.value_type.fits(value),
            None => true,
        }
    }

    fn has_name(known: &[Key], name: &str) -> bool
        ensures { IsTrue result ↔ Any (λ key. (key_rule_of key).name ≡ name.now) known.now }
    {
        known.iter().any(|key| key.name == name)
    }

    /// Whether one of the keys has this name.
    fn is_known(known: &[Key], name: &str) -> bool
        ensures { IsTrue result ↔ IsKnown (map key_rule_of known.now) name.now }
    {
        Key::has_name(known, name)
    }

    /// Whether the keys that have to be there are there.
    fn are_present(keys: &[Key], table: &Table) -> bool
        ensures { IsTrue result ↔ All (λ key. IsPresentIfRequired (table_view table.now) (key_rule_of key)) keys.now }
    {
        keys.iter().all(|key| key.is_present(table))
    }

    /// Whether no other keys are there.
    fn know_all(known: &[Key], table: &Table) -> bool
        ensures { IsTrue result
            ↔ All (λ name. IsKnown (map key_rule_of known.now) (string_bytes name)) (keys table.now) }
    {
        table.keys().all(|name| Key::is_known(known, name.as_str()))
    }

    fn have_their_types(keys: &[Key], table: &Table) -> bool
        ensures { IsTrue result ↔ All (λ key. HasItsTypeIfPresent (table_view table.now) (key_rule_of key)) keys.now }
    {
        keys.iter().all(|key| key.has_its_type(table))
    }

    /// Whether a table has the keys that it has to have, and none that isn't listed.
    pub fn are_keys_of(keys: &[Key], table: &Table) -> bool
        ensures { IsTrue result ↔ HasRequiredAndOnlyKnownKeys (map key_rule_of keys.now) (table_view table.now) }
    {
        Key::are_present(keys, table) && Key::know_all(keys, table)
    }

    /// Whether the value of each key is of the key's type.
    pub fn have_types_in(keys: &[Key], table: &Table) -> bool
        ensures { IsTrue result ↔ HasTypes (map key_rule_of keys.now) (table_view table.now) }
    {
        Key::have_their_types(keys, table)
    }
}

/// What of the keys of a table is checked.
#[derive(Clone, Copy, Debug, PartialEq, Eq)]
pub enum KeyCheck {
    /// That it has the keys that it has to have, and none that isn't listed.
    Names,
    /// That the value of each key is of the key's type.
    Types,
}

impl KeyCheck {
    /// Whether a table passes it.
    pub fn passes(self, keys: &[Key], table: &Table) -> bool
        ensures { IsTrue result ↔ Passes self (map key_rule_of keys.now) (table_view table.now) }
    {
        match self {
            KeyCheck::Names => Key::are_keys_of(keys, table),
            KeyCheck::Types => Key::have_types_in(keys, table),
        }
    }

    /// Whether a value passes it, if it is a table.
    fn item_passes(self, keys: &[Key], item: &Value) -> bool
        ensures { IsTrue result ↔ IfSome (as_table (view item.now)) (Passes self (map key_rule_of keys.now)) }
    {
        match item.as_table() {
            Some(table) => self.passes(keys, table),
            None => true,
        }
    }

    fn items_pass(self, keys: &[Key], items: &[Value]) -> bool
        ensures { IsTrue result
            ↔ All (λ item. IfSome (as_table (view item)) (Passes self (map key_rule_of keys.now))) items.now }
    {
        items.iter().all(|item| self.item_passes(keys, item))
    }

    /// Whether each table in the array at a key passes it.
    pub fn tables_pass(self, keys: &[Key], table: &Table, name: &str) -> bool
        ensures { IsTrue result
            ↔ All (Passes self (map key_rule_of keys.now)) (tables_at name.now (table_view table.now)) }
    {
        self.items_pass(keys, items_at(table, name))
    }
}
