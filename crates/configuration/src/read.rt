//! The values of a configuration, read from the tables of a document.

ghost use Rattle.std.specs.{Prelude.{◌≡◌, ℕ, Bool, List, Option, Some, None, IfErr, IfOk, option_map, string_bytes}, List.{AllZip}};
ghost use Rattle.toml.specs.{Data.{Members}, View.{table_view, items_view}};
ghost use Rattle.configuration.specs.TomlTables.{HasNumber, HasText, IsSetOrAbsent, HasTextOrIsAbsent, tables_of};

use super::table::{items_at, value_at};
use super::{ClientConfig, Config, GrantConfig, PortConfig};
use std::alloc::{AllocError, AllocFailed, Global};
use toml::{Table, Value};

/// Why no value was read.
#[derive(Clone, Copy, Debug, PartialEq, Eq)]
pub enum ReadFault {
    /// There is no such value: of a key that is there and has its type, since a number is negative.
    NoValue,
    /// Memory ran out.
    NoMemory,
}

impl From<AllocError> for ReadFault {
    ghost use Rattle.configuration.specs.declared.read.ReadFault.TheVariants.{NoMemory};

    ghost from_gives = { λ _ e. e ≡ NoMemory };

    fn from(_error: AllocError) -> ReadFault {
        ReadFault::NoMemory
    }
}

impl<T: Drop> From<AllocFailed<T>> for ReadFault {
    ghost use Rattle.configuration.specs.declared.read.ReadFault.TheVariants.{NoMemory};

    ghost from_gives = { λ _ e. e ≡ NoMemory };

    fn from(_error: AllocFailed<T>) -> ReadFault {
        ReadFault::NoMemory
    }
}

/// The number that a key has. No memory is taken.
fn number(table: &Table, name: &str) -> Result<u64, ReadFault>
    ensures ok { IfOk result (HasNumber (table_view table.now) name.now) }
    ensures none { result ≡ Err ReadFault.NoValue → (n : ℕ) → HasNumber (table_view table.now) name.now n → ⊥ }
    ensures wants_no_memory { IfErr result (λ fault. fault ≡ ReadFault.NoValue) }
{
    match value_at(table, name).and_then(Value::as_integer) {
        Some(number) if number >= 0 => Ok(number as u64),
        _ => Err(ReadFault::NoValue),
    }
}

fn text(alloc: Global, table: &Table, name: &str) -> Result<String, ReadFault>
    ensures ok { IfOk result (λ t. HasText (table_view table.now) name.now (string_bytes t)) }
    ensures none { result ≡ Err ReadFault.NoValue → (t : List ℕ) → HasText (table_view table.now) name.now t → ⊥ }
{
    match value_at(table, name).and_then(Value::as_str) {
        Some(text) => Ok(String::from_str(alloc, text)?),
        None => Err(ReadFault::NoValue),
    }
}

fn optional_text(alloc: Global, table: &Table, name: &str) -> Result<Option<String>, ReadFault>
    ensures ok { IfOk result (λ t. HasTextOrIsAbsent (table_view table.now) name.now (option_map string_bytes t)) }
    ensures none { result ≡ Err ReadFault.NoValue
        → (t : Option (List ℕ)) → HasTextOrIsAbsent (table_view table.now) name.now t → ⊥ }
{
    match value_at(table, name) {
        Some(_) => Ok(Some(text(alloc, table, name)?)),
        None => Ok(None),
    }
}

/// Whether a key is set; it isn't if it isn't there. No memory is taken.
fn is_set(table: &Table, name: &str) -> Result<bool, ReadFault>
    ensures ok { IfOk result (IsSetOrAbsent (table_view table.now) name.now) }
    ensures none { result ≡ Err ReadFault.NoValue
        → (is_set : Bool) → IsSetOrAbsent (table_view table.now) name.now is_set → ⊥ }
    ensures wants_no_memory { IfErr result (λ fault. fault ≡ ReadFault.NoValue) }
{
    match value_at(table, name) {
        Some(value) => value.as_bool().ok_or(ReadFault::NoValue),
        None => Ok(false),
    }
}

/// What is read from a table.
trait FromTable: Sized + Drop {
    ghost spells: { Members → Self → Type 0 };

    fn from_table(alloc: Global, table: &Table) -> Result<Self, ReadFault>
        ensures ok { IfOk result (spells (table_view table.now)) }
        ensures none { result ≡ Err ReadFault.NoValue → (x : Self) → spells (table_view table.now) x → ⊥ };
}

impl FromTable for PortConfig {
    ghost use Rattle.configuration.specs.TomlTables.{SpellsPort};

    ghost spells = { SpellsPort };

    fn from_table(alloc: Global, table: &Table) -> Result<PortConfig, ReadFault> {
        Ok(PortConfig {
            number: number(table, "number")?,
            serial: optional_text(alloc, table, "serial")?,
        })
    }
}

impl FromTable for ClientConfig {
    ghost use Rattle.configuration.specs.TomlTables.{SpellsClient};

    ghost spells = { SpellsClient };

    fn from_table(_alloc: Global, table: &Table) -> Result<ClientConfig, ReadFault> {
        Ok(ClientConfig {
            id: number(table, "id")?,
            first_frame: number(table, "first_frame")?,
            frames: number(table, "frames")?,
        })
    }
}

impl FromTable for GrantConfig {
    ghost use Rattle.configuration.specs.TomlTables.{SpellsGrant};

    ghost spells = { SpellsGrant };

    fn from_table(alloc: Global, table: &Table) -> Result<GrantConfig, ReadFault> {
        Ok(GrantConfig {
            client: number(table, "client")?,
            number: number(table, "number")?,
            port: number(table, "port")?,
            first: number(table, "first")?,
            count: number(table, "count")?,
            rights: text(alloc, table, "rights")?,
        })
    }
}

/// What is read from each of the tables. That no other items are among these was seen before.
fn each_from_table<T: FromTable>(alloc: Global, items: &[Value]) -> Result<Vec<T>, ReadFault>
    ensures ok { IfOk result (λ v. AllZip T.spells (tables_of (items_view items.now)) v.items) }
    ensures none { result ≡ Err ReadFault.NoValue
        → (xs : List T) → AllZip T.spells (tables_of (items_view items.now)) xs → ⊥ }
{
    let mut values = Vec::new(alloc);
    for item in items {
        if let Some(table) = item.as_table() {
            match T::from_table(alloc, table) {
                Ok(value) => values.push(value)?,
                Err(fault) => return Err(fault),
            }
        }
    }
    Ok(values)
}

impl Config {
    ghost use Rattle.configuration.specs.TomlTables.{Spells};

    /// The values of a document whose keys and types are right.
    pub(super) fn from_table(alloc: Global, table: &Table) -> Result<Config, ReadFault>
        ensures ok { IfOk result (Spells (table_view table.now)) }
        ensures none { result ≡ Err ReadFault.NoValue → (c : Config) → Spells (table_view table.now) c → ⊥ }
    {
        let Some(ncq) = value_at(table, "ncq").and_then(Value::as_bool) else {
            return Err(ReadFault::NoValue);
        };
        Ok(Config {
            frames: number(table, "frames")?,
            slots: number(table, "slots")?,
            ncq,
            depth: number(table, "depth")?,
            trim: text(alloc, table, "trim")?,
            cache: is_set(table, "cache")?,
            port: each_from_table(alloc, items_at(table, "port"))?,
            client: each_from_table(alloc, items_at(table, "client"))?,
            grant: each_from_table(alloc, items_at(table, "grant"))?,
        })
    }
}
