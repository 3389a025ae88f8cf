//! Reading a configuration from its text.

ghost use Rattle.std.specs.Prelude.{◌≡◌, ◌↔◌, IsTrue, IfOk, IfErr, All, codes};
ghost use Rattle.toml.specs.{Errors.{IsBlank}, View.{table_view}};
ghost use Rattle.configuration.specs.{TomlTables.{tables_at}, Schema.{AllPass, HasValidKeys, HasAllTypes, Passes, document_keys, port_keys, client_keys, grant_keys}};

use super::read::ReadFault;
use super::schema::{Key, KeyCheck, ValueType};
use super::{Config, ConfigFault, FaultKind};
use std::alloc::Global;
use toml::Table;

const DOCUMENT_KEYS: [Key; 9] = [
    Key {
        name: "frames",
        value_type: ValueType::Integer,
        is_required: true,
    },
    Key {
        name: "slots",
        value_type: ValueType::Integer,
        is_required: true,
    },
    Key {
        name: "ncq",
        value_type: ValueType::Boolean,
        is_required: true,
    },
    Key {
        name: "depth",
        value_type: ValueType::Integer,
        is_required: true,
    },
    Key {
        name: "trim",
        value_type: ValueType::Text,
        is_required: true,
    },
    Key {
        name: "cache",
        value_type: ValueType::Boolean,
        is_required: false,
    },
    Key {
        name: "port",
        value_type: ValueType::Tables,
        is_required: false,
    },
    Key {
        name: "client",
        value_type: ValueType::Tables,
        is_required: false,
    },
    Key {
        name: "grant",
        value_type: ValueType::Tables,
        is_required: false,
    },
];

const PORT_KEYS: [Key; 2] = [
    Key {
        name: "number",
        value_type: ValueType::Integer,
        is_required: true,
    },
    Key {
        name: "serial",
        value_type: ValueType::Text,
        is_required: false,
    },
];

const CLIENT_KEYS: [Key; 3] = [
    Key {
        name: "id",
        value_type: ValueType::Integer,
        is_required: true,
    },
    Key {
        name: "first_frame",
        value_type: ValueType::Integer,
        is_required: true,
    },
    Key {
        name: "frames",
        value_type: ValueType::Integer,
        is_required: true,
    },
];

const GRANT_KEYS: [Key; 6] = [
    Key {
        name: "client",
        value_type: ValueType::Integer,
        is_required: true,
    },
    Key {
        name: "number",
        value_type: ValueType::Integer,
        is_required: true,
    },
    Key {
        name: "port",
        value_type: ValueType::Integer,
        is_required: true,
    },
    Key {
        name: "first",
        value_type: ValueType::Integer,
        is_required: true,
    },
    Key {
        name: "count",
        value_type: ValueType::Integer,
        is_required: true,
    },
    Key {
        name: "rights",
        value_type: ValueType::Text,
        is_required: true,
    },
];

fn document_passes(check: KeyCheck, table: &Table) -> bool
    ensures { IsTrue result ↔ Passes check document_keys (table_view table.now) }
{
    check.passes(&DOCUMENT_KEYS, table)
}

fn ports_pass(check: KeyCheck, table: &Table) -> bool
    ensures { IsTrue result ↔ All (Passes check port_keys) (tables_at (codes "port") (table_view table.now)) }
{
    check.tables_pass(&PORT_KEYS, table, "port")
}

fn clients_pass(check: KeyCheck, table: &Table) -> bool
    ensures { IsTrue result ↔ All (Passes check client_keys) (tables_at (codes "client") (table_view table.now)) }
{
    check.tables_pass(&CLIENT_KEYS, table, "client")
}

fn grants_pass(check: KeyCheck, table: &Table) -> bool
    ensures { IsTrue result ↔ All (Passes check grant_keys) (tables_at (codes "grant") (table_view table.now)) }
{
    check.tables_pass(&GRANT_KEYS, table, "grant")
}

/// Whether the document and each table in it pass a check.
fn all_pass(check: KeyCheck, table: &Table) -> bool
    ensures { IsTrue result ↔ AllPass check (table_view table.now) }
{
    document_passes(check, table)
        && ports_pass(check, table)
        && clients_pass(check, table)
        && grants_pass(check, table)
}

impl Config {
    ghost use Rattle.configuration.specs.Document.{IsNoMemoryOr, IsLeastDocumentFault, DocumentReadsAsValidConfig, TextReadsAsValidConfig, IsLeastTextFault};

    /// Returns the values of a document, or the least kind of fault that it has.
    fn from_document(alloc: Global, table: &Table) -> Result<Config, ConfigFault>
        ensures ok { IfOk result (DocumentReadsAsValidConfig (table_view table.now)) }
        ensures refused { IfErr result (IsNoMemoryOr (IsLeastDocumentFault (table_view table.now))) }
        ensures memory { result ≡ Err ConfigFault.NoMemory
            → HasValidKeys (table_view table.now) × HasAllTypes (table_view table.now) }
    {
        if !all_pass(KeyCheck::Names, table) {
            return Err(ConfigFault::Refused(FaultKind::WrongKeys));
        }
        if !all_pass(KeyCheck::Types, table) {
            return Err(ConfigFault::Refused(FaultKind::WrongTypes));
        }
        let config = match Config::from_table(alloc, table) {
            Ok(config) => config,
            Err(ReadFault::NoValue) => return Err(ConfigFault::Refused(FaultKind::OutOfRange)),
            Err(ReadFault::NoMemory) => return Err(ConfigFault::NoMemory),
        };
        match config.check() {
            Ok(()) => Ok(config),
            Err(kind) => Err(ConfigFault::Refused(kind)),
        }
    }

    /// Reads a configuration from the bytes of a TOML document.
    ///
    /// # Errors
    ///
    /// - `Refused`: the document has faults. The least kind that applies is returned. A number that doesn't fit into 64
    ///   bits with a sign is a fault of the kind `NotToml`, and a negative one is out of range (this project's own).
    /// - `NoMemory`: memory was refused.
    pub fn parse(alloc: Global, text: &[u8]) -> Result<Config, ConfigFault>
        ensures ok { IfOk result (TextReadsAsValidConfig text.now) }
        ensures refused { IfErr result (IsNoMemoryOr (IsLeastTextFault text.now)) }

        // When memory runs out is no matter of the text; but a text with white space and comments alone takes none.
        ensures blank_wants_no_memory { result ≡ Err ConfigFault.NoMemory → IsBlank text.now → ⊥ }
    {
        match toml::table_from_slice(alloc, text) {
            Ok(table) => Config::from_document(alloc, &table),
            Err(error) if error.is_memory() => Err(ConfigFault::NoMemory),
            Err(_) => Err(ConfigFault::Refused(FaultKind::NotToml)),
        }
    }
}
