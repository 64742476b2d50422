//! The numbers of a document.
ghost use Rattle.std.specs.Prelude.{◌≡◌, ℕ, IfNone, IfOk, IfSome, IsErrOf};
ghost use Rattle.toml.specs.View.{table_view};
ghost use Rattle.world_setup.specs.declared.setup.Setup.{Setup};
ghost use Rattle.stampctl_settings.specs.declared.settings.Config.{Config};
ghost use Rattle.stampctl_settings.specs.Counts.{IsCount};
ghost use Rattle.stampctl_settings.specs.Documents.{HasNumber, HasNumbers, HasSetup, IsConfigText, whole_number_at};

use crate::settings::{Config, MAX_COUNT};
use std::alloc::Global;
use thiserror::Error;
use toml::Table;
use world_setup::Setup;

/// Why a text gives no settings.
#[derive(Clone, Copy, Debug, PartialEq, Eq, Error)]
pub enum ConfigError {
    /// The text is no TOML document, or one of the eight numbers is missing, no whole number or out of range (61).
    #[error("no TOML document, or a number in it is missing or out of range")]
    BadConfig,
    /// No memory was left (22).
    #[error("no memory was left")]
    Memory,
}

fn whole_number(table: &Table, key: &str) -> Option<i64>
    ensures { result ≡ whole_number_at key.now (table_view table.now) }
{
    match table.get(key) {
        Some(value) => value.as_integer(),
        None => None,
    }
}

/// The number at a key, where there is one from 0 on.
fn number(table: &Table, key: &str) -> Option<u64>
    ensures found { IfSome result (HasNumber (table_view table.now) key.now) }
    ensures none { IfNone result ((n : ℕ) → HasNumber (table_view table.now) key.now n → ⊥) }
{
    match whole_number(table, key) {
        Some(number) if number >= 0 => Some(number as u64),
        _ => None,
    }
}

/// The number at a key, where there is one from 1 to 1,000,000.
fn count(table: &Table, key: &str) -> Option<u32>
    ensures found { IfSome result (λ n. HasNumber (table_view table.now) key.now n × IsCount n) }
    ensures none { IfNone result ((n : ℕ) → IsCount n → HasNumber (table_view table.now) key.now n → ⊥) }
{
    let number = number(table, key)?;
    if (1..=u64::from(MAX_COUNT)).contains(&number) {
        Some(number as u32)
    } else {
        None
    }
}

/// How large the stamp is, where the document has its four numbers.
fn setup(table: &Table) -> Option<Setup>
    ensures found { IfSome result (HasSetup (table_view table.now)) }
    ensures none { IfNone result ((setup : Setup) → HasSetup (table_view table.now) setup → ⊥) }
{
    let nodes = number(table, "nodes")?;
    let servers = number(table, "servers")?;
    let target = number(table, "target")?;
    let batch = number(table, "batch")?;
    Setup::new(nodes, servers, target, batch)
}

/// How large the storm is, where the document has all eight numbers.
fn numbers(table: &Table) -> Option<Config>
    ensures found { IfSome result (HasNumbers (table_view table.now)) }
    ensures none { IfNone result ((config : Config) → HasNumbers (table_view table.now) config → ⊥) }
{
    let setup = setup(table)?;
    let clients = count(table, "clients")?;
    let workers = count(table, "workers")?;
    let requests = count(table, "requests")?;
    let events = count(table, "events")?;
    Some(Config {
        setup,
        clients,
        workers,
        requests,
        events,
    })
}

/// Reads the settings of a storm, a TOML document with eight whole numbers: `nodes` from 3 to 12, `servers` from 1 to 4, `target`
/// from 4,096 to 16,777,216 bytes, `batch` from 1 to 1,024, and `clients`, `workers`, `requests` and `events` from 1 to
/// 1,000,000. Other keys are ignored.
///
/// A text that is no TOML document, as one with a key twice, is refused `BadConfig` (61), and so is one in which a number is
/// missing, no whole number (`6.0`, `"6"`) or out of range. The other error is out of memory, `Memory` (22).
pub fn config(alloc: Global, text: &str) -> Result<Config, ConfigError>
    ensures ok { IfOk result (IsConfigText text.now) }
    ensures bad { IsErrOf result ConfigError.BadConfig
        → (config : Config) → IsConfigText text.now config → ⊥ }
{
    match toml::table_from_str(alloc, text) {
        Ok(table) => numbers(&table).ok_or(ConfigError::BadConfig),
        Err(error) if error.is_memory() => Err(ConfigError::Memory),
        Err(_) => Err(ConfigError::BadConfig),
    }
}
