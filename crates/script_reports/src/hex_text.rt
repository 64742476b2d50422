//! Bytes as a script prints them.
ghost use Rattle.std.specs.Prelude.{◌≡◌, IfOk};
ghost use Rattle.script_reports.specs.Reports.{shown_bytes};

use std::alloc::{AllocError, Global};
use std::fmt;
use std::marker::Model;

/// Bytes in two digits each, and a dash for none. Its value is that text.
#[derive(Drop)]
pub struct HexText {
    text: String,
}

impl Model for HexText {
    ghost use Rattle.std.specs.Prelude.{ℕ, List, string_bytes};

    ghost Value = { List ℕ };

    ghost view = { λ hex. string_bytes hex.text };
}

impl HexText {
    /// The text of these bytes. An error is out of memory (22).
    pub fn of(alloc: Global, bytes: &[u8]) -> Result<HexText, AllocError>
        ensures { IfOk result (λ hex. hex ≡ shown_bytes bytes.now) }
    {
        if bytes.is_empty() {
            return Ok(HexText {
                text: "-".to_string(alloc)?,
            });
        }
        Ok(HexText {
            text: hex::encode(alloc, bytes)?,
        })
    }

    /// The text.
    pub(crate) fn as_str(&self) -> &str
        ensures { result.now ≡ self.now }
    {
        self.text.as_str()
    }
}

impl fmt::Display for HexText {
    ghost use Rattle.std.specs.Prelude.{Some};

    ghost output = { λ hex. Some hex };

    fn fmt<W: fmt::Write>(&self, f: &mut fmt::Formatter<W>) -> fmt::Result {
        f.write_str(self.text.as_str())
    }
}
