//! Names of calls.

ghost use Rattle.std.specs.Prelude.{◌≡◌, IfSome, IsSome, IsTrue, ◌↔◌, ℕ, List};
ghost use Rattle.std.specs.List.{list_all};
ghost use Rattle.qc_model.specs.Names.{is_name_byte};
ghost use Rattle.qc_past.specs.Fields.{is_call};

use qc_num::Text;
use std::marker::Model;

/// The name of a call of a ship at the terminal: 1 to 20 ASCII letters, digits, `-` and `_`.
#[derive(Clone, Drop)]
pub struct CallName {
    text: Text<20>,
}

impl Model for CallName {
    ghost Value = { List ℕ };

    ghost view = { λ name. name.text };

    ghost invariant = { λ name. IsTrue (is_call name.text) };
}

/// Whether the byte may stand in a name.
fn is_name_byte(byte: u8) -> bool
    ensures { result ≡ is_name_byte byte }
{
    byte.is_ascii_alphanumeric() || byte == b'-' || byte == b'_'
}

/// Whether each byte may stand in a name.
fn has_name_bytes(bytes: &[u8]) -> bool
    ensures { result ≡ list_all is_name_byte bytes.now }
{
    bytes.iter().all(|b| is_name_byte(*b))
}

/// Whether the bytes are the name of a call.
fn is_call(bytes: &[u8]) -> bool
    ensures { result ≡ is_call bytes.now }
{
    1 <= bytes.len() && bytes.len() <= 20 && has_name_bytes(bytes)
}

impl CallName {
    /// The name with these bytes; `None` exactly where they aren't a call's name.
    pub fn of(bytes: &[u8]) -> Option<CallName>
        ensures call { IsSome result ↔ IsTrue (is_call bytes.now) }
        ensures bytes { IfSome result (λ name. name ≡ bytes.now) }
    {
        if !is_call(bytes) {
            return None;
        }
        Some(CallName {
            text: Text::of(bytes),
        })
    }

    /// The name's bytes.
    pub fn as_bytes(&self) -> &[u8]
        ensures bytes { result.now ≡ self.now }
        ensures call { IsTrue (is_call self.now) }
    {
        self.text.as_bytes()
    }
}
