//! Names of cranes.

ghost use Rattle.std.specs.Prelude.{◌≡◌, ◌↔◌, IfSome, IsSome, IsTrue, ℕ, List};
ghost use Rattle.std.specs.List.{list_all};
ghost use Rattle.qc_model.specs.Names.{is_name, is_name_byte};

use qc_num::Text;
use std::marker::Model;

/// The name of a crane: 1 to 12 ASCII letters, digits, `-` and `_`.
#[derive(Clone, Drop)]
pub struct Name {
    text: Text<12>,
}

impl Model for Name {
    ghost Value = { List ℕ };

    ghost view = { λ n. n.text };

    ghost invariant = { λ n. IsTrue (is_name n.text) };
}

/// Whether the byte may stand in a name.
fn is_name_byte(byte: u8) -> bool
    ensures { result ≡ is_name_byte byte }
{
    byte.is_ascii_alphanumeric() || byte == b'-' || byte == b'_'
}

/// Whether each byte may stand in a name.
fn has_name_bytes(bytes: &[u8]) -> bool
    ensures { result ≡ list_all is_name_byte bytes.now }
{
    bytes.iter().all(|b| is_name_byte(*b))
}

/// Whether the bytes are a name.
fn is_name(bytes: &[u8]) -> bool
    ensures { result ≡ is_name bytes.now }
{
    1 <= bytes.len() && bytes.len() <= 12 && has_name_bytes(bytes)
}

impl Name {
    /// The name with these bytes; `None` exactly where they aren't a name.
    pub fn of(bytes: &[u8]) -> Option<Name>
        ensures name { IsSome result ↔ IsTrue (is_name bytes.now) }
        ensures bytes { IfSome result (λ n. n ≡ bytes.now) }
    {
        if !is_name(bytes) {
            return None;
        }
        Some(Name {
            text: Text::of(bytes),
        })
    }

    /// The name's bytes.
    pub fn as_bytes(&self) -> &[u8]
        ensures bytes { result.now ≡ self.now }
        ensures name { IsTrue (is_name self.now) }
    {
        self.text.as_bytes()
    }
}
