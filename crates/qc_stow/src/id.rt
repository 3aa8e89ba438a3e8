//! Ids of containers.

ghost use Rattle.std.specs.Prelude.{◌≡◌, IfSome, IsSome, IsTrue, ◌↔◌, ℕ, List};
ghost use Rattle.std.specs.List.{list_all};
ghost use Rattle.qc_stow.specs.Fields.{is_id, is_id_byte};

use qc_num::Text;
use std::marker::Model;

/// The id of a container: 1 to 20 visible ASCII characters without comma and double quote.
#[derive(Clone, Drop)]
pub struct Id {
    text: Text<20>,
}

impl Model for Id {
    ghost Value = { List ℕ };

    ghost view = { λ id. id.text };

    ghost invariant = { λ id. IsTrue (is_id id.text) };
}

/// Whether the byte may stand in an id.
fn is_id_byte(b: u8) -> bool
    ensures { result ≡ is_id_byte b }
{
    b >= 0x21 && b <= 0x7E && b != b',' && b != b'"'
}

/// Whether each byte may stand in an id.
fn has_id_bytes(bytes: &[u8]) -> bool
    ensures { result ≡ list_all is_id_byte bytes.now }
{
    bytes.iter().all(|b| is_id_byte(*b))
}

/// Whether the bytes are an id.
fn is_id(bytes: &[u8]) -> bool
    ensures { result ≡ is_id bytes.now }
{
    bytes.len() >= 1 && bytes.len() <= 20 && has_id_bytes(bytes)
}

impl Id {
    /// The id with these bytes; `None` exactly where they aren't an id.
    pub fn of(bytes: &[u8]) -> Option<Id>
        ensures id { IsSome result ↔ IsTrue (is_id bytes.now) }
        ensures bytes { IfSome result (λ i. i ≡ bytes.now) }
    {
        if !is_id(bytes) {
            return None;
        }
        Some(Id {
            text: Text::of(bytes),
        })
    }

    /// The id's bytes.
    pub fn as_bytes(&self) -> &[u8]
        ensures bytes { result.now ≡ self.now }
        ensures id { IsTrue (is_id self.now) }
    {
        self.text.as_bytes()
    }
}
