//! The word for how a search came out.
ghost use Rattle.std.specs.Prelude.{◌≡◌, ◌≤◌, length};
ghost use Rattle.qc_search.specs.Words.{kind_word};

use crate::done::Kind;

/// The word for how a search came out.
pub fn kind_word(kind: Kind) -> &'static [u8]
    ensures text { result.now ≡ kind_word kind }
    ensures short { length result.now ≤ 10 }
{
    match kind {
        Kind::Optimal => b"Optimal",
        Kind::Infeasible => b"Infeasible",
        Kind::Budget => b"Budget",
    }
}
