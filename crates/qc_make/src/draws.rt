//! The draws that are made from a number.
ghost use Rattle.std.specs.Prelude.{◌≡◌, ◌≤◌};
ghost use Rattle.qc_make.specs.Draws.{next_state, drawn};

/// The state after the next draw.
pub(crate) fn next_state(state: u32) -> u32
    ensures { result ≡ next_state state }
{
    ((1_103_515_245 * u64::from(state) + 12_345) % 2_147_483_648) as u32
}

/// What the draw that led to a state gives.
pub(crate) fn drawn(state: u32) -> u8
    ensures drawn { result ≡ drawn state }
    ensures most { result ≤ 30 }
{
    (state / 65_536 % 31) as u8
}
