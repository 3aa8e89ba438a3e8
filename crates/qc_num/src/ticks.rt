//! Of two ticks the lesser, and what divides both.

ghost use Rattle.std.specs.Prelude.{◌≡◌, ◌≤◌, min};
ghost use Rattle.std.specs.Int.{IsGcd};
ghost use Rattle.std.specs.Option.{option_map_or};

use crate::Tick;

/// The lesser of a tick and the least of those before it, if there were any.
pub fn lesser(before: Option<Tick>, tick: Tick) -> Tick
    ensures least { result ≡ option_map_or (λ other. min other tick) before tick }
    ensures bound { result ≤ tick }
{
    before.map_or(tick, |other| other.min(tick))
}

/// The greatest common divisor of two ticks; 0 where both are 0.
pub fn gcd(one: Tick, other: Tick) -> Tick
    ensures { IsGcd one other result }
{
    let (mut great, mut small) = (one, other);
    while small != 0 {
        (great, small) = (small, great % small);
    }
    great
}
