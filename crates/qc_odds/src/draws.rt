//! Numbers drawn by seed, run and text.

ghost use Rattle.std.specs.Prelude.{◌≡◌};
ghost use Rattle.qc_odds.specs.Draws.{draw, mix, next_state, quadratic, swapped, with_byte};

/// The multiplier and the increment of a linear congruential generator of 64 bits (Knuth).
const MULTIPLIER: u64 = 6_364_136_223_846_793_005;

const INCREMENT: u64 = 1_442_695_040_888_963_407;

/// One more than the greatest number of 32 bits.
const HALF: u64 = 4_294_967_296;

fn next_state(x: u64) -> u64
    ensures { result ≡ next_state x }
{
    MULTIPLIER.wrapping_mul(x).wrapping_add(INCREMENT)
}

fn quadratic(y: u64) -> u64
    ensures { result ≡ quadratic y }
{
    y.wrapping_mul(y.wrapping_mul(2).wrapping_add(1))
}

/// The two halves of a number, swapped.
fn swapped(z: u64) -> u64
    ensures { result ≡ swapped z }
{
    (z % HALF) * HALF + z / HALF
}

/// 64 bits, scrambled from a number.
fn mix(x: u64) -> u64
    ensures { result ≡ mix x }
{
    swapped(quadratic(next_state(x)))
}

/// Mixes a number in.
fn mixed_in(x: u64, number: u64) -> u64
    ensures { result ≡ with_byte x number }
{
    mix(x.wrapping_add(number))
}

/// A number below 2^32, as a seed, a run and a text draw it, whatever else is drawn.
pub fn draw(seed: u32, run: u32, text: &[u8]) -> u32
    ensures { result ≡ draw seed run text.now }
{
    let mut x = mixed_in(mix(u64::from(seed)), u64::from(run));
    for byte in text {
        x = mixed_in(x, u64::from(*byte));
    }
    (mix(mix(x)) % HALF) as u32
}
