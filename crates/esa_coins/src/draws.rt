//! Draws from a generator: numbers below a bound, shuffled numbers, and separators.

ghost use Rattle.std.specs.Prelude.{◌≡◌, ◌^◌, ◌<◌, ◌≤◌, length, All, IsPermutation};
ghost use Rattle.esa_params.specs.Sizes.{below};
ghost use Rattle.esa_coins.specs.Seeded.{stream_at, drawn_below, shuffled_below, separated};
ghost use Rattle.rand_chacha.specs.ChaCha.{next_word};
ghost use Rattle.rand_core.specs.Steps.{stream_of, steps_u32};

use rand::RngExt;
use rand::seq::SliceRandom;
use rand_chacha::ChaCha20Rng;
use rand_core::SeedableRng;

/// ChaCha20 with the seed's key, at the start of the stream of a number.
fn generator(seed: [u8; 32], number: u64) -> ChaCha20Rng
    ensures { stream_of (steps_u32 (next_word 10)) result ≡ stream_at seed number }
{
    let mut generator = ChaCha20Rng::from_seed(seed);
    generator.set_stream(number);
    generator
}

/// Draws numbers below a bound, one after another, from the seed's stream of a number.
pub(crate) fn draw_below(seed: [u8; 32], number: u64, bound: u32, out: &mut [u32])
    requires { 0 < bound }
    ensures value { out.new ≡ drawn_below (length out.old) bound (stream_at seed number) }
    ensures below { All (λ target. target < bound) out.new }
{
    let mut rng = generator(seed, number);
    for target in out.iter_mut() {
        *target = rng.random_range(0..bound);
    }
}

/// Writes the numbers from 0 on.
fn number_up(out: &mut [u32])
    requires { length out.old ≤ 2 ^ 32 }
    ensures { out.new ≡ below (length out.old) }
{
    for (place, number) in out.iter_mut().enumerate() {
        *number = place as u32;
    }
}

/// Writes the numbers from 0 on, shuffled from the seed's stream of a number.
pub(crate) fn shuffle_below(seed: [u8; 32], number: u64, out: &mut [u32])
    requires { length out.old ≤ 2 ^ 32 }
    ensures value { out.new ≡ shuffled_below (length out.old) (stream_at seed number) }
    ensures permutes { IsPermutation (below (length out.old)) out.new }
{
    let mut rng = generator(seed, number);
    number_up(out);
    out.shuffle(&mut rng);
}

/// Writes for each entry below the number of places how many separators, which are the entries from there on, stand
/// before it.
pub(crate) fn separate(entries: &[u32], out: &mut [u32])
    requires permutes { IsPermutation (below (length entries.now)) entries.now }
    requires few { length entries.now < 2 ^ 32 }
    requires within { length out.old ≤ length entries.now }
    ensures { out.new ≡ separated (length out.old) entries.now }
{
    let mut seen = 0;
    for entry in entries {
        let place = *entry as usize;
        if place < out.len() {
            out[place] = seen;
        } else {
            seen += 1;
        }
    }
}
