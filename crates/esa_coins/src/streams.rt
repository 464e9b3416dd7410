//! No two lists of a run are drawn from one stream.

ghost use Rattle.std.specs.Prelude.{◌≡◌, ◌^◌, ◌<◌, ℕ};
ghost use Rattle.esa_params.specs.Sizes.{Sizes, ArePlanned};
ghost use Rattle.esa_coins.specs.Streams.{Purpose, stream_number};

/// Streams of one number serve one purpose, in one attempt, of one bucket or target: each list of a run is drawn from a
/// stream of its own. A number of 64 bits holds each stream's.
pub fn streams_differ()
    ensures differ { (p : Sizes) (one other : Purpose) (attempt later bucket next : ℕ)
        → ArePlanned p → bucket < p.b → next < p.b
        → stream_number one attempt bucket ≡ stream_number other later next
        → (one ≡ other) × (attempt ≡ later) × (bucket ≡ next) }
    ensures fit { (p : Sizes) (purpose : Purpose) (attempt bucket : ℕ)
        → ArePlanned p → attempt < p.attempts → bucket < p.b → stream_number purpose attempt bucket < 2 ^ 64 }
{}
