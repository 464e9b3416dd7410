//! What a turnstile's value has to be.

ghost use Rattle.std.specs.Prelude.{◌≡◌, ℕ, List};

/// A value that keeps a list of numbers, one for each time that somebody entered.
///
/// Contracts see four more things in it. Its origin never changes while the turnstile stands. It is sound or not,
/// by what it holds now. Its mark is a number that never falls. Its trail is a list of texts to which texts are only
/// added.
pub trait Logged {
    /// What the origin is. No value of it is made.
    type Origin;

    ghost log: { Self → List ℕ };

    ghost origin: { Self → Self.Origin };

    ghost IsSound: { Self → Type 0 };

    ghost mark: { Self → ℕ };

    ghost trail: { Self → List (List ℕ) };

    /// The entries, the oldest first.
    fn entries(&self) -> &[u32]
        ensures { result.now ≡ log self.now };
}
