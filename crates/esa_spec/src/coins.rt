//! The coins of a shuffle: what is drawn for each attempt.

ghost use Rattle.std.specs.Prelude.{◌≡◌, ℕ, ◌+◌, ◌-◌, ◌*◌, ◌<◌, List, length, All, IsPermutation};
ghost use Rattle.esa_params.specs.Sizes.{Sizes, size, below};

use esa_params::Plan;

/// What each attempt of a shuffle draws: for each bucket a list of targets, one for each of its places in order, and
/// for each target an order of what is imported for it.
///
/// A target is the number of an intermediate bucket, below B. An order is a permutation of the numbers below
/// `B * C + K`. The lists are the same at each call. No call takes memory.
pub trait Coins {
    /// The plan that the coins are for.
    ghost plan: { Self → Sizes };

    /// The targets of the places of a bucket in an attempt.
    ghost target_list: { Self → ℕ → ℕ → List ℕ };

    /// The order of a target in an attempt.
    ghost order_list: { Self → ℕ → ℕ → List ℕ };

    /// The plan that the coins are for.
    fn plan(&self) -> Plan
        ensures { result ≡ plan self.now };

    /// Writes the targets of a bucket's places. What stands in `room` afterwards is open.
    fn targets(&self, attempt: u32, bucket: u32, room: &mut [u32], out: &mut [u32])
        requires attempt_planned { attempt < (plan self.now).attempts }
        requires bucket_planned { bucket < (plan self.now).b }
        requires room_to_draw { length room.old ≡ size (plan self.now) bucket + (plan self.now).b - 1 }
        requires room_for_all { length out.old ≡ size (plan self.now) bucket }
        ensures value { out.new ≡ target_list self.now attempt bucket }
        ensures below { All (λ target. target < (plan self.now).b) out.new };

    /// Writes the order of a target.
    fn order(&self, attempt: u32, bucket: u32, out: &mut [u32])
        requires attempt_planned { attempt < (plan self.now).attempts }
        requires bucket_planned { bucket < (plan self.now).b }
        requires room_for_all { length out.old ≡ (plan self.now).b * (plan self.now).c + (plan self.now).k }
        ensures value { out.new ≡ order_list self.now attempt bucket }
        ensures permutes { IsPermutation (below ((plan self.now).b * (plan self.now).c + (plan self.now).k)) out.new };

    /// Each place of a bucket has a target.
    ghost target_for_each: { (coins : Self) (attempt bucket : ℕ) → attempt < (plan coins).attempts → bucket < (plan coins).b
        → length (target_list coins attempt bucket) ≡ size (plan coins) bucket };

    /// Each target is one of the intermediate buckets.
    ghost targets_below: { (coins : Self) (attempt bucket : ℕ) → attempt < (plan coins).attempts → bucket < (plan coins).b
        → All (λ target. target < (plan coins).b) (target_list coins attempt bucket) };

    /// Each order names each place of an import once.
    ghost orders_permute: { (coins : Self) (attempt target : ℕ) → attempt < (plan coins).attempts → target < (plan coins).b
        → IsPermutation (below ((plan coins).b * (plan coins).c + (plan coins).k)) (order_list coins attempt target) };
}
