//! The owner of a turnstile meets all posts: it tells them what it has seen, and hears what they have.

ghost use Rattle.std.specs.Prelude.{◌≡◌, ◌<◌, ℕ, length, slice_index_or};
ghost use Rattle.esa_turnstile.specs.Passes.{IsOutside, IsPassOf};
ghost use Rattle.esa_workers.specs.Meetings.{HasMet, IsAsBefore, Knows, WasTold};

use crate::posts::Manned;
use esa_turnstile::{Logged, Pass, Turnstile};

/// Tells one post what a pass has seen.
fn tell<W, T: Logged>(turnstile: &Turnstile<T>, from: &mut Pass<T>, post: &mut Manned<W, T>)
    requires from { IsPassOf turnstile.now from.old × IsOutside from.old }
    requires post { IsPassOf turnstile.now post.old.pass × IsOutside post.old.pass }
    ensures same { from.new ≡ from.old }
    ensures told { WasTold turnstile.now from.old post.old post.new }
{
    turnstile.meet(from, &mut post.pass);
}

/// Tells all posts what a pass has seen.
pub(crate) fn tell_all<W, T: Logged>(
    turnstile: &Turnstile<T>,
    from: &mut Pass<T>,
    posts: &mut [Manned<W, T>],
)
    requires from { IsPassOf turnstile.now from.old × IsOutside from.old }
    requires posts { (k : ℕ) (d : _) → k < length posts.old → IsPassOf turnstile.now (slice_index_or posts.old k d).pass × IsOutside (slice_index_or posts.old k d).pass }
    ensures same { from.new ≡ from.old }
    ensures each { length posts.new ≡ length posts.old }
    ensures told { (k : ℕ) (d : _) → k < length posts.old → WasTold turnstile.now from.old (slice_index_or posts.old k d) (slice_index_or posts.new k d) }
{
    for post in posts.iter_mut() {
        tell(turnstile, from, post);
    }
}

/// Tells a pass what a post's has seen.
fn hear<W, T: Logged>(turnstile: &Turnstile<T>, into: &mut Pass<T>, post: &mut Manned<W, T>)
    requires into { IsPassOf turnstile.now into.old × IsOutside into.old }
    requires post { IsPassOf turnstile.now post.old.pass × IsOutside post.old.pass }
    ensures same { post.new ≡ post.old }
    ensures met { HasMet turnstile.now post.old.pass into.old into.new }
{
    turnstile.meet(&mut post.pass, into);
}

/// Tells a pass what the passes of all posts have seen.
pub(crate) fn hear_all<W, T: Logged>(
    turnstile: &Turnstile<T>,
    into: &mut Pass<T>,
    posts: &mut [Manned<W, T>],
)
    requires into { IsPassOf turnstile.now into.old × IsOutside into.old }
    requires posts { (k : ℕ) (d : _) → k < length posts.old → IsPassOf turnstile.now (slice_index_or posts.old k d).pass × IsOutside (slice_index_or posts.old k d).pass }
    ensures same { posts.new ≡ posts.old }
    ensures pass { IsPassOf turnstile.now into.new × IsOutside into.new }
    ensures counts { IsAsBefore into.old into.new }
    ensures before { Knows into.new into.old }
    ensures heard { (k : ℕ) (d : _) → k < length posts.old → Knows into.new (slice_index_or posts.old k d).pass }
{
    for post in posts.iter_mut() {
        hear(turnstile, into, post);
    }
}
