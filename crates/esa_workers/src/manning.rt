//! Workers get their passes, and give them back.

ghost use Rattle.std.specs.Prelude.{◌≡◌, ◌≤◌, ◌<◌, ◌+◌, ◌++◌, ℕ, [], length, map, reverse, slice_index_or, vec_capacity};

use crate::posts::Manned;
use esa_turnstile::Pass;

/// Gives each worker the pass at its place. The passes are taken out, and their room stays.
pub fn man<W: Drop, T>(
    mut workers: Vec<W>,
    passes: &mut Vec<Pass<T>>,
    posts: &mut Vec<Manned<W, T>>,
)
    requires each { length passes.old.items ≡ length workers.items }
    requires none { posts.old.items ≡ [] }
    requires room { length workers.items ≤ vec_capacity posts.old }
    ensures each { length posts.new.items ≡ length workers.items }
    ensures manned { (k : ℕ) (d : _) → k < length workers.items
        → slice_index_or posts.new.items k d ≡ record { worker = slice_index_or workers.items k d.worker; pass = slice_index_or passes.old.items k d.pass } }
    ensures emptied { passes.new.items ≡ [] }
    ensures room { vec_capacity passes.new ≡ vec_capacity passes.old }
{
    while let Some(worker) = workers.pop() {
        let Some(pass) = passes.pop() else {
            unreachable!()
        };
        posts.push_reserved(Manned { worker, pass });
    }
    posts.as_mut_slice().reverse();
}

/// Takes the passes of all posts back, the last post's first.
pub fn dismiss<W: Drop, T>(mut posts: Vec<Manned<W, T>>, passes: &mut Vec<Pass<T>>)
    requires room { length passes.old.items + length posts.items ≤ vec_capacity passes.old }
    ensures { passes.new.items ≡ passes.old.items ++ reverse (map (λ (post : Manned W T). post.pass) posts.items) }
{
    while let Some(post) = posts.pop() {
        let Manned { worker: _, pass } = post;
        passes.push_reserved(pass);
    }
}
