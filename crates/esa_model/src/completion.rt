//! The completion of a list of turns: the list, and behind it one turn of each worker after another.

ghost use Rattle.std.specs.Prelude.{◌≡◌, ◌+◌, ◌*◌, ◌<◌, ◌≤◌, ◌^◌, All, length, slice_index};
ghost use Rattle.esa_params.specs.Sizes.{ArePlanned};
ghost use Rattle.esa_spec.specs.Completion.{completed};

use esa_params::Plan;

/// How many turns the completion of a list has.
pub fn most_turns(plan: &Plan, turns: &[u32]) -> usize
    requires { length turns.now ≤ 4194304 }
    ensures value { result ≡ length turns.now + plan.now.b * (plan.now.b + 3) * plan.now.workers }
    ensures few { result < 2 ^ 31 }
    ensures planned { ArePlanned plan.now }
{
    let b = plan.b();
    turns.len() + (b * (b + 3) * plan.workers()) as usize
}

/// The worker of a turn of the completion of a list.
pub fn worker_at(plan: &Plan, turns: &[u32], turn: usize) -> u32
    requires workers { All (λ worker. worker < plan.now.workers) turns.now }
    requires turn { turn < length turns.now + plan.now.b * (plan.now.b + 3) * plan.now.workers }
    ensures value { result ≡ slice_index (completed plan.now turns.now) turn }
    ensures worker { result < plan.now.workers }
{
    let workers = plan.workers();
    if turn < turns.len() {
        turns[turn]
    } else {
        ((turn - turns.len()) % workers as usize) as u32
    }
}
