//! What contracts see of a run and no value keeps.

ghost use Rattle.std.specs.Prelude.{ℕ};
ghost use Rattle.esa_params.specs.Sizes.{Sizes};
ghost use Rattle.esa_spec.specs.Draws.{Draw};

use std::marker::Brand;

/// The plan of a run and what its coins draw in each attempt, for contracts alone. A floor has a type parameter of this
/// kind: the type has no value, and whoever makes a floor says which plan and draws it means.
pub trait Told {
    ghost plan: { Sizes };

    ghost draws: { ℕ → Draw };
}

/// A call that passes `Brand` picks which plan and draws it means. These values mean nothing.
impl Told for Brand {
    ghost use Rattle.std.specs.Prelude.{[]};
    ghost use Rattle.esa_params.specs.declared.form.Form.TheVariants.{One};

    ghost plan = { record { n = 1; b = 1; c = 1; s = 1; k = 1; w = 1; q = 1; workers = 1; attempts = 1; form = One } };

    ghost draws = { λ attempt. record { targets = λ bucket. []; order = λ target. [] } };
}
