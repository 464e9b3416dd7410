//! What is needed before the first attempt.

ghost use Rattle.std.specs.Prelude.{ℕ};
ghost use Rattle.esa_params.specs.Sizes.{Sizes};
ghost use Rattle.esa_spec.specs.Draws.{Draw};
ghost use Rattle.esa_floor.specs.Parts.{Parts, begun_as};
ghost use Rattle.esa_floor.specs.Standing.{Stands};
ghost use Rattle.esa_crew.specs.Loads.{IsLoaded};

use esa_device::Device;

/// A floor that was loaded may begin its first attempt.
pub fn loaded_floors_begin<V: Device>()
    ensures { (p : Sizes) (ds : ℕ → Draw) (f : Parts V) → IsLoaded V.faults p ds f → Stands V.faults p ds (begun_as f 0) }
{}
