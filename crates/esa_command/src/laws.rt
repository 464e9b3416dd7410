//! Laws of what a command takes in, and of how it ends.

ghost use Rattle.std.specs.Prelude.{◌≡◌, ◌≢◌, ℕ, List};
ghost use Rattle.esa_refusal.specs.declared.status.End.TheVariants.{Settled};
ghost use Rattle.esa_refusal.specs.declared.status.Status.{Status};
ghost use Rattle.esa_refusal.specs.declared.status.Status.TheVariants as status;
ghost use Rattle.esa_command.specs.Given.{Given, AllAgree, AreInOrder};
ghost use Rattle.esa_command.specs.Settled.{Went, ending};
ghost use Rattle.esa_command.specs.Step.{Reads};

/// For each role that is read once there are files that agree with what a cabinet gave. So what `Judged` says of all
/// files that agree is never said of none.
pub fn some_files_agree()
    ensures { (first last : ℕ) (given : List Given) → AreInOrder first last given → (read : Reads) × AllAgree read given }
{}

/// A status other than Ok stays, however far the files and lines went, and no line is owed after it.
pub fn failed_status_stays()
    ensures { (ended : Status) (went : Went) → ended ≢ status.Ok → ending ended went ≡ Settled ended }
{}
