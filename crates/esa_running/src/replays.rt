//! A crew's run, and one that is handed its turns: what both leave, and the file between them.

ghost use Rattle.std.specs.Prelude.{◌≡◌, Bool, ℕ, List, Some};
ghost use Rattle.esa_command.specs.Step.{Reads, accepted};
ghost use Rattle.esa_job.specs.Request.{Request, name_at};
ghost use Rattle.esa_job.specs.declared.command.Command.{Command};
ghost use Rattle.esa_job.specs.declared.field.JobField.TheVariants as field;
ghost use Rattle.esa_refusal.specs.declared.failures.Failures.{Failures};
ghost use Rattle.esa_refusal.specs.declared.source.Source.TheVariants as source;
ghost use Rattle.esa_refusal.specs.declared.status.Status.TheVariants as status;
ghost use Rattle.esa_running.specs.ComingOut.{IsBegun, batch_told};
ghost use Rattle.esa_running.specs.Replaying.{ActedRun, IsGivenBack, IsReplayed, LeaveTheSame, MayBeRead, turns_left};
ghost use Rattle.esa_running.specs.declared.purpose.Purpose.{Purpose};
ghost use Rattle.esa_shuffling.specs.Shuffle.{numbers_asked, turns_file};
ghost use Rattle.esa_taking.specs.Run.{Asked, run_steps};
ghost use Rattle.esa_taking.specs.Wanted.{sizes_in, turns_by};

/// A run by a crew and one that is handed the turns which the crew stored: where the devices of both gave back what was
/// written, and both ended well, they made the same accesses, write the same bytes to their outputs and to their trace files,
/// and print the same lines.
pub fn crews_output_is_replayed<U, V>()
    ensures output { (purpose : Purpose) (one : ActedRun U purpose) (other : ActedRun V purpose) → IsReplayed one other → IsGivenBack one → IsGivenBack other
        → one.work.ended ≡ status.Ok → other.work.ended ≡ status.Ok → LeaveTheSame one other }

    // So they do where both failed in each attempt, whatever their devices gave back. Then there is no output.
    ensures overflow { (purpose : Purpose) (one : ActedRun U purpose) (other : ActedRun V purpose) (failures others : Failures) → IsReplayed one other
        → one.work.ended ≡ status.Overflow failures → other.work.ended ≡ status.Overflow others → LeaveTheSame one other }

    // Their loads were given the same envelopes where their cabinets tell the same batch, and both began an attempt.
    ensures given { (purpose : Purpose) (one : ActedRun U purpose) (other : ActedRun V purpose) (records : List (List ℕ)) → sizes_in other.asked ≡ sizes_in one.asked
        → IsBegun one.asked one.history → IsBegun other.asked other.history
        → batch_told one.asked one.taken.told ≡ Some records → batch_told other.asked other.taken.told ≡ Some records → other.owes.given ≡ one.owes.given }
{}

/// The turns file of a run by a crew, which began an attempt and stored no more turns than such a file may have, is accepted
/// where a job of these parameters hands it in, and is read as the turns which the crew stored.
pub fn crews_turns_are_read<V>()
    ensures file { (purpose : Purpose) (run : ActedRun V purpose) (command : Command) (job : Request) (read : Reads) (name : List ℕ) → MayBeRead run
        → numbers_asked job ≡ numbers_asked run.asked.job → name_at job field.Turns ≡ Some name → read source.Turns name ≡ Some (turns_left run)
        → turns_file command job read ≡ accepted (turns_by run.asked run.history) }

    // So they are what the run that reads the file is asked for.
    ensures asked { (purpose : Purpose) (run : ActedRun V purpose) (command : Command) (crews : Bool) (of : List ℕ) (read : Reads) (name : List ℕ) (again : Asked) → MayBeRead run
        → run_steps command crews of read ≡ accepted again
        → numbers_asked again.job ≡ numbers_asked run.asked.job → name_at again.job field.Turns ≡ Some name → read source.Turns name ≡ Some (turns_left run)
        → again.turns ≡ turns_by run.asked run.history }
{}
