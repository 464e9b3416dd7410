//! A run without faults ends well.

ghost use Rattle.std.specs.Prelude.{ℕ, List, Option};
ghost use Rattle.esa_command.specs.Stand.{Stand};
ghost use Rattle.esa_command.specs.Work.{Work};
ghost use Rattle.esa_device.specs.Recording.{Recorded};
ghost use Rattle.esa_lists.specs.Files.{Files};
ghost use Rattle.esa_running.specs.RunOwes.{RunOwes};
ghost use Rattle.esa_running.specs.WellEnded.{EndsWell, IsWithoutFaults};
ghost use Rattle.esa_running.specs.declared.purpose.Purpose.{Purpose};
ghost use Rattle.esa_taking.specs.Run.{Asked};

/// A run or shuffle, on one thread or by a crew, in which neither the device nor the batch file failed and the device gave back
/// what was written, ends with Ok or with Overflow, as the definition has it for its sizes, draws and turns: never with
/// Tampered, with a fault of the device or of the input.
pub fn runs_without_faults_end_well<V>()
    ensures { (purpose : Purpose) (told : V → Option (List (List ℕ))) (faults : V → ℕ) (before : ℕ) (now : Recorded V) (history : List ℕ) (asked : Asked)
        (taken acted : Stand Files) (work : Work)
        → IsWithoutFaults faults before now asked taken acted
        → RunOwes purpose told faults before now history asked taken acted work → EndsWell asked history work.ended }
{}
