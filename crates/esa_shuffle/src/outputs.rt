//! What comes out of a run whose output is scanned.

ghost use Rattle.std.specs.Prelude.{◌≡◌, ℕ, ◌*◌, ◌<◌, List, Some, length};
ghost use Rattle.esa_device.specs.Logs.{IsFaithful};
ghost use Rattle.esa_device.specs.Recording.{Recorded};
ghost use Rattle.esa_ending.specs.Seen.{turns_in};
ghost use Rattle.esa_envelope.specs.declared.keys.Keys.{Keys};
ghost use Rattle.esa_params.specs.Form.{envelope_length};
ghost use Rattle.esa_params.specs.Sizes.{ArePlanned, Sizes};
ghost use Rattle.esa_press.specs.Contents.{AreOutputsStored};
ghost use Rattle.esa_scans.specs.Forwarded.{HasForwarded};
ghost use Rattle.esa_spec.specs.Draws.{Draw, IsDrawn};
ghost use Rattle.esa_spec.specs.Traces.{good_attempt};
ghost use Rattle.esa_shuffle.specs.Output.{BatchComesOut};
ghost use Rattle.esa_shuffle.specs.Records.{record_at};

use esa_device::Device;

/// The output of the attempt that succeeded was written last with the records of its places, and scanned twice. Where the
/// log of it all is faithful, the batch comes out: both scans were given its records in the order of the attempt, none lost
/// or doubled, whoever took the turns.
pub fn scans_are_given_the_batch<V: Device>()
    ensures { (p : Sizes) (ds : ℕ → Draw) (hs : List (List ℕ)) (a : ℕ) (outer run : Keys) (key drops : List ℕ) (t n : ℕ) (given sent : List ℕ) (old new : Recorded V)
        → ArePlanned p → a < p.attempts → IsDrawn p (ds a) → good_attempt p ds 0 hs ≡ Some a → length given ≡ envelope_length p.form * n
        → AreOutputsStored p run (ds a) (turns_in hs a) a (record_at p outer given) p.b old.log
        → (done : HasForwarded V.told V.faults p run a key drops t old new sent) → IsFaithful p new.log
        → BatchComesOut p ds hs a outer run key drops t given done.first done.second sent }
{}
