//! Who performs the command intake: one thread, or threads that can be started.

ghost use Rattle.std.specs.Prelude.{Bool, true, false};
ghost use denote.Param.Send.{IsSync};
ghost use Rattle.esa_command.specs.Ends.{Ends};
ghost use Rattle.esa_command.specs.Stand.{stand};
ghost use Rattle.esa_gathering.specs.Intake.{intake_steps};

use esa_gathering::{intake, intake_crew};
use esa_outside::{Cabinet, Printer};
use esa_refusal::End;
use std::alloc::Global;
use std::sync::Wait;
use std::thread::Threads;

/// Performs the command without a device whose job may ask for a crew.
pub(crate) trait Performs {
    /// What has to hold of it, so that it can.
    ghost ready: { Self → Type 0 };

    /// Whether a job may ask for a crew.
    ghost crews: { Bool };

    /// Performs the command intake.
    fn gather<K: Cabinet, P: Printer>(
        &self,
        alloc: Global,
        cabinet: &mut K,
        printer: &mut P,
        name: &str,
    ) -> End
        requires { ready self.now }
        ensures { Ends (intake_steps crews name.now)
            (stand K.told K.faults K.heard cabinet.old) (stand K.told K.faults K.heard cabinet.new)
            (stand P.told P.faults P.heard printer.old) (stand P.told P.faults P.heard printer.new) result };
}

/// One thread, which makes the batch by itself.
#[derive(Clone, Copy)]
pub(crate) struct OneThread;

impl Performs for OneThread {
    ghost ready = { λ _. Unit {0} };

    ghost crews = { false };

    fn gather<K: Cabinet, P: Printer>(
        &self,
        alloc: Global,
        cabinet: &mut K,
        printer: &mut P,
        name: &str,
    ) -> End {
        intake(alloc, cabinet, printer, false, name)
    }
}

/// Threads that can be started, where a job asks for a crew.
#[derive(Clone, Copy)]
pub(crate) struct Crew<'a, R> {
    pub(crate) rt: &'a R,
}

impl<R: Threads + Wait + Sync> Performs for Crew<'_, R> {
    ghost ready = { λ _. IsSync R.row };

    ghost crews = { true };

    fn gather<K: Cabinet, P: Printer>(
        &self,
        alloc: Global,
        cabinet: &mut K,
        printer: &mut P,
        name: &str,
    ) -> End {
        intake_crew(self.rt, alloc, cabinet, printer, name)
    }
}
