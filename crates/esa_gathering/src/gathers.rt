//! Who gathers the submissions of several texts: one thread, or a thread for each text.

ghost use Rattle.std.specs.Prelude.{◌≡◌, ◌≤◌, ◌<◌, ◌^◌, Ok, IfOk, IfErr, length};
ghost use Rattle.std.specs.List.{concat};
ghost use denote.Param.Send.{IsSync};
ghost use Rattle.esa_shuffling.specs.Batch.{StopsBatching};
ghost use Rattle.esa_gathering.specs.Together.{texts_of, batched_together};

use crate::crew::batch_by_crew;
use crate::together::batch_together;
use esa_batcher::Batch;
use esa_job::Mode;
use esa_params::Form;
use esa_refusal::Stop;
use std::alloc::Global;
use std::thread::Threads;

/// Makes the batch of several texts. It is the same batch whoever makes it.
pub(crate) trait Gathers {
    /// What has to hold of it, so that it can.
    ghost ready: { Self → Type 0 };

    /// The batch of all lines of texts, by who takes the turns.
    fn batch(
        &self,
        alloc: Global,
        form: Form,
        epoch: u32,
        m: u32,
        mode: Mode,
        texts: &[Vec<u8>],
    ) -> Result<Batch, Stop>
        requires ready { ready self.now }
        requires few { length texts.now ≤ 16 }
        requires small { length (concat (texts_of texts.now)) < 2 ^ 63 }
        ensures ok { IfOk result (λ batch. batched_together form epoch m (texts_of texts.now) ≡ Ok batch) }
        ensures err { IfErr result (StopsBatching (batched_together form epoch m (texts_of texts.now))) };
}

/// One thread, which takes one text after another.
#[derive(Clone, Copy)]
pub(crate) struct OneThread;

impl Gathers for OneThread {
    ghost ready = { λ _. Unit {0} };

    fn batch(
        &self,
        alloc: Global,
        form: Form,
        epoch: u32,
        m: u32,
        _: Mode,
        texts: &[Vec<u8>],
    ) -> Result<Batch, Stop> {
        batch_together(alloc, form, epoch, m, texts)
    }
}

/// Threads that can be started, one for each text, where a job asks for a crew.
#[derive(Clone, Copy)]
pub(crate) struct Crew<'a, R> {
    pub(crate) rt: &'a R,
}

impl<R: Threads + Sync> Gathers for Crew<'_, R> {
    ghost ready = { λ _. IsSync R.row };

    fn batch(
        &self,
        alloc: Global,
        form: Form,
        epoch: u32,
        m: u32,
        mode: Mode,
        texts: &[Vec<u8>],
    ) -> Result<Batch, Stop> {
        match mode {
            Mode::Crew => batch_by_crew(self.rt, alloc, form, epoch, m, texts),
            Mode::Turns => batch_together(alloc, form, epoch, m, texts),
        }
    }
}
