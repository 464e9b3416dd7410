//! The keys of a shuffle, by the form and the epoch of its batch.

ghost use Rattle.std.specs.Prelude.{◌≡◌};
ghost use Rattle.esa_job.specs.declared.command.Command.TheVariants.{Run};
ghost use Rattle.esa_job.specs.Seen.{request_of};
ghost use Rattle.esa_taking.specs.RunTaken.{IsTaken, run_taken};
ghost use Rattle.esa_taking.specs.Wanted.{block_keys, outer_keys, inner_keys, drop_key};

use crate::input::RunInput;
use esa_envelope::{Keys, Label, keys_of, record_keys};

impl RunInput {
    /// The keys of the blocks.
    pub fn block_keys(&self) -> Keys
        requires { IsTaken self.now }
        ensures { result ≡ block_keys (run_taken self.now) }
    {
        keys_of(&self.keys.run(), Label::Block)
    }

    /// The keys of the outer envelopes.
    pub fn outer_keys(&self) -> Keys
        requires { IsTaken self.now }
        ensures { result ≡ outer_keys (run_taken self.now) }
    {
        let master = self.keys.outer();
        record_keys(self.batch.form, self.batch.epoch, &master, Label::Outer)
    }

    /// The keys of the inner envelopes, which run has alone.
    pub fn inner_keys(&self) -> Keys
        requires taken { IsTaken self.now }
        requires command { (request_of self.now.job).command ≡ Run }
        ensures { result ≡ inner_keys (run_taken self.now) }
    {
        let master = self.keys.inner();
        record_keys(self.batch.form, self.batch.epoch, &master, Label::Inner)
    }

    /// The key that decides which records are dropped.
    pub fn drop_key(&self) -> [u8; 32]
        requires { IsTaken self.now }
        ensures { result ≡ drop_key (run_taken self.now) }
    {
        self.keys.drop_key()
    }
}
