//! Why a command took nothing in.

ghost use Rattle.std.specs.Prelude.{◌≡◌};
ghost use Rattle.esa_refusal.specs.Stop.{stop_of_job, stop_of_keys, stop_of_forward, stop_of_database, stop_of_encode, stop_of_add, stop_of_batch, stop_of_turns, stop_of_coins};
ghost use Rattle.esa_refusal.specs.declared.stop.Stop.TheVariants.{OutOfMemory};

use crate::refusal::Refusal;
use crate::source::Source;
use esa_analyser::DbRefused;
use esa_batcher::{AddRefused, BatchRefused};
use esa_coins::CoinsRefused;
use esa_encoder::EncodeRefused;
use esa_job::{JobRefused, KeysRefused};
use esa_model::TurnsRefused;
use esa_threshold::ForwardRefused;
use std::alloc::AllocError;

/// Why a command stopped before it began its work.
#[derive(Clone, Copy, PartialEq, Eq, Debug)]
pub enum Stop {
    /// What was given is refused.
    Refused(Refusal),
    /// A file could not be read.
    Unread(Source),
    /// Memory ran out.
    OutOfMemory,
}

impl From<AllocError> for Stop {
    ghost from_gives = { λ _ stop. stop ≡ OutOfMemory };

    fn from(_: AllocError) -> Stop {
        Stop::OutOfMemory
    }
}

impl From<JobRefused> for Stop {
    ghost from_gives = { λ refused stop. stop ≡ stop_of_job refused };

    fn from(refused: JobRefused) -> Stop {
        match refused {
            JobRefused::Field(field) => Stop::Refused(Refusal::Job(field)),
            JobRefused::Params(field) => Stop::Refused(Refusal::Params(field)),
            JobRefused::OutOfMemory => Stop::OutOfMemory,
        }
    }
}

impl From<KeysRefused> for Stop {
    ghost from_gives = { λ refused stop. stop ≡ stop_of_keys refused };

    fn from(refused: KeysRefused) -> Stop {
        match refused {
            KeysRefused::Field(field) => Stop::Refused(Refusal::Keys(field)),
            KeysRefused::OutOfMemory => Stop::OutOfMemory,
        }
    }
}

impl From<ForwardRefused> for Stop {
    ghost from_gives = { λ refused stop. stop ≡ stop_of_forward refused };

    fn from(refused: ForwardRefused) -> Stop {
        match refused {
            ForwardRefused::OutOfMemory => Stop::OutOfMemory,
            refused => Stop::Refused(Refusal::Forward(refused)),
        }
    }
}

impl From<DbRefused> for Stop {
    ghost from_gives = { λ refused stop. stop ≡ stop_of_database refused };

    fn from(refused: DbRefused) -> Stop {
        match refused {
            DbRefused::OutOfMemory => Stop::OutOfMemory,
            refused => Stop::Refused(Refusal::Database(refused)),
        }
    }
}

impl From<EncodeRefused> for Stop {
    ghost from_gives = { λ refused stop. stop ≡ stop_of_encode refused };

    fn from(refused: EncodeRefused) -> Stop {
        match refused {
            EncodeRefused::Line(refused) => Stop::Refused(Refusal::Line(refused)),
            EncodeRefused::TooMany { n } => Stop::Refused(Refusal::Lines { n }),
            EncodeRefused::OutOfMemory => Stop::OutOfMemory,
        }
    }
}

impl From<AddRefused> for Stop {
    ghost from_gives = { λ refused stop. stop ≡ stop_of_add refused };

    fn from(refused: AddRefused) -> Stop {
        match refused {
            AddRefused::Line(refused) => Stop::Refused(Refusal::Line(refused)),
            AddRefused::TooMany { n } => Stop::Refused(Refusal::Lines { n }),
            AddRefused::OutOfMemory => Stop::OutOfMemory,
        }
    }
}

impl From<BatchRefused> for Stop {
    ghost from_gives = { λ refused stop. stop ≡ stop_of_batch refused };

    fn from(refused: BatchRefused) -> Stop {
        match refused {
            BatchRefused::OutOfMemory => Stop::OutOfMemory,
            refused => Stop::Refused(Refusal::Batch(refused)),
        }
    }
}

impl From<TurnsRefused> for Stop {
    ghost from_gives = { λ refused stop. stop ≡ stop_of_turns refused };

    fn from(refused: TurnsRefused) -> Stop {
        match refused {
            TurnsRefused::Line(line) => Stop::Refused(Refusal::Turns(line)),
            TurnsRefused::OutOfMemory => Stop::OutOfMemory,
        }
    }
}

impl From<CoinsRefused> for Stop {
    ghost from_gives = { λ refused stop. stop ≡ stop_of_coins refused };

    fn from(refused: CoinsRefused) -> Stop {
        match refused {
            CoinsRefused::OutOfMemory => Stop::OutOfMemory,
            refused => Stop::Refused(Refusal::Coins(refused)),
        }
    }
}
