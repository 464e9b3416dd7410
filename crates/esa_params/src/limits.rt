//! The limits, each of which stands here once. A definition states its limit as a number of its own.

ghost use Rattle.std.specs.Prelude.{◌≡◌};
ghost use Rattle.esa_params.specs.declared.limits.TheConstants.{MOST_RECORDS, MOST_CROWDS, MOST_OF_A_CROWD, MOST_BUCKETS, MOST_OF_A_CHUNK, MOST_OF_THE_STASH, MOST_OF_A_TAIL, MOST_OF_THE_QUEUE, MOST_IN_THE_MIDDLE, MOST_WORKERS, MOST_ATTEMPTS, MOST_TURNS, GREATEST_EPOCH, MOST_SHARES, MOST_INPUTS, MOST_OF_A_NAME, MOST_JOB_BYTES, MOST_COINS_BYTES, MOST_SUBMISSION_BYTES, MOST_RECORD_BYTES, MOST_TRACE_BYTES};

/// The most records of a batch, and the most lines of a file of reports or of submissions.
pub const MOST_RECORDS: u32 = 262_144;

/// The most crowds that are generated.
pub const MOST_CROWDS: u32 = 65_536;

/// The most reports of a crowd that a drop can be, and that a threshold can ask for.
pub const MOST_OF_A_CROWD: u32 = 262_144;

/// The most buckets.
pub const MOST_BUCKETS: u64 = 256;

/// The most items of a chunk.
pub const MOST_OF_A_CHUNK: u64 = 1_024;

/// The most items that a stash holds.
pub const MOST_OF_THE_STASH: u64 = 262_144;

/// The most items of a tail.
pub const MOST_OF_A_TAIL: u64 = 4_096;

/// The most items that the window's queue holds.
pub const MOST_OF_THE_QUEUE: u64 = 1_048_576;

/// The most items of the chunks and the tails together.
pub const MOST_IN_THE_MIDDLE: u64 = 4_194_304;

/// The most workers.
pub const MOST_WORKERS: u64 = 16;

/// The most attempts.
pub const MOST_ATTEMPTS: u64 = 16;

/// The most turns of a file of turns, all attempts together.
pub const MOST_TURNS: u32 = 4_194_304;

/// The greatest key epoch.
pub const GREATEST_EPOCH: u32 = 4_294_967_295;

/// The most shares that give a value.
pub const MOST_SHARES: u32 = 16;

/// The most files that are read into one batch.
pub const MOST_INPUTS: usize = 16;

/// The most bytes of the name of a file.
pub const MOST_OF_A_NAME: usize = 255;

/// The most bytes of a file of a job, keys or drops.
pub const MOST_JOB_BYTES: u64 = 65_536;

/// The most bytes of a file of turns or coins.
pub const MOST_COINS_BYTES: u64 = 16_777_216;

/// The most bytes of a file of submissions.
pub const MOST_SUBMISSION_BYTES: u64 = 268_435_456;

/// The most bytes of a file of reports, a batch, a forward file or a database.
pub const MOST_RECORD_BYTES: u64 = 134_217_728;

/// The most bytes of a file of a trace.
pub const MOST_TRACE_BYTES: u64 = 67_108_864;

/// The limits, as numbers. What else cites a constant of this file means this number.
pub fn limits_are_stated()
    ensures records { MOST_RECORDS ≡ 262144 }
    ensures crowds { MOST_CROWDS ≡ 65536 }
    ensures of_a_crowd { MOST_OF_A_CROWD ≡ 262144 }
    ensures buckets { MOST_BUCKETS ≡ 256 }
    ensures chunk { MOST_OF_A_CHUNK ≡ 1024 }
    ensures stash { MOST_OF_THE_STASH ≡ 262144 }
    ensures tail { MOST_OF_A_TAIL ≡ 4096 }
    ensures queue { MOST_OF_THE_QUEUE ≡ 1048576 }
    ensures middle { MOST_IN_THE_MIDDLE ≡ 4194304 }
    ensures workers { MOST_WORKERS ≡ 16 }
    ensures attempts { MOST_ATTEMPTS ≡ 16 }
    ensures turns { MOST_TURNS ≡ 4194304 }
    ensures epoch { GREATEST_EPOCH ≡ 4294967295 }
    ensures shares { MOST_SHARES ≡ 16 }
    ensures inputs { MOST_INPUTS ≡ 16 }
    ensures name { MOST_OF_A_NAME ≡ 255 }
    ensures job_bytes { MOST_JOB_BYTES ≡ 65536 }
    ensures coins_bytes { MOST_COINS_BYTES ≡ 16777216 }
    ensures submission_bytes { MOST_SUBMISSION_BYTES ≡ 268435456 }
    ensures record_bytes { MOST_RECORD_BYTES ≡ 134217728 }
    ensures trace_bytes { MOST_TRACE_BYTES ≡ 67108864 }
{}
