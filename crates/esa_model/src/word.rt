//! The lines of a turns file.

ghost use Rattle.std.specs.Prelude.{◌≡◌, IfSome};
ghost use Rattle.esa_model.specs.Words.{word_in, turn_of, IsTurnOf};

use esa_bytes::decimal;

/// What a line of a turns file says.
#[derive(Clone, Copy, PartialEq, Eq, Debug)]
pub(crate) enum Word {
    /// A turn of this worker.
    Turn(u32),
    /// The next list begins.
    Next,
}

/// What a line says. A turn is the number of one of so many workers, in decimal.
pub(crate) fn word_of(line: &[u8], workers: u32) -> Option<Word>
    ensures value { result ≡ word_in workers line.now }
    ensures turn { IfSome result (IsTurnOf workers) }
{
    if line == b"next".as_slice() {
        return Some(Word::Next);
    }
    match decimal(line) {
        Some(worker) => turn_of(worker, workers),
        None => None,
    }
}

/// The turn of a worker, where there are so many.
fn turn_of(worker: u64, workers: u32) -> Option<Word>
    ensures value { result ≡ turn_of workers worker }
    ensures turn { IfSome result (IsTurnOf workers) }
{
    if worker < u64::from(workers) {
        Some(Word::Turn(worker as u32))
    } else {
        None
    }
}
