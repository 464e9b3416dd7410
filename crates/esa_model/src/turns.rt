//! The turns that are handed in for a shuffle.

ghost use Rattle.std.specs.Prelude.{◌≡◌, ◌≤◌, ◌⊎◌, [], List, ℕ, length, map, slice_index_or, MatchResult, IfOk, IsTrue, ◌↔◌, Ok, Err};
ghost use Rattle.esa_model.specs.Drafts.{items_of, turns_in};
ghost use Rattle.esa_model.specs.Turns.{turns_of, AreWorkers, CanRead};
ghost use Rattle.esa_spec.specs.Files.{turns_bytes};

use crate::draft::Draft;
use crate::word::word_of;
use esa_bytes::split_line;
use std::alloc::{AllocError, Global};
use std::marker::Model;

/// Why a turns file is refused.
#[derive(Clone, Copy, PartialEq, Eq, Debug)]
pub enum TurnsRefused {
    /// The first line that can't be read, counted from 1: one that is neither a worker's number nor the word `next`, a
    /// `next` that would begin a list beyond the number of attempts, or the first worker's line past 4,194,304 of them.
    Line(u64),
    /// There is no memory for the turns.
    OutOfMemory,
}

impl From<AllocError> for TurnsRefused {
    ghost use Rattle.std.specs.Prelude.{◌≡◌};
    ghost use Rattle.esa_model.specs.declared.turns.TurnsRefused.TheVariants.{OutOfMemory};

    ghost from_gives = { λ _ refused. refused ≡ OutOfMemory };

    fn from(_: AllocError) -> Self {
        TurnsRefused::OutOfMemory
    }
}

/// A list of turns for each attempt of a shuffle, where a turn is the number of the worker that makes it. An attempt
/// without a list has the empty one.
#[derive(Drop)]
pub struct Turns {
    lists: Vec<Vec<u32>>,
}

impl Model for Turns {
    ghost use Rattle.std.specs.Prelude.{ℕ, List, ◌≤◌, map};
    ghost use Rattle.esa_model.specs.Drafts.{items_of, turns_in};

    ghost Value = { List (List ℕ) };

    ghost view = { λ turns. map items_of turns.lists.items };

    ghost invariant = { λ turns. turns_in (map items_of turns.lists.items) ≤ 4194304 };
}

impl Turns {
    /// No list. This takes no memory.
    pub fn none(alloc: Global) -> Turns
        ensures { result ≡ [] }
    {
        Turns {
            lists: Vec::new(alloc),
        }
    }

    /// Reads the lists of a turns file, for so many workers and attempts. Each line is the number of a worker in
    /// decimal, or the word `next`, which ends a list and begins the next one.
    pub fn read(
        alloc: Global,
        bytes: &[u8],
        workers: u32,
        attempts: u32,
    ) -> Result<Turns, TurnsRefused>
        ensures first_refusal { MatchResult result (λ turns. turns_of workers attempts bytes.now ≡ Ok turns)
            (λ refused. (refused ≡ TurnsRefused.OutOfMemory) ⊎ (turns_of workers attempts bytes.now ≡ Err refused)) }
        ensures workers { IfOk result (AreWorkers workers) }

        // The file of any lists that a file can say is read back as these lists, but for want of memory.
        ensures reads_back { (lists : List (List ℕ)) → CanRead workers attempts lists → bytes.now ≡ turns_bytes lists
            → MatchResult result (λ turns. turns ≡ lists) (λ refused. refused ≡ TurnsRefused.OutOfMemory) }
    {
        Turns::read_lines(alloc, bytes, workers, attempts)
    }

    /// Reads the lists of a turns file line by line.
    #[tactic(auto, using(crate::proofs::TurnLemmas::begun_with_word, crate::proofs::TurnLemmas::workers_begun, crate::proofs::TurnLemmas::none_begun_workers, crate::proofs::Reading::read_all))]
    fn read_lines(
        alloc: Global,
        bytes: &[u8],
        workers: u32,
        attempts: u32,
    ) -> Result<Turns, TurnsRefused>
        ensures first_refusal { MatchResult result (λ turns. turns_of workers attempts bytes.now ≡ Ok turns)
            (λ refused. (refused ≡ TurnsRefused.OutOfMemory) ⊎ (turns_of workers attempts bytes.now ≡ Err refused)) }
        ensures workers { IfOk result (AreWorkers workers) }
    {
        let mut draft = Draft::begin(alloc);
        let mut rest = bytes;
        let mut number = 1;
        while let Some((line, behind)) = split_line(rest) {
            match word_of(line, workers) {
                Some(word) if draft.can_take(word, attempts) => draft.take(word, attempts)?,
                _ => return Err(TurnsRefused::Line(number)),
            }
            rest = behind;
            number += 1;
        }
        Ok(draft.finish()?)
    }

    /// These lists, of 4,194,304 turns at most.
    pub(crate) fn of(lists: Vec<Vec<u32>>) -> Turns
        requires { turns_in (map items_of lists.items) ≤ 4194304 }
        ensures { result ≡ map items_of lists.items }
    {
        Turns { lists }
    }

    /// The number of lists.
    pub fn len(&self) -> usize
        ensures { result ≡ length self.now }
    {
        self.lists.len()
    }

    /// Whether there is no list.
    pub fn is_empty(&self) -> bool
        ensures { IsTrue result ↔ (self.now ≡ []) }
    {
        self.lists.is_empty()
    }

    /// The list of an attempt.
    pub fn list(&self, attempt: u32) -> &[u32]
        ensures value { result.now ≡ slice_index_or self.now attempt [] }
        ensures few { length result.now ≤ 4194304 }
    {
        match self.lists.get(attempt as usize) {
            Some(list) => list.as_slice(),
            None => &[],
        }
    }
}
