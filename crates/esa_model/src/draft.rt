//! Lists of turns in the making.

ghost use Rattle.std.specs.Prelude.{◌≡◌, ◌≤◌, true, OnOk, IfOk};
ghost use Rattle.esa_model.specs.Drafts.{none_begun, lists_of, with_word, can_come, turns_in};

use crate::turns::Turns;
use crate::word::Word;
use esa_params::MOST_TURNS;
use std::alloc::{AllocError, Global};
use std::marker::Model;
use std::mem;

/// The lists that are ended, and the one that goes on.
#[derive(Drop)]
pub(crate) struct Draft {
    alloc: Global,
    ended: Vec<Vec<u32>>,
    list: Vec<u32>,
    // The number of turns of all lists.
    turns: u32,
}

impl Model for Draft {
    ghost use Rattle.std.specs.Prelude.{◌≡◌, ◌≤◌, map};
    ghost use Rattle.esa_model.specs.Drafts.{Begun, items_of, turns_in, lists_of};

    ghost Value = { Begun };

    ghost view = { λ d. record { ended = map items_of d.ended.items; list = d.list.items } };

    ghost invariant = { λ d. (d.turns ≡ turns_in (lists_of (record { ended = map items_of d.ended.items; list = d.list.items }))) × (d.turns ≤ 4194304) };
}

impl Draft {
    /// An empty list that goes on.
    pub(crate) fn begin(alloc: Global) -> Draft
        ensures { result ≡ none_begun }
    {
        Draft {
            alloc,
            ended: Vec::new(alloc),
            list: Vec::new(alloc),
            turns: 0,
        }
    }

    /// Whether a word can come, where there are so many attempts.
    pub(crate) fn can_take(&self, word: Word, attempts: u32) -> bool
        ensures { result ≡ can_come attempts self.now word }
    {
        match word {
            Word::Turn(_) => self.turns < MOST_TURNS,
            Word::Next => self.ended.len() + 1 < attempts as usize,
        }
    }

    /// Takes one word more.
    pub(crate) fn take(&mut self, word: Word, attempts: u32) -> Result<(), AllocError>
        requires { can_come attempts self.old word ≡ true }
        ensures ok { OnOk result (self.new ≡ with_word self.old word) }
    {
        match word {
            Word::Turn(worker) => {
                self.list.push(worker)?;
                self.turns += 1;
            }
            Word::Next => {
                self.ended.reserve(1)?;
                let ended = mem::replace(&mut self.list, Vec::new(self.alloc));
                self.ended.push_reserved(ended);
            }
        }
        Ok(())
    }

    /// The lists.
    pub(crate) fn finish(self) -> Result<Turns, AllocError>
        ensures { IfOk result (λ turns. turns ≡ lists_of self) }
    {
        let mut lists = self.ended;
        lists.push(self.list)?;
        Ok(Turns::of(lists))
    }
}
