//! A printer that keeps what it printed in memory.

ghost use Rattle.std.specs.Prelude.{◌≡◌, ◌++◌, ◌∷◌, Some, List, ℕ, [], IsErr, OnOk, OnErr};
ghost use Rattle.esa_outside.specs.Calls.{IsListed, called, faulted, starved};
ghost use Rattle.esa_outside.specs.Cause.{HasCause};
ghost use Rattle.esa_outside.specs.Heard.{printed as text_printed, after};
ghost use Rattle.esa_outside.specs.Told.{line_of, AddsFront};

use crate::heard::{Event, Note};
use crate::log::Log;
use crate::schedule::Schedule;
use crate::{Failed, Printer};
use std::marker::Model;

/// Printed bytes in memory, and the calls that are to fail. It tells what was printed.
#[derive(Drop)]
pub struct MemPrinter {
    printed: Vec<u8>,
    calls: Schedule,
    heard: Log<Event>,
}

impl Model for MemPrinter {
    ghost use Rattle.esa_outside.specs.Memory.{PrinterInMemory, printer_code};

    ghost Value = { PrinterInMemory };

    ghost coded = { printer_code };

    ghost view = { λ a. record { printed = a.printed.items; calls = a.calls; heard = a.heard.entries } };
}

impl MemPrinter {
    /// A printer that has printed nothing, whose calls with these numbers fail. Calls are numbered from 1
    /// on.
    pub fn make(fails: Vec<u64>) -> MemPrinter
        ensures printed { result.printed ≡ [] }
        ensures calls { result.calls ≡ record { fails = fails.items; made = 0; faults = 0; starved = 0 } }
        ensures heard { result.heard ≡ [] }
    {
        MemPrinter {
            printed: Vec::new(*fails.allocator()),
            calls: Schedule::make(fails),
            heard: Log::new(),
        }
    }

    /// How many growths found no memory, or 2^64 - 1 if they were more.
    pub fn starved(&self) -> u64
        ensures { result ≡ self.now.calls.starved }
    {
        self.calls.starved()
    }

    /// All bytes printed so far.
    pub fn printed(&self) -> &[u8]
        ensures { result.now ≡ self.now.printed }
    {
        &self.printed
    }
}

impl Printer for MemPrinter {
    ghost told = { λ printer. Some printer.printed };

    ghost faults = { λ printer. printer.calls.faults };

    ghost heard = { λ printer. printer.heard };

    fn faults(&self) -> u64 {
        self.calls.faults()
    }

    fn line(&mut self, text: &[u8]) -> Result<(), Failed>
        ensures printed { OnOk result (self.new.printed ≡ self.old.printed ++ line_of text.now) }
        ensures failed { (bytes : List ℕ) → Some self.old.printed ≡ Some bytes → OnErr result (AddsFront bytes (line_of text.now) (Some self.new.printed)) }
        ensures heard { self.new.heard ≡ after self.old.heard (λ _. text_printed text.now ∷ []) result }
        ensures cause { HasCause self.old.calls.faults self.new.calls.faults ⊥ result }

        // It fails exactly where its number is listed or there is no memory.
        ensures listed { IsListed self.old.calls → IsErr result × (self.new.calls ≡ faulted (called self.old.calls)) }
        ensures unlisted { (IsListed self.old.calls → ⊥)
            → OnOk result (self.new.calls ≡ called self.old.calls) × OnErr result (self.new.calls ≡ starved (called self.old.calls)) }
    {
        if self.calls.is_listed() {
            return Err(Failed);
        }
        match print(&mut self.printed, text) {
            Ok(()) => {
                self.heard = self.heard.then(&Note::Printed(text));
                Ok(())
            }
            Err(_) => {
                self.calls.starve();
                Err(Failed)
            }
        }
    }
}

/// Adds a text and a newline, or a front of that where there is no memory.
fn print(printed: &mut Vec<u8>, text: &[u8]) -> Result<(), Failed>
    ensures ok { OnOk result (printed.new.items ≡ printed.old.items ++ line_of text.now) }
    ensures err { OnErr result (AddsFront printed.old.items (line_of text.now) (Some printed.new.items)) }
{
    match printed.extend_from_slice(text) {
        Ok(()) => match printed.push(b'\n') {
            Ok(()) => Ok(()),
            Err(_) => Err(Failed),
        },
        Err(_) => Err(Failed),
    }
}
