//! A cabinet whose files lie in memory.

ghost use Rattle.std.specs.Prelude.{◌≡◌, ◌≢◌, ◌+◌, ◌++◌, ◌∷◌, ◌↔◌, Some, List, ℕ, [], length, IfSome, IfNone, IfOk, IsErr, OnOk, OnErr, All};
ghost use Rattle.std.specs.Option.{option_copied};
ghost use Rattle.std.specs.String.{string_bytes};
ghost use Rattle.std.specs.FinMap as map;
ghost use Rattle.esa_outside.specs.Memory.{IsFirstOf, files_of};
ghost use Rattle.std.specs.Option.{option_map};
ghost use Rattle.esa_outside.specs.Files.{Files};
ghost use Rattle.esa_outside.specs.Calls.{IsListed, called, faulted, starved};
ghost use Rattle.esa_outside.specs.Cause.{HasCause};
ghost use Rattle.esa_outside.specs.Heard.{length_of, part_of, started as file_started, added as bytes_added, after};
ghost use Rattle.esa_outside.specs.Told.{IsPart, EndsBefore, HoldsFront};

use crate::heard::{Event, Note};
use crate::log::Log;
use crate::schedule::Schedule;
use crate::{Cabinet, Failed};
use std::alloc::{AllocError, Global};
use std::marker::Model;

/// A file's name and its bytes.
type File = (String, Vec<u8>);

/// Files in memory, and the calls that are to fail. It tells its contents.
#[derive(Drop)]
pub struct MemCabinet {
    files: Vec<File>,
    calls: Schedule,
    heard: Log<Event>,
}

impl Model for MemCabinet {
    ghost use Rattle.esa_outside.specs.Memory.{CabinetInMemory, cabinet_code, files_of};

    ghost Value = { CabinetInMemory };

    ghost coded = { cabinet_code };

    ghost view = { λ a. record { files = files_of a.files.items; calls = a.calls; heard = a.heard.entries } };
}

impl MemCabinet {
    /// A cabinet of these files, whose calls with these numbers fail. Calls are numbered from 1 on. Of two
    /// files of one name the first counts.
    pub fn make(files: Vec<(String, Vec<u8>)>, fails: Vec<u64>) -> MemCabinet
        ensures files { result.files ≡ files_of files.items }
        ensures calls { result.calls ≡ record { fails = fails.items; made = 0; faults = 0; starved = 0 } }
        ensures heard { result.heard ≡ [] }
    {
        MemCabinet {
            files,
            calls: Schedule::make(fails),
            heard: Log::new(),
        }
    }

    /// How many growths found no memory, or 2^64 - 1 if they were more.
    pub fn starved(&self) -> u64
        ensures { result ≡ self.now.calls.starved }
    {
        self.calls.starved()
    }

    /// What a file holds. This is no call of the cabinet, and is not counted.
    pub fn file(&self, name: &str) -> Option<&[u8]>
        ensures { option_copied result ≡ map.get self.now.files name.now }
    {
        find(&self.files, name)
    }

    /// All files, each with its name. Of two of one name the first counts. This is no call of the cabinet, and is not
    /// counted.
    pub fn files(&self) -> &[(String, Vec<u8>)]
        ensures { files_of result.now ≡ self.now.files }
    {
        &self.files
    }

    /// Puts a file in the place of what its name held. This is no call of the cabinet, and is not counted.
    pub fn put(&mut self, name: &str, bytes: &[u8]) -> Result<(), AllocError>
        ensures ok { OnOk result (self.new ≡ record self.old { files = map.insert self.old.files name.now bytes.now }) }
        ensures err { OnErr result (self.new ≡ self.old) }
    {
        let alloc = *self.files.allocator();
        let bytes = Vec::from_slice(alloc, bytes)?;
        lay(alloc, &mut self.files, name, bytes)
    }
}

impl Cabinet for MemCabinet {
    ghost told = { λ cabinet. Some cabinet.files };

    ghost faults = { λ cabinet. cabinet.calls.faults };

    ghost heard = { λ cabinet. cabinet.heard };

    fn faults(&self) -> u64 {
        self.calls.faults()
    }

    fn length(&mut self, name: &str) -> Result<u64, Failed>
        ensures length { IfOk result (λ n. option_map length (map.get self.old.files name.now) ≡ Some n) }
        ensures files { self.new.files ≡ self.old.files }
        ensures heard { self.new.heard ≡ after self.old.heard (λ n. length_of name.now n ∷ []) result }
        ensures cause { HasCause self.old.calls.faults self.new.calls.faults (EndsBefore (map.get self.old.files name.now) 0) result }

        // It fails exactly where its number is listed or the file is not there.
        ensures listed { IsListed self.old.calls → IsErr result × (self.new.calls ≡ faulted (called self.old.calls)) }
        ensures unlisted { (IsListed self.old.calls → ⊥)
            → (IsErr result ↔ EndsBefore (map.get self.old.files name.now) 0) × (self.new.calls ≡ called self.old.calls) }
    {
        if self.calls.is_listed() {
            return Err(Failed);
        }
        match find(&self.files, name) {
            Some(held) => {
                let length = held.len() as u64;
                self.heard = self.heard.then(&Note::LengthOf(name, length));
                Ok(length)
            }
            None => Err(Failed),
        }
    }

    fn read_at(&mut self, name: &str, at: u64, out: &mut [u8]) -> Result<(), Failed>
        ensures bytes { OnOk result (IsPart (map.get self.old.files name.now) at out.new) }
        ensures files { self.new.files ≡ self.old.files }
        ensures heard { self.new.heard ≡ after self.old.heard (λ _. part_of name.now at out.new ∷ []) result }
        ensures cause { HasCause self.old.calls.faults self.new.calls.faults (EndsBefore (map.get self.old.files name.now) (at + length out.old)) result }

        // It fails exactly where its number is listed, or the file is not there or ends before.
        ensures listed { IsListed self.old.calls → IsErr result × (self.new.calls ≡ faulted (called self.old.calls)) }
        ensures unlisted { (IsListed self.old.calls → ⊥)
            → (IsErr result ↔ EndsBefore (map.get self.old.files name.now) (at + length out.old)) × (self.new.calls ≡ called self.old.calls) }
    {
        if self.calls.is_listed() {
            return Err(Failed);
        }
        match find(&self.files, name) {
            Some(held) => {
                copy_part(held, at, out)?;
                self.heard = self.heard.then(&Note::PartOf(name, at, out));
                Ok(())
            }
            None => Err(Failed),
        }
    }

    fn start(&mut self, name: &str) -> Result<(), Failed>
        ensures started { OnOk result (self.new.files ≡ map.insert self.old.files name.now []) }
        ensures failed { OnErr result (self.new.files ≡ self.old.files) }
        ensures heard { self.new.heard ≡ after self.old.heard (λ _. file_started name.now ∷ []) result }
        ensures cause { HasCause self.old.calls.faults self.new.calls.faults ⊥ result }

        // It fails exactly where its number is listed or there is no memory.
        ensures listed { IsListed self.old.calls → IsErr result × (self.new.calls ≡ faulted (called self.old.calls)) }
        ensures unlisted { (IsListed self.old.calls → ⊥)
            → OnOk result (self.new.calls ≡ called self.old.calls) × OnErr result (self.new.calls ≡ starved (called self.old.calls)) }
    {
        if self.calls.is_listed() {
            return Err(Failed);
        }
        let alloc = *self.files.allocator();
        match lay(alloc, &mut self.files, name, Vec::new(alloc)) {
            Ok(()) => {
                self.heard = self.heard.then(&Note::Started(name));
                Ok(())
            }
            Err(_) => {
                self.calls.starve();
                Err(Failed)
            }
        }
    }

    fn append(&mut self, name: &str, bytes: &[u8]) -> Result<(), Failed>
        ensures added { (files : Files) (held : List ℕ) → Some self.old.files ≡ Some files → map.get files name.now ≡ Some held
            → OnOk result (Some self.new.files ≡ Some (map.insert files name.now (held ++ bytes.now))) }
        ensures failed { (files : Files) (held : List ℕ) → Some self.old.files ≡ Some files → map.get files name.now ≡ Some held
            → OnErr result (HoldsFront files name.now (held ++ bytes.now) (Some self.new.files)) }
        ensures kept { OnErr result (self.new.files ≡ self.old.files) }
        ensures heard { self.new.heard ≡ after self.old.heard (λ _. bytes_added name.now bytes.now ∷ []) result }
        ensures cause { HasCause self.old.calls.faults self.new.calls.faults (EndsBefore (map.get self.old.files name.now) 0) result }

        // It fails exactly where its number is listed, the file is not there, or there is no memory.
        ensures listed { IsListed self.old.calls → IsErr result × (self.new.calls ≡ faulted (called self.old.calls)) }
        ensures absent { map.get self.old.files name.now ≡ None → IsErr result }
        ensures unlisted_absent { (IsListed self.old.calls → ⊥) → map.get self.old.files name.now ≡ None → self.new.calls ≡ called self.old.calls }
        ensures unlisted { (IsListed self.old.calls → ⊥) → (held : List ℕ) → map.get self.old.files name.now ≡ Some held
            → OnOk result (self.new.calls ≡ called self.old.calls) × OnErr result (self.new.calls ≡ starved (called self.old.calls)) }
    {
        if self.calls.is_listed() {
            return Err(Failed);
        }
        match extend(&mut self.files, name, bytes) {
            Ok(()) => {
                self.heard = self.heard.then(&Note::Added(name, bytes));
                Ok(())
            }
            Err(NotExtended::Absent) => Err(Failed),
            Err(NotExtended::NoMemory) => {
                self.calls.starve();
                Err(Failed)
            }
        }
    }
}

/// The place of the first file of this name.
fn place_of(files: &[File], name: &str) -> Option<usize>
    ensures found { IfSome result (IsFirstOf name.now files.now) }
    ensures none { IfNone result (All (λ file. string_bytes file.0 ≢ name.now) files.now) }
{
    files.iter().position(|file| file.0.as_str() == name)
}

/// What the file of this name holds.
fn find<'a>(files: &'a [File], name: &str) -> Option<&'a [u8]>
    ensures { option_copied result ≡ map.get (files_of files.now) name.now }
{
    match place_of(files, name) {
        Some(place) => Some(&files[place].1),
        None => None,
    }
}

/// Fills `out` with the bytes from the place `at` on, unless they end before.
fn copy_part(held: &[u8], at: u64, out: &mut [u8]) -> Result<(), Failed>
    ensures bytes { OnOk result (IsPart (Some held.now) at out.new) }
    ensures failed { IsErr result ↔ EndsBefore (Some held.now) (at + length out.old) }
{
    let at = at as usize;
    if at > held.len() || held.len() - at < out.len() {
        return Err(Failed);
    }
    out.copy_from_slice(&held[at..at + out.len()]);
    Ok(())
}

/// Puts bytes in the place of those of a file.
fn replace(file: &mut File, bytes: Vec<u8>)
    ensures name { string_bytes file.new.0 ≡ string_bytes file.old.0 }
    ensures bytes { file.new.1.items ≡ bytes.items }
{
    file.1 = bytes;
}

/// Puts a file in the place of what its name held.
fn lay(alloc: Global, files: &mut Vec<File>, name: &str, bytes: Vec<u8>) -> Result<(), AllocError>
    ensures ok { OnOk result (files_of files.new.items ≡ map.insert (files_of files.old.items) name.now bytes.items) }
    ensures err { OnErr result (files_of files.new.items ≡ files_of files.old.items) }
{
    match place_of(files, name) {
        Some(place) => {
            replace(&mut files[place], bytes);
            Ok(())
        }
        None => {
            let name = String::from_str(alloc, name)?;
            files.push((name, bytes))?;
            Ok(())
        }
    }
}

/// Why no bytes were added to a file.
#[derive(Clone, Copy)]
enum NotExtended {
    Absent,
    NoMemory,
}

/// Adds bytes at a file's end.
fn grow(file: &mut File, bytes: &[u8]) -> Result<(), AllocError>
    ensures name { string_bytes file.new.0 ≡ string_bytes file.old.0 }
    ensures ok { OnOk result (file.new.1.items ≡ file.old.1.items ++ bytes.now) }
    ensures err { OnErr result (file.new.1.items ≡ file.old.1.items) }
{
    file.1.extend_from_slice(bytes)
}

/// Adds bytes at the end of the file of this name.
fn extend(files: &mut Vec<File>, name: &str, bytes: &[u8]) -> Result<(), NotExtended>
    ensures added { (held : List ℕ) → map.get (files_of files.old.items) name.now ≡ Some held
        → OnOk result (files_of files.new.items ≡ map.insert (files_of files.old.items) name.now (held ++ bytes.now)) }
    ensures absent { (result ≡ Err NotExtended.Absent) ↔ (map.get (files_of files.old.items) name.now ≡ None) }
    ensures err { OnErr result (files_of files.new.items ≡ files_of files.old.items) }
{
    match place_of(files, name) {
        Some(place) => match grow(&mut files[place], bytes) {
            Ok(()) => Ok(()),
            Err(_) => Err(NotExtended::NoMemory),
        },
        None => Err(NotExtended::Absent),
    }
}
