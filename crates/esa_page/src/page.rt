//! The page.

ghost use Rattle.std.specs.Prelude.{◌≡◌, ◌+◌, ◌≤◌, ◌++◌, ◌∷◌, List, [], ℕ, Option, length, IfOk, OnOk, OnErr};
ghost use Rattle.esa_outside.specs.Files.{Files};
ghost use Rattle.esa_outside.specs.Cause.{HasCause};
ghost use Rattle.esa_outside.specs.Heard.{Event, started as file_started, after};
ghost use Rattle.esa_page.specs.Underway.{IsUnderway, IsWhole, IsLeft};
ghost use Rattle.esa_page.specs.Writing.{IsWriting, HasWritten, HasBroken};

use esa_outside::{Cabinet, Failed};
use std::marker::Model;

/// The length of a page, in bytes.
pub const PAGE: usize = 4096;

/// The bytes that wait for their file.
#[derive(Drop)]
pub struct Page {
    bytes: [u8; PAGE],
    filled: usize,
}

impl Model for Page {
    ghost use Rattle.std.specs.Prelude.{◌≡◌, ◌≤◌, List, ℕ, length, take};
    ghost use Rattle.esa_page.specs.declared.page.TheConstants.{PAGE};

    ghost Value = { List ℕ };

    ghost view = { λ page. take page.filled page.bytes };

    ghost invariant = { λ page. (page.filled ≤ PAGE) × (length page.bytes ≡ PAGE) };
}

impl Page {
    /// An empty page.
    fn empty() -> Self
        ensures { result ≡ [] }
    {
        Page {
            bytes: [0; PAGE],
            filled: 0,
        }
    }

    /// How many bytes wait.
    fn len(&self) -> usize
        ensures number { result ≡ length self.now }
        ensures inside { result ≤ PAGE }
    {
        self.filled
    }

    /// The bytes that wait.
    fn waiting(&self) -> &[u8]
        ensures { result.now ≡ self.now }
    {
        &self.bytes[..self.filled]
    }

    /// Adds bytes for which there is room.
    fn add(&mut self, bytes: &[u8])
        requires { length self.old + length bytes.now ≤ PAGE }
        ensures { self.new ≡ self.old ++ bytes.now }
    {
        let end = self.filled + bytes.len();
        self.bytes[self.filled..end].copy_from_slice(bytes);
        self.filled = end;
    }

    /// Forgets the bytes that wait.
    fn clear(&mut self)
        ensures { self.new ≡ [] }
    {
        self.filled = 0;
    }
}

impl Page {
    /// Sends what waits to the end of the file.
    fn send<K: Cabinet>(&mut self, cabinet: &mut K, name: &str) -> Result<(), Failed>
        ensures sent { (before : Option Files) (text : List ℕ)
            → IsUnderway before name.now text self.old (K.told cabinet.old)
            → OnOk result (IsUnderway before name.now text self.new (K.told cabinet.new)) }
        ensures heard { (before : List Event) (text : List ℕ)
            → IsWriting before name.now text self.old (K.heard cabinet.old)
            → OnOk result (IsWriting before name.now text self.new (K.heard cabinet.new)) }
        ensures heard_broken { (before : List Event) (text : List ℕ)
            → IsWriting before name.now text self.old (K.heard cabinet.old)
            → OnErr result (HasBroken before name.now text (K.heard cabinet.new)) }
        ensures empty { OnOk result (self.new ≡ []) }
        ensures failed { (before : Option Files) (text : List ℕ)
            → IsUnderway before name.now text self.old (K.told cabinet.old)
            → OnErr result (IsLeft before name.now text (K.told cabinet.new)) }
        ensures cause { (before : Option Files) (text : List ℕ)
            → IsUnderway before name.now text self.old (K.told cabinet.old)
            → HasCause (K.faults cabinet.old) (K.faults cabinet.new) ⊥ result }
    {
        cabinet.append(name, self.waiting())?;
        self.clear();
        Ok(())
    }

    /// Starts the file: it is empty, and nothing waits.
    pub fn start<K: Cabinet>(cabinet: &mut K, name: &str) -> Result<Page, Failed>
        ensures started { IfOk result (λ page. IsUnderway (K.told cabinet.old) name.now [] page (K.told cabinet.new)) }
        ensures heard { IfOk result (λ page. IsWriting (K.heard cabinet.old) name.now [] page (K.heard cabinet.new)) }
        ensures heard_broken { OnErr result (HasBroken (K.heard cabinet.old) name.now [] (K.heard cabinet.new)) }
        ensures heard_start { K.heard cabinet.new ≡ after (K.heard cabinet.old) (λ _. file_started name.now ∷ []) result }
        ensures failed { OnErr result (IsLeft (K.told cabinet.old) name.now [] (K.told cabinet.new)) }
        ensures cause { HasCause (K.faults cabinet.old) (K.faults cabinet.new) ⊥ result }
    {
        cabinet.start(name)?;
        Ok(Page::empty())
    }

    /// Puts bytes behind those that wait, and sends those first where there is no room.
    ///
    /// The clauses speak of a file whose text so far is `text`, in a cabinet that told `before`, or was heard to have
    /// given and taken `before`, when the file was started.
    pub fn put<K: Cabinet>(
        &mut self,
        cabinet: &mut K,
        name: &str,
        bytes: &[u8],
    ) -> Result<(), Failed>
        requires { length bytes.now ≤ PAGE }
        ensures added { (before : Option Files) (text : List ℕ)
            → IsUnderway before name.now text self.old (K.told cabinet.old)
            → OnOk result (IsUnderway before name.now (text ++ bytes.now) self.new (K.told cabinet.new)) }
        ensures heard { (before : List Event) (text : List ℕ)
            → IsWriting before name.now text self.old (K.heard cabinet.old)
            → OnOk result (IsWriting before name.now (text ++ bytes.now) self.new (K.heard cabinet.new)) }
        ensures heard_broken { (before : List Event) (text : List ℕ)
            → IsWriting before name.now text self.old (K.heard cabinet.old)
            → OnErr result (HasBroken before name.now text (K.heard cabinet.new)) }
        ensures failed { (before : Option Files) (text : List ℕ)
            → IsUnderway before name.now text self.old (K.told cabinet.old)
            → OnErr result (IsLeft before name.now text (K.told cabinet.new)) }
        ensures cause { (before : Option Files) (text : List ℕ)
            → IsUnderway before name.now text self.old (K.told cabinet.old)
            → HasCause (K.faults cabinet.old) (K.faults cabinet.new) ⊥ result }
    {
        if PAGE - self.len() < bytes.len() {
            self.send(cabinet, name)?;
        }
        self.add(bytes);
        Ok(())
    }

    /// Sends what still waits. The file is then whole.
    pub fn finish<K: Cabinet>(mut self, cabinet: &mut K, name: &str) -> Result<(), Failed>
        ensures whole { (before : Option Files) (text : List ℕ)
            → IsUnderway before name.now text self (K.told cabinet.old)
            → OnOk result (IsWhole before name.now text (K.told cabinet.new)) }
        ensures heard { (before : List Event) (text : List ℕ)
            → IsWriting before name.now text self (K.heard cabinet.old)
            → OnOk result (HasWritten before name.now text (K.heard cabinet.new)) }
        ensures heard_broken { (before : List Event) (text : List ℕ)
            → IsWriting before name.now text self (K.heard cabinet.old)
            → OnErr result (HasBroken before name.now text (K.heard cabinet.new)) }
        ensures failed { (before : Option Files) (text : List ℕ)
            → IsUnderway before name.now text self (K.told cabinet.old)
            → OnErr result (IsLeft before name.now text (K.told cabinet.new)) }
        ensures cause { (before : Option Files) (text : List ℕ)
            → IsUnderway before name.now text self (K.told cabinet.old)
            → HasCause (K.faults cabinet.old) (K.faults cabinet.new) ⊥ result }
    {
        if self.len() > 0 {
            self.send(cabinet, name)?;
        }
        Ok(())
    }
}
