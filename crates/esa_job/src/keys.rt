//! Keys: those that a command needs, read from a JSON object.

ghost use Rattle.std.specs.Prelude.{◌≡◌, ◌≤◌, length};
ghost use Rattle.serde_json.specs.View.{view};
ghost use Rattle.esa_job.specs.Word.{key_word};
ghost use Rattle.esa_job.specs.Keys.{needs_key, key_at, is_bad_key, first_bad_key};

use crate::command::Command;
use crate::value::key_in;
use esa_json::read_object;
use serde_json::Value;
use std::alloc::Global;
use std::marker::Model;

/// A key of a keys file, or the file as a whole.
#[derive(Clone, Copy, PartialEq, Eq, Debug)]
pub enum KeyField {
    /// The file itself: a JSON object.
    Keys,
    /// The master of outer envelopes.
    Outer,
    /// The master of inner envelopes.
    Inner,
    /// The key that decides which records are dropped.
    Drop,
    /// The master of the blocks of a run.
    Run,
    /// The key that shares are made from.
    Share,
    /// The second shuffler's master of outer envelopes.
    Second,
}

/// Why a keys file was refused.
#[derive(Clone, Copy, PartialEq, Eq, Debug)]
pub enum KeysRefused {
    /// The first needed key that is missing or is no text of 64 hexadecimal digits, or `Keys` where the file is no
    /// JSON object.
    Field(KeyField),
    /// There was no memory.
    OutOfMemory,
}

impl KeyField {
    /// The keys, in the order in which they are looked at.
    pub const IN_ORDER: [KeyField; 6] = [
        KeyField::Outer,
        KeyField::Inner,
        KeyField::Drop,
        KeyField::Run,
        KeyField::Share,
        KeyField::Second,
    ];

    /// The key's name: 3 to 6 bytes.
    pub fn word(self) -> &'static str
        ensures word { result.now ≡ key_word self }
        ensures short { length result.now ≤ 6 }
    {
        match self {
            KeyField::Keys => "keys",
            KeyField::Outer => "outer",
            KeyField::Inner => "inner",
            KeyField::Drop => "drop",
            KeyField::Run => "run",
            KeyField::Share => "share",
            KeyField::Second => "second",
        }
    }

    /// Whether the command needs the key; `shares` says whether an encode job has shares.
    fn is_needed(self, command: Command, shares: bool) -> bool
        ensures { result ≡ needs_key command shares self }
    {
        match self {
            KeyField::Keys => false,
            KeyField::Outer => match command {
                Command::Encode | Command::Shuffle | Command::Run | Command::Relay => true,
                _ => false,
            },
            KeyField::Inner => match command {
                Command::Encode | Command::Run | Command::Analyse => true,
                _ => false,
            },
            KeyField::Drop => match command {
                Command::Shuffle | Command::Run => true,
                _ => false,
            },
            KeyField::Run => match command {
                Command::Shuffle | Command::Run | Command::Relay => true,
                _ => false,
            },
            KeyField::Share => match command {
                Command::Encode => shares,
                _ => false,
            },
            KeyField::Second => match command {
                Command::Relay => true,
                _ => false,
            },
        }
    }
}

/// The keys that a command needs.
#[derive(Drop)]
pub struct KeyRing {
    outer: Option<[u8; 32]>,
    inner: Option<[u8; 32]>,
    drop_key: Option<[u8; 32]>,
    run: Option<[u8; 32]>,
    share: Option<[u8; 32]>,
    second: Option<[u8; 32]>,
}

impl Model for KeyRing {
    ghost use Rattle.esa_job.specs.Keys.{Ring};

    ghost Value = { Ring };

    ghost view = { λ ring. record { outer = ring.outer; inner = ring.inner; drop_key = ring.drop_key; run = ring.run; share = ring.share; second = ring.second } };
}

impl KeyRing {
    ghost use Rattle.std.specs.Prelude.{◌⊎◌, true, Some, IsSome, IfOk, IfErr};
    ghost use Rattle.esa_job.specs.Keys.{keys_of, key_of, ring_of};

    /// Reads the keys that a command needs from the bytes of a keys file.
    ///
    /// `shares` says whether an encode job has shares, which need a key of their own. A keys file is refused at the
    /// first key, in the order of `KeyField`, that is needed and is missing or no text of 64 hexadecimal digits of
    /// either case.
    pub fn read(
        alloc: Global,
        command: Command,
        shares: bool,
        bytes: &[u8],
    ) -> Result<KeyRing, KeysRefused>
        ensures ok { IfOk result (λ ring. keys_of command shares bytes.now ≡ Ok ring) }
        ensures err { IfErr result (λ e. (e ≡ KeysRefused.OutOfMemory)
            ⊎ (keys_of command shares bytes.now ≡ Err e)) }
        ensures needed { IfOk result (λ ring. (key : KeyField)
            → needs_key command shares key ≡ true → IsSome (key_of ring key)) }
    {
        let object = match read_object(alloc, bytes) {
            Ok(Some(object)) => object,
            Ok(None) => return Err(KeysRefused::Field(KeyField::Keys)),
            Err(_) => return Err(KeysRefused::OutOfMemory),
        };
        match first_bad(command, shares, &object) {
            Some(field) => Err(KeysRefused::Field(field)),
            None => Ok(KeyRing::of(command, shares, &object)),
        }
    }

    /// The keys that the command needs, as far as they are there.
    fn of(command: Command, shares: bool, object: &Value) -> KeyRing
        ensures { result ≡ ring_of command shares (view object.now) }
    {
        KeyRing {
            outer: key(command, shares, object, KeyField::Outer),
            inner: key(command, shares, object, KeyField::Inner),
            drop_key: key(command, shares, object, KeyField::Drop),
            run: key(command, shares, object, KeyField::Run),
            share: key(command, shares, object, KeyField::Share),
            second: key(command, shares, object, KeyField::Second),
        }
    }

    /// The master of outer envelopes.
    pub fn outer(&self) -> [u8; 32]
        requires { IsSome self.now.outer }
        ensures { self.now.outer ≡ Some result }
    {
        self.outer.unwrap()
    }

    /// The master of inner envelopes.
    pub fn inner(&self) -> [u8; 32]
        requires { IsSome self.now.inner }
        ensures { self.now.inner ≡ Some result }
    {
        self.inner.unwrap()
    }

    /// The key that decides which records are dropped.
    pub fn drop_key(&self) -> [u8; 32]
        requires { IsSome self.now.drop_key }
        ensures { self.now.drop_key ≡ Some result }
    {
        self.drop_key.unwrap()
    }

    /// The master of the blocks of a run.
    pub fn run(&self) -> [u8; 32]
        requires { IsSome self.now.run }
        ensures { self.now.run ≡ Some result }
    {
        self.run.unwrap()
    }

    /// The key that shares are made from.
    pub fn share(&self) -> [u8; 32]
        requires { IsSome self.now.share }
        ensures { self.now.share ≡ Some result }
    {
        self.share.unwrap()
    }

    /// The second shuffler's master of outer envelopes.
    pub fn second(&self) -> [u8; 32]
        requires { IsSome self.now.second }
        ensures { self.now.second ≡ Some result }
    {
        self.second.unwrap()
    }
}

/// A key that is needed: nothing where it isn't there, or is no text of 64 hexadecimal digits.
fn key(command: Command, shares: bool, object: &Value, field: KeyField) -> Option<[u8; 32]>
    ensures { result ≡ key_at command shares (view object.now) field }
{
    if field.is_needed(command, shares) {
        key_in(object.get(field.word())?)
    } else {
        None
    }
}

fn is_bad(command: Command, shares: bool, object: &Value, field: KeyField) -> bool
    ensures { result ≡ is_bad_key command shares (view object.now) field }
{
    field.is_needed(command, shares) && key(command, shares, object, field).is_none()
}

/// The first needed key that is missing or ill-typed.
#[tactic(auto, unfolding(crate::specs::Keys::first_bad_key, crate::specs::Keys::key_fields))]
fn first_bad(command: Command, shares: bool, object: &Value) -> Option<KeyField>
    ensures { result ≡ first_bad_key command shares (view object.now) }
{
    KeyField::IN_ORDER
        .iter()
        .copied()
        .find(|field| is_bad(command, shares, object, *field))
}
