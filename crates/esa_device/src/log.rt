//! What a recorder notes of the accesses to its device, for proofs alone.

ghost use Rattle.std.specs.Prelude.{◌≡◌, [], ◌∷◌, ◌++◌};
ghost use Rattle.esa_device.specs.Logs.{carried_by};

use esa_outside::{Failed, Log, Noted};
use esa_params::Access;
use std::marker::Model;
use std::mem::size_of;

/// An access, and the bytes that it gave or took, unless it failed. No value of it is ever made: contracts see the
/// entries of a log as such records.
pub(crate) struct Carried {
    access: Access,
    bytes: Option<Vec<u8>>,
}

impl Model for Carried {
    ghost use Rattle.std.specs.Option.{option_map};
    ghost use Rattle.esa_device.specs.Logs.{Carried};

    ghost Value = { Carried };

    ghost view = { λ carried. record { access = carried.access; bytes = option_map (λ bytes. bytes.items) carried.bytes } };
}

const _: () = prove!(size_of::<Log<Carried>>() == 0);

/// An access that was made: how it ended, and the bytes that it gave or was given.
#[derive(Clone, Copy, Drop)]
struct Made<'a> {
    access: Access,
    done: Result<(), Failed>,
    bytes: &'a [u8],
}

impl<'a> Noted<Carried> for Made<'a> {
    ghost entry = { λ made. carried_by made.access made.done made.bytes.now };
}

/// The log once an access was made that ended so, with these bytes.
#[inline(always)]
pub(crate) fn after(
    log: &Log<Carried>,
    access: Access,
    done: Result<(), Failed>,
    bytes: &[u8],
) -> Log<Carried>
    ensures { result.entries ≡ log.now.entries ++ carried_by access done bytes.now ∷ [] }
{
    log.then(&Made {
        access,
        done,
        bytes,
    })
}
