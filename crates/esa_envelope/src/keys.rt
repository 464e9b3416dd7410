//! The two keys of an envelope, and the masters that they come from.

ghost use Rattle.std.specs.Prelude.{◌≡◌, ◌++◌};
ghost use Rattle.esa_hmac.specs.Hmac.{hmac};
ghost use Rattle.esa_envelope.specs.Keys.{keys_from, master_of_epoch, record_keys};

use crate::label::Label;
use esa_hmac::Mac;
use esa_params::Form;

/// The keys of one use: that of the cipher and that of the tag, each of 32 bytes.
#[derive(Clone, Copy)]
pub struct Keys {
    /// The key of the cipher.
    pub enc: [u8; 32],
    /// The key of the tag.
    pub mac: [u8; 32],
}

/// The keys that a master key gives for a label: the HMAC of `enc:` and of `mac:`, each followed by
/// the label's text.
pub fn keys_of(master: &[u8; 32], label: Label) -> Keys
    ensures { result ≡ keys_from master.now label }
{
    Keys {
        enc: derived(master, b"enc:", label.text()),
        mac: derived(master, b"mac:", label.text()),
    }
}

/// The master key of an epoch: the HMAC of `epoch:` followed by the epoch's four bytes, highest
/// byte first.
pub fn epoch_master(master: &[u8; 32], epoch: u32) -> [u8; 32]
    ensures { result ≡ master_of_epoch master.now epoch }
{
    derived(master, b"epoch:", &epoch.to_be_bytes())
}

/// The keys of the records of a form and a key epoch, for a label. Form One has no epochs: its keys are those of the
/// master, whatever the epoch.
pub fn record_keys(form: Form, epoch: u32, master: &[u8; 32], label: Label) -> Keys
    ensures { result ≡ record_keys form epoch master.now label }
{
    match form {
        Form::One => keys_of(master, label),
        Form::Two => keys_of(&epoch_master(master, epoch), label),
    }
}

/// The HMAC of a message that comes in two parts.
fn derived(master: &[u8; 32], first: &[u8], second: &[u8]) -> [u8; 32]
    ensures { result ≡ hmac master.now (first.now ++ second.now) }
{
    let mut mac = Mac::start(master);
    mac.feed(first);
    mac.feed(second);
    mac.finish()
}
