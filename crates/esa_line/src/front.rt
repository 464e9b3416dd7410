//! What a moment and a sender are.

ghost use Rattle.std.specs.Prelude.{◌≡◌};
ghost use Rattle.std.specs.Char.{is_ascii_graphic};
ghost use Rattle.std.specs.List.{list_all};
ghost use Rattle.esa_line.specs.Front.{front_in, is_sender};

use crate::LineCause;
use esa_bytes::decimal;

/// Whether these bytes name a sender: 1 to 64 bytes from 0x21 to 0x7e.
fn names_sender(sender: &[u8]) -> bool
    ensures { result ≡ is_sender sender.now }
{
    1 <= sender.len() && sender.len() <= 64 && is_graphic(sender)
}

/// Whether all bytes are from 0x21 to 0x7e.
fn is_graphic(text: &[u8]) -> bool
    ensures { result ≡ list_all is_ascii_graphic text.now }
{
    text.iter().all(u8::is_ascii_graphic)
}

/// Refuses a line for its moment, or else for its sender.
pub(crate) fn check_front(moment: &[u8], sender: &[u8]) -> Result<(), LineCause>
    ensures { result ≡ front_in moment.now sender.now }
{
    if decimal(moment).is_none() {
        return Err(LineCause::BadMoment);
    }
    if !names_sender(sender) {
        return Err(LineCause::BadSender);
    }
    Ok(())
}
