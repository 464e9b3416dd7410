//! The head of a line: its moment and its sender, each with a tab behind it.

ghost use Rattle.std.specs.Prelude.{◌≡◌, ◌<◌, ◌↔◌, position, IsNone, IfSome};
ghost use Rattle.esa_line.specs.Front.{is_tab};
ghost use Rattle.esa_line.specs.Line.{tabs, head_cause, IsHead};

use crate::LineCause;
use crate::front::check_front;

/// Where the head of a line ends: a moment, a tab, a sender and a tab stand at the line's front.
#[derive(Clone, Copy, PartialEq, Eq, Debug)]
pub struct Head {
    /// The length of the moment, in bytes.
    pub moment: usize,
    /// The length of the head, in bytes, both tabs among them.
    pub length: usize,
}

/// The head of a line. `None` exactly where the line has fewer than two tabs.
pub fn head_in(line: &[u8]) -> Option<Head>
    ensures none { IsNone result ↔ (tabs line.now < 2) }
    ensures place { IfSome result (IsHead line.now) }
{
    let moment = tab_place(line)?;
    let sender = tab_place(&line[moment + 1..])?;
    Some(Head {
        moment,
        length: moment + 1 + sender + 1,
    })
}

/// What is wrong with the head of a line: the moment, or else the sender.
pub fn head_cause(line: &[u8], head: &Head) -> Option<LineCause>
    requires { IsHead line.now head.now }
    ensures { result ≡ head_cause line.now }
{
    let moment = &line[..head.moment];
    let sender = &line[head.moment + 1..head.length - 1];
    check_front(moment, sender).err()
}

/// The place of the first tab.
pub fn tab_place(text: &[u8]) -> Option<usize>
    ensures { result ≡ position is_tab text.now }
{
    text.iter().position(|byte| *byte == b'\t')
}
