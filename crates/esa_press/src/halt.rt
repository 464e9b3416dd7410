//! Why the rest of an attempt was not done.

use esa_spec::Verdict;
use esa_vault::VaultFault;

/// Why the rest of an attempt was not done.
#[derive(Clone, Copy, PartialEq, Eq, Debug)]
pub enum Halt {
    /// The attempt has failed, and ends with this verdict. It is not Good.
    Verdict(Verdict),
    /// A block was not put or got.
    Fault(VaultFault),
}
