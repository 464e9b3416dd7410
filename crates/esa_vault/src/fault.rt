//! Why a block was not put or got.

/// Why a block was not put or got. Each answer has the number of the slot.
#[derive(Clone, Copy, PartialEq, Eq, Debug)]
pub enum VaultFault {
    /// The device failed.
    Device(u32),
    /// The device gave bytes that don't open for the slot, the attempt and the count.
    Tampered(u32),
}
