//! Why a batch was not loaded.

/// Why a batch was not loaded.
#[derive(Clone, Copy, PartialEq, Eq, Debug)]
pub enum LoadFault {
    /// The records of this bucket could not be read.
    Batch(u32),
    /// The device failed at the slot of this number.
    Device(u32),
}
