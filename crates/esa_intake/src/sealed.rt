//! An envelope of either form, as it waits.

/// An envelope of either form: so many bytes, and zero bytes behind them.
#[derive(Clone, Copy, PartialEq, Eq, Debug)]
pub struct Sealed {
    pub length: u32,
    pub bytes: [u8; 304],
}
