//! Bytes that end too early.

ghost use Rattle.std.specs.Prelude.{◌≡◌, ◌<◌, ◌↔◌, length, IsErr, IfErr};

/// Bytes end before all that was wanted of them.
#[derive(Clone, Copy, PartialEq, Eq, Debug)]
pub struct Cut {
    /// How many bytes were wanted.
    pub want: u64,
    /// How many bytes are there.
    pub have: u64,
}

/// Refuses bytes that are shorter than `want`.
pub fn need(bytes: &[u8], want: u64) -> Result<(), Cut>
    ensures refused { IsErr result ↔ (length bytes.now < want) }
    ensures cut { IfErr result (λ cut. cut ≡ record { want = want; have = length bytes.now }) }
{
    let have = bytes.len() as u64;
    if have < want {
        return Err(Cut { want, have });
    }
    Ok(())
}
