//! What an envelope is for.

ghost use Rattle.std.specs.Prelude.{◌≡◌};

/// What an envelope is for. Each use has keys of its own, and a label's text stands under the tag,
/// so an envelope of one use opens under no other.
#[derive(Clone, Copy, PartialEq, Eq, Debug)]
pub enum Label {
    /// A report, for the analyser.
    Inner,
    /// A crowd id and an inner envelope, for the shuffler.
    Outer,
    /// A block of the shuffler's own memory.
    Block,
}

impl Label {
    ghost use Rattle.esa_envelope.specs.Label.{label_text};

    /// The label's text: `inner`, `outer` or `block`.
    pub(crate) fn text(self) -> &'static [u8]
        ensures { result.now ≡ label_text self }
    {
        match self {
            Label::Inner => b"inner",
            Label::Outer => b"outer",
            Label::Block => b"block",
        }
    }
}
