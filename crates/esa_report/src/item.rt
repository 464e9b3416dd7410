//! The items of a block.

ghost use Rattle.std.specs.Prelude.{◌≡◌, ◌-◌, ◌≤◌, length, drop, Some, IsTrue, IfSome};
ghost use Rattle.esa_report.specs.Zero.{is_zero};
ghost use Rattle.esa_report.specs.Item.{IsItemLength, dummy_item, full_body, is_well_formed, item_bytes, item_in, kind_held, malformed_item};

use crate::zero::is_zero;

/// The length of the longest body, in bytes.
const BODY: usize = 264;

/// What an item is.
#[derive(Clone, Copy, PartialEq, Eq, Debug)]
pub enum Kind {
    /// Nothing: it fills a place.
    Dummy,
    /// An outer plain text that was opened.
    Real,
    /// An envelope that didn't open.
    Malformed,
}

/// One place of a block. Only a real item has a body that isn't zero: an outer plain text of 136 or
/// 264 bytes, followed by zero bytes.
#[derive(Clone, Copy, PartialEq, Eq)]
pub struct Item {
    /// What the item is.
    pub kind: Kind,
    /// The outer plain text of a real item.
    pub body: [u8; 264],
}

impl Kind {
    ghost use Rattle.esa_report.specs.Item.{kind_byte, kind_in};

    /// The kind's byte.
    fn byte(self) -> u8
        ensures { result ≡ kind_byte self }
    {
        match self {
            Kind::Dummy => 0,
            Kind::Real => 1,
            Kind::Malformed => 2,
        }
    }

    /// The kind of a byte.
    fn of(byte: u8) -> Option<Kind>
        ensures { result ≡ kind_in byte }
    {
        match byte {
            0 => Some(Kind::Dummy),
            1 => Some(Kind::Real),
            2 => Some(Kind::Malformed),
            _ => None,
        }
    }
}

impl Item {
    /// An item that fills a place.
    #[tactic(auto, unfolding(crate::specs::Item::zero_body))]
    pub fn dummy() -> Item
        ensures { result ≡ dummy_item }
    {
        Item {
            kind: Kind::Dummy,
            body: [0; BODY],
        }
    }

    /// The item of an envelope that didn't open.
    #[tactic(auto, unfolding(crate::specs::Item::zero_body))]
    pub fn malformed() -> Item
        ensures { result ≡ malformed_item }
    {
        Item {
            kind: Kind::Malformed,
            body: [0; BODY],
        }
    }

    /// Whether the body is zero, where the item isn't real.
    fn is_well_formed(&self) -> bool
        ensures { result ≡ is_well_formed self.now }
    {
        match self.kind {
            Kind::Real => true,
            Kind::Dummy => is_zero(&self.body),
            Kind::Malformed => is_zero(&self.body),
        }
    }

    /// Writes the item to 137 or 265 bytes: a byte for its kind, and as much of its body, which is
    /// zero from there on.
    pub fn put(&self, out: &mut [u8])
        requires item { IsItemLength (length out.old) }
        requires zero { IsTrue (is_zero (drop (length out.old - 1) self.now.body)) }
        ensures written { out.new ≡ item_bytes (length out.old) self.now }
        ensures reads_back { IsTrue (is_well_formed self.now) → item_in out.new ≡ Some self.now }
    {
        let body = out.len() - 1;
        out[0] = self.kind.byte();
        out[1..].copy_from_slice(&self.body[..body]);
    }
}

/// The item that 137 or 265 bytes hold. None exactly where the first byte is no kind, or where the
/// item isn't real and its body isn't zero.
#[tactic(auto, unfolding(crate::specs::Item::item_in), using(std::proofs::lemmas::List::take_rest))]
pub fn item_at(bytes: &[u8]) -> Option<Item>
    requires { IsItemLength (length bytes.now) }
    ensures value { result ≡ item_in bytes.now }
    ensures well_formed { IfSome result (λ item. IsTrue (is_well_formed item)) }
    ensures one_spelling { IfSome result (λ item. item_bytes (length bytes.now) item ≡ bytes.now) }
{
    let kind = Kind::of(bytes[0])?;
    let item = Item {
        kind,
        body: padded(&bytes[1..]),
    };
    if !item.is_well_formed() {
        return None;
    }
    Some(item)
}

/// The kind of the item that 137 or 265 bytes hold, without a copy of its body. None exactly where
/// [`item_at`] gives none.
#[tactic(auto, unfolding(crate::specs::Item::item_in), using(crate::proofs::ItemLemmas::item_of_full))]
pub fn kind_at(bytes: &[u8]) -> Option<Kind>
    requires { IsItemLength (length bytes.now) }
    ensures { result ≡ kind_held bytes.now }
{
    let kind = Kind::of(bytes[0])?;
    if kind != Kind::Real && !is_zero(&bytes[1..]) {
        return None;
    }
    Some(kind)
}

/// The bytes, followed by zero bytes up to the longest body.
fn padded(bytes: &[u8]) -> [u8; 264]
    requires { length bytes.now ≤ 264 }
    ensures { result ≡ full_body bytes.now }
{
    let mut body = [0; BODY];
    body[..bytes.len()].copy_from_slice(bytes);
    body
}
