//! Outer envelopes of one form.

ghost use Rattle.std.specs.Prelude.{OnOk, OnErr, ◌++◌, ◌∷◌, ◌≡◌, ◌*◌, ◌<◌, ◌≤◌, ◌^◌, Err, ℕ, length, vec_capacity, slice_index_or, [], IfOk};
ghost use Rattle.std.specs.List.{concat};
ghost use Rattle.esa_lists.specs.Ordered.{ordered};
ghost use Rattle.esa_header.specs.Pieces.{pieces, HaveLength};
ghost use Rattle.esa_batcher.specs.Adding.{AddsHex};
ghost use Rattle.esa_batcher.specs.Rising.{by_bytes};
ghost use Rattle.esa_params.specs.Form.{envelope_length};
ghost use Rattle.esa_batcher.specs.Envelopes.{list_of, form_of, capacity_of};

use crate::arrange::{Key, sort_by_keys};
use crate::digits::{NotAdded, push_copied, push_decoded};
use esa_params::Form;
use std::alloc::{AllocError, Global};

/// Outer envelopes of one form.
#[derive(Drop)]
pub(crate) enum Envelopes {
    One(Vec<[u8; 176]>),
    Two(Vec<[u8; 304]>),
}

impl Envelopes {
    /// The envelopes that these bytes are, one after another.
    pub(crate) fn copied(alloc: Global, form: Form, bytes: &[u8]) -> Result<Envelopes, AllocError>
        ensures form { IfOk result (λ envelopes. form_of envelopes ≡ form) }
        ensures list { (count : ℕ) → length bytes.now ≡ envelope_length form * count
            → IfOk result (λ envelopes. list_of envelopes ≡ pieces (envelope_length form) count bytes.now) }
    {
        match form {
            Form::One => Ok(Envelopes::One(Vec::from_slice(alloc, bytes.as_chunks().0)?)),
            Form::Two => Ok(Envelopes::Two(Vec::from_slice(alloc, bytes.as_chunks().0)?)),
        }
    }

    /// No envelopes, and room for `n`.
    pub(crate) fn reserved(alloc: Global, form: Form, n: usize) -> Result<Envelopes, AllocError>
        ensures form { IfOk result (λ envelopes. form_of envelopes ≡ form) }
        ensures empty { IfOk result (λ envelopes. list_of envelopes ≡ []) }
        ensures room { IfOk result (λ envelopes. capacity_of envelopes ≡ n) }
    {
        match form {
            Form::One => Ok(Envelopes::One(Vec::with_capacity(alloc, n)?)),
            Form::Two => Ok(Envelopes::Two(Vec::with_capacity(alloc, n)?)),
        }
    }

    /// Adds the envelope that a text writes in hexadecimal digits.
    pub(crate) fn add(&mut self, text: &[u8]) -> Result<(), NotAdded>
        ensures added { AddsHex (envelope_length (form_of self.old)) text.now (list_of self.old) (list_of self.new) result }
        ensures form { form_of self.new ≡ form_of self.old }
        ensures lengths { HaveLength (envelope_length (form_of self.old)) (list_of self.old) → HaveLength (envelope_length (form_of self.old)) (list_of self.new) }
        ensures full { result ≡ Err NotAdded.OutOfMemory → capacity_of self.old ≤ length (list_of self.old) }
        ensures capacity { capacity_of self.old ≤ capacity_of self.new }
    {
        match self {
            Envelopes::One(list) => push_decoded(list, text),
            Envelopes::Two(list) => push_decoded(list, text),
        }
    }

    /// Adds an envelope.
    pub(crate) fn put(&mut self, envelope: &[u8]) -> Result<(), AllocError>
        requires size { length envelope.now ≡ envelope_length (form_of self.old) }
        ensures added { OnOk result (list_of self.new ≡ list_of self.old ++ envelope.now ∷ []) }
        ensures unchanged { OnErr result (list_of self.new ≡ list_of self.old) }
        ensures form { form_of self.new ≡ form_of self.old }
        ensures full { OnErr result (capacity_of self.old ≤ length (list_of self.old)) }
        ensures capacity { capacity_of self.old ≤ capacity_of self.new }
    {
        match self {
            Envelopes::One(list) => push_copied(list, envelope),
            Envelopes::Two(list) => push_copied(list, envelope),
        }
    }

    /// Puts the envelopes into rising order, in the room of the keys.
    pub(crate) fn sort(&mut self, keys: &mut Vec<Key>)
        requires few { length (list_of self.old) < 2 ^ 32 }
        requires room { length (list_of self.old) ≤ vec_capacity keys.old }
        ensures form { form_of self.new ≡ form_of self.old }
        ensures list { list_of self.new ≡ ordered by_bytes (list_of self.old) }
    {
        match self {
            Envelopes::One(list) => sort_by_keys(list, keys),
            Envelopes::Two(list) => sort_by_keys(list, keys),
        }
    }

    /// The form of the envelopes.
    pub(crate) fn form(&self) -> Form
        ensures { result ≡ form_of self.now }
    {
        match self {
            Envelopes::One(_) => Form::One,
            Envelopes::Two(_) => Form::Two,
        }
    }

    /// The number of envelopes.
    pub(crate) fn len(&self) -> usize
        ensures { result ≡ length (list_of self.now) }
    {
        match self {
            Envelopes::One(list) => list.len(),
            Envelopes::Two(list) => list.len(),
        }
    }

    /// The envelopes, one after another.
    pub(crate) fn bytes(&self) -> &[u8]
        ensures { result.now ≡ concat (list_of self.now) }
    {
        match self {
            Envelopes::One(list) => list.as_flattened(),
            Envelopes::Two(list) => list.as_flattened(),
        }
    }

    /// The envelope at a place.
    pub(crate) fn at(&self, place: usize) -> &[u8]
        requires { place < length (list_of self.now) }
        ensures { result.now ≡ slice_index_or (list_of self.now) place [] }
    {
        match self {
            Envelopes::One(list) => &list[place],
            Envelopes::Two(list) => &list[place],
        }
    }
}
