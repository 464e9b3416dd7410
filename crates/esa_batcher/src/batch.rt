//! A batch that lies in memory.

ghost use Rattle.std.specs.Prelude.{◌≡◌, ◌<◌, Some, OnOk, OnErr, length, take, drop, slice_index_or, []};
ghost use Rattle.esa_header.specs.Header.{header_length};
ghost use Rattle.esa_params.specs.Form.{envelope_length};
ghost use Rattle.esa_batcher.specs.Batched.{IsBatch, batch_front, batch_bytes};
ghost use Rattle.esa_outside.specs.Cause.{HasCause};
ghost use Rattle.esa_page.specs.Underway.{IsWhole, IsLeft};
ghost use Rattle.esa_page.specs.Writing.{HasWritten, HasBroken};

use crate::envelopes::Envelopes;
use esa_header::{FileKind, Header, put_header};
use esa_outside::{Cabinet, Failed, Records};
use esa_page::write_parts;
use esa_params::Form;
use std::marker::Model;

/// Outer envelopes of one form and key epoch, in rising order.
#[derive(Drop)]
pub struct Batch {
    pub(crate) envelopes: Envelopes,
    pub(crate) epoch: u32,
}

impl Model for Batch {
    ghost use Rattle.esa_batcher.specs.Batched.{Batched, batched_code};
    ghost use Rattle.esa_batcher.specs.Inside.{batched_in, IsBatched};

    ghost Value = { Batched };

    ghost coded = { batched_code };

    ghost view = { batched_in };

    ghost invariant = { IsBatched };
}

impl Batch {
    /// The form of the envelopes.
    pub fn form(&self) -> Form
        ensures { result ≡ self.now.form }
    {
        self.envelopes.form()
    }

    /// Their key epoch. It is 0 in form One.
    pub fn epoch(&self) -> u32
        ensures { result ≡ self.now.epoch }
    {
        self.epoch
    }

    /// The number of envelopes, at most 262,144. Each has its form's length, and they are in rising order.
    pub fn count(&self) -> u32
        ensures number { result ≡ length self.now.list }
        ensures batch { IsBatch self.now }
    {
        self.envelopes.len() as u32
    }

    /// The envelope at a place, counted from 0.
    pub fn envelope(&self, place: u32) -> &[u8]
        requires { place < length self.now.list }
        ensures envelope { result.now ≡ slice_index_or self.now.list place [] }
        ensures length { length result.now ≡ envelope_length self.now.form }
    {
        self.envelopes.at(place as usize)
    }

    /// Writes the header of the batch's file to the front of `out` and answers its length, 11 in form One
    /// and 15 in form Two. The bytes behind it stay.
    pub fn header(&self, out: &mut [u8; 15]) -> usize
        ensures written { take result out.new ≡ batch_front self.now.form self.now.epoch (length self.now.list) }
        ensures behind { drop result out.new ≡ drop result out.old }
        ensures number { result ≡ header_length self.now.form }
    {
        let header = Header {
            form: self.envelopes.form(),
            epoch: self.epoch,
            count: self.envelopes.len() as u32,
        };
        put_header(FileKind::Batch, &header, out)
    }

    /// Writes the batch as a file, which starts anew. It takes no memory.
    pub fn write<K: Cabinet>(&self, cabinet: &mut K, name: &str) -> Result<(), Failed>
        ensures whole { OnOk result (IsWhole (K.told cabinet.old) name.now (batch_bytes self.now) (K.told cabinet.new)) }

        // A failed call leaves the file as it was, or a front of the whole file.
        ensures left { OnErr result (IsLeft (K.told cabinet.old) name.now (batch_bytes self.now) (K.told cabinet.new)) }
        ensures heard { OnOk result (HasWritten (K.heard cabinet.old) name.now (batch_bytes self.now) (K.heard cabinet.new)) }
        ensures heard_broken { OnErr result (HasBroken (K.heard cabinet.old) name.now (batch_bytes self.now) (K.heard cabinet.new)) }
        ensures cause { HasCause (K.faults cabinet.old) (K.faults cabinet.new) ⊥ result }
    {
        let mut front = [0; 15];
        let length = self.header(&mut front);
        write_parts(cabinet, name, &front[..length], self.envelopes.bytes())
    }
}

impl Records for Batch {
    type Ground = Batch;

    ghost told = { λ batch. Some batch.list };

    ghost grounds = { λ batch. batch };

    ghost count = { λ batch. length batch.list };

    ghost size = { λ batch. envelope_length batch.form };

    ghost faults = { λ batch. 0 };

    ghost heard = { λ batch. [] };

    ghost part = { λ batch first bytes. [] };

    fn faults(&self) -> u64 {
        0
    }

    fn count(&self) -> u32 {
        self.envelopes.len() as u32
    }

    fn size(&self) -> u32 {
        self.envelopes.form().envelope()
    }

    fn told_as_counted(&self) {
        // What is read is known to be a batch.
        let _epoch = self.epoch;
    }

    fn records(&mut self, first: u32, out: &mut [u8]) -> Result<(), Failed> {
        let at = first as usize * self.envelopes.form().envelope() as usize;
        out.copy_from_slice(&self.envelopes.bytes()[at..at + out.len()]);
        Ok(())
    }
}
