//! Lists of sort keys with their counts: filled from envelopes, sorted, and walked run by run.

ghost use Rattle.std.specs.Prelude.{◌≡◌, ◌+◌, ◌*◌, ◌<◌, ◌≤◌, ◌^◌, ◌++◌, All, List, ℕ, Option, OnOk, OnErr, length, map, filter_map, vec_capacity};
ghost use Rattle.std.specs.List.{sum_by};
ghost use Rattle.std.specs.Option.{option_to_list};
ghost use Rattle.std.specs.Ordering.{nat_cmp};
ghost use Rattle.std.specs.Cmp.Lexicographic.{slice_cmp};
ghost use Rattle.std.specs.List.Sorted.{IsSorted};
ghost use Rattle.esa_lists.specs.Tally.{runs};
ghost use Rattle.esa_header.specs.Pieces.{pieces};
ghost use Rattle.esa_report.specs.Report.{IsReportLength};
ghost use Rattle.esa_analyser.specs.Database.{rows_of};
ghost use Rattle.esa_analyser.specs.Opened.{reported};
ghost use Rattle.esa_analyser.specs.SortKey.{key_value};
ghost use Rattle.esa_analyser.specs.Repeated.{all_keys, weighed, IsRepeated};
ghost use Rattle.esa_analyser.specs.RunBytes.{run_bytes};
ghost use Rattle.esa_outside.specs.Files.{Files};
ghost use Rattle.esa_outside.specs.Cause.{HasCause};
ghost use Rattle.esa_outside.specs.Heard.{Event};
ghost use Rattle.esa_page.specs.Underway.{IsUnderway, IsLeft};
ghost use Rattle.esa_page.specs.Writing.{IsWriting, HasBroken};

use crate::key::{open, value};
use crate::put::put_row;
use crate::repeated::{Repeated, SLOTS, add_key, reports, run_length};
use esa_envelope::Prepared;
use esa_outside::{Cabinet, Failed};
use esa_page::Page;

/// The number of runs of equal keys.
fn run_count<const P: usize>(keys: &[Repeated<P>]) -> u32
    requires each { All IsRepeated keys.now }
    requires short { length keys.now < 2 ^ 32 }
    ensures { result ≡ length (runs (slice_cmp nat_cmp) (all_keys keys.now)) }
{
    let mut count = 0;
    let mut rest = keys;
    while !rest.is_empty() {
        let (_, others) = rest.split_at(run_length(rest));
        rest = others;
        count += 1;
    }
    count
}

/// Counts the report of an envelope, where it has one.
fn add_opened<const P: usize>(
    keys: &mut Vec<Repeated<P>>,
    hints: &mut [u32; SLOTS],
    inner: &Prepared,
    envelope: &[u8],
)
    requires size { IsReportLength P }
    requires whole { length envelope.now ≡ P + 40 }
    requires each { All IsRepeated keys.old.items }
    requires few { weighed (λ _. 1) keys.old.items + 1 < 2 ^ 32 }
    requires short { length keys.old.items < 2 ^ 32 }
    requires room { length keys.old.items < vec_capacity keys.old }
    ensures counted { (f : List ℕ → ℕ) → weighed f keys.new.items ≡ weighed f keys.old.items + sum_by f (option_to_list (reported inner.now envelope.now)) }
    ensures each { All IsRepeated keys.new.items }
    ensures short { length keys.new.items ≤ length keys.old.items + 1 }
    ensures room { vec_capacity keys.new ≡ vec_capacity keys.old }
{
    if let Some(key) = open::<P>(inner, envelope) {
        add_key(keys, hints, key);
    }
}

/// Replaces the keys by those of the envelopes, which are `number` and joined.
fn fill<const P: usize>(
    keys: &mut Vec<Repeated<P>>,
    inner: &Prepared,
    envelopes: &[u8],
    number: usize,
)
    requires size { IsReportLength P }
    requires whole { length envelopes.now ≡ (P + 40) * number }
    requires room { number ≤ vec_capacity keys.old }
    requires few { number < 2 ^ 32 }
    ensures counted { (f : List ℕ → ℕ) → weighed f keys.new.items ≡ sum_by f (filter_map (reported inner.now) (pieces (P + 40) number envelopes.now)) }
    ensures each { All IsRepeated keys.new.items }
    ensures few { weighed (λ _. 1) keys.new.items ≤ number }
    ensures short { length keys.new.items ≤ number }
    ensures room { vec_capacity keys.new ≡ vec_capacity keys.old }
{
    keys.clear();
    let mut hints = [0; SLOTS];
    let mut rest = envelopes;
    for _ in 0..number {
        let (envelope, others) = rest.split_at(P + 40);
        add_opened(keys, &mut hints, inner, envelope);
        rest = others;
    }
}

/// Replaces the keys by those of the envelopes, sorted, and answers the number of different keys.
pub(crate) fn count<const P: usize>(
    keys: &mut Vec<Repeated<P>>,
    inner: &Prepared,
    envelopes: &[u8],
    number: usize,
) -> u32
    requires size { IsReportLength P }
    requires whole { length envelopes.now ≡ (P + 40) * number }
    requires room { number ≤ vec_capacity keys.old }
    requires few { number < 2 ^ 32 }
    ensures rows { rows_of (map key_value (all_keys keys.new.items)) ≡ rows_of (filter_map (reported inner.now) (pieces (P + 40) number envelopes.now)) }
    ensures number { length (all_keys keys.new.items) ≡ length (filter_map (reported inner.now) (pieces (P + 40) number envelopes.now)) }
    ensures different { result ≡ length (rows_of (map key_value (all_keys keys.new.items))) }
    ensures each { All IsRepeated keys.new.items }
    ensures sorted { IsSorted (slice_cmp nat_cmp) (all_keys keys.new.items) }
    ensures few { length (all_keys keys.new.items) ≤ number }
    ensures room { vec_capacity keys.new ≡ vec_capacity keys.old }
{
    fill(keys, inner, envelopes, number);
    keys.sort_unstable();
    run_count(keys)
}

/// Puts the rows of sorted keys behind the bytes that wait in the page.
pub(crate) fn put_runs<const P: usize, K: Cabinet>(
    keys: &[Repeated<P>],
    page: &mut Page,
    cabinet: &mut K,
    name: &str,
) -> Result<(), Failed>
    requires size { IsReportLength P }
    requires few { length (all_keys keys.now) < 2 ^ 32 }
    requires each { All IsRepeated keys.now }
    ensures added { (before : Option Files) (text : List ℕ)
        → IsUnderway before name.now text page.old (K.told cabinet.old)
        → OnOk result (IsUnderway before name.now (text ++ run_bytes (all_keys keys.now)) page.new (K.told cabinet.new)) }
    ensures failed { (before : Option Files) (text : List ℕ)
        → IsUnderway before name.now text page.old (K.told cabinet.old)
        → OnErr result (IsLeft before name.now (text ++ run_bytes (all_keys keys.now)) (K.told cabinet.new)) }
    ensures heard { (before : List Event) (text : List ℕ)
        → IsWriting before name.now text page.old (K.heard cabinet.old)
        → OnOk result (IsWriting before name.now (text ++ run_bytes (all_keys keys.now)) page.new (K.heard cabinet.new)) }
    ensures heard_broken { (before : List Event) (text : List ℕ)
        → IsWriting before name.now text page.old (K.heard cabinet.old)
        → OnErr result (HasBroken before name.now (text ++ run_bytes (all_keys keys.now)) (K.heard cabinet.new)) }
    ensures cause { (before : Option Files) (text : List ℕ)
        → IsUnderway before name.now text page.old (K.told cabinet.old)
        → HasCause (K.faults cabinet.old) (K.faults cabinet.new) ⊥ result }
{
    let mut rest = keys;
    while !rest.is_empty() {
        let (equal, others) = rest.split_at(run_length(rest));
        put_row(page, cabinet, name, value(&rest[0].key), reports(equal))?;
        rest = others;
    }
    Ok(())
}
