//! Laws over sealed blocks: each is what a function with an empty body ensures.
//!
//! The functions do nothing when they run. They are there so that each law is proved where a contract names it.

ghost use Rattle.std.specs.Prelude.{◌≡◌, ◌≢◌, ℕ, ◌+◌, ◌*◌, ◌/◌, ◌^◌, ◌<◌, ◌≤◌, true, false, Some, None, Option, Result, OnOk, All, Contains, is_some, List, [], ◌∷◌, ◌++◌, length, replicate, slice_get, slice_set, if◌then◌else◌};
ghost use Rattle.esa_envelope.specs.Envelope.{nonce_in, sealed_as};
ghost use Rattle.esa_envelope.specs.declared.keys.Keys.{Keys};
ghost use Rattle.esa_envelope.specs.declared.label.Label.{Label};
ghost use Rattle.esa_params.specs.Form.{envelope_length};
ghost use Rattle.esa_params.specs.Sizes.{Sizes, ArePlanned};
ghost use Rattle.esa_params.specs.declared.form.Form.{Form};
ghost use Rattle.esa_params.specs.Slots.{IsPlanned, access_of, item_length, nonce_of, number_of, slots_of, slot_number, writes_number};
ghost use Rattle.esa_params.specs.declared.slot.Access.{Access};
ghost use Rattle.esa_params.specs.declared.slot.Op.{Op};
ghost use Rattle.esa_params.specs.declared.slot.Region.{Region};
ghost use Rattle.esa_params.specs.declared.slot.Slot.{Slot};
ghost use Rattle.esa_report.specs.declared.item.Item.{Item};
ghost use Rattle.esa_report.specs.Item.{IsItemLength, dummy_item, item_in, kind_held};
ghost use Rattle.esa_vault.specs.Seals.{is_text_of, opens, sealed_block, text_in};
ghost use Rattle.esa_vault.specs.Filled.{bytes_at, is_filled, suits, text_of};
ghost use Rattle.esa_vault.specs.Items.{item_of};
ghost use Rattle.esa_vault.specs.Latest.{AllHoldLatest, AllToldLatest, AllTookLatest, HoldsLatest, ToldLatest, TookLatest, accesses_of, latest_write};
ghost use Rattle.esa_device.specs.Logs.{Carried, HoldsWritten, Took, carried_by};
ghost use Rattle.esa_vault.specs.Traffic.{Stores};
ghost use Rattle.esa_vault.specs.declared.fault.VaultFault.{VaultFault};
ghost use Rattle.esa_vault.specs.Placed.{IsHeld, IsSpelled};

/// The block that was sealed for a slot in an attempt opens for them to what was sealed, and for a count exactly
/// where that is the text of a block with so many items.
pub fn sealed_blocks_open()
    ensures text { (p : Sizes) (keys : Keys) (slot : Slot) (attempt : ℕ) (text : List ℕ)
        → ArePlanned p → IsPlanned p slot → attempt < 2 ^ 32
        → text_in p keys slot attempt (sealed_block p keys slot attempt text) ≡ Some text }
    ensures opens { (p : Sizes) (keys : Keys) (slot : Slot) (attempt count : ℕ) (text : List ℕ)
        → ArePlanned p → IsPlanned p slot → attempt < 2 ^ 32
        → opens p keys slot attempt count (sealed_block p keys slot attempt text) ≡ is_text_of p slot.region count text }
{}

/// Bytes with another nonce don't open: so neither does a block of another slot, nor, outside of `Input`, one of
/// another attempt.
pub fn other_nonces_do_not_open()
    ensures nonce { (p : Sizes) (keys : Keys) (slot : Slot) (attempt count : ℕ) (bytes : List ℕ)
        → nonce_in bytes ≢ nonce_of p attempt slot → opens p keys slot attempt count bytes ≡ false }
    ensures slot { (p : Sizes) (keys : Keys) (slot other : Slot) (attempt earlier count : ℕ) (text : List ℕ)
        → ArePlanned p → IsPlanned p slot → IsPlanned p other → attempt < 2 ^ 32 → earlier < 2 ^ 32 → slot ≢ other
        → opens p keys slot attempt count (sealed_block p keys other earlier text) ≡ false }
    ensures attempt { (p : Sizes) (keys : Keys) (slot : Slot) (attempt earlier count : ℕ) (text : List ℕ)
        → ArePlanned p → IsPlanned p slot → attempt < 2 ^ 32 → earlier < 2 ^ 32 → slot.region ≢ Region.Input → attempt ≢ earlier
        → opens p keys slot attempt count (sealed_block p keys slot earlier text) ≡ false }
{}

/// Items that aren't dummies make, with dummies behind them, the text of a block with so many items, and each item
/// is found again at its place.
pub fn items_fill_a_block()
    ensures length { (size : ℕ) (items : List Item) → IsItemLength size → All (IsSpelled size) items
        → length (text_of size items) ≡ length items * size }
    ensures item { (size place : ℕ) (items : List Item) → IsItemLength size → All (IsSpelled size) items → place < length items
        → item_in (bytes_at size (text_of size items) place) ≡ slice_get items place }
    ensures filled { (size dummies : ℕ) (items : List Item) → IsItemLength size → All (IsSpelled size) items → All IsHeld items
        → is_filled size (length items) (text_of size (items ++ replicate dummies dummy_item)) ≡ true }
{}

/// Each place of a block that opened holds a well formed item: up to the count one that is no dummy, and then
/// dummies.
pub fn each_place_suits()
    ensures { (size count place : ℕ) (text : List ℕ) → is_filled size count text ≡ true → place < length text / size
        → suits count place (kind_held (bytes_at size text place)) ≡ true }
{}

/// Each item that a block's text holds can stand in a block again: it is well formed, and its body is zero behind the
/// bytes that spell it.
pub fn held_items_are_spelled()
    ensures { (size place : ℕ) (text : List ℕ) (item : Item) → IsItemLength size → place * size + size ≤ length text
        → item_in (bytes_at size text place) ≡ Some item → IsSpelled size item }
{}

/// Dummies can stand in a block, and so can the item of each envelope, which is no dummy.
pub fn new_items_are_spelled()
    ensures dummy { (size : ℕ) → IsItemLength size → IsSpelled size dummy_item }
    ensures spelled { (outer : Keys) (form : Form) (envelope : List ℕ) → length envelope ≡ envelope_length form
        → IsSpelled (item_length form) (item_of outer envelope) }
    ensures held { (outer : Keys) (envelope : List ℕ) → IsHeld (item_of outer envelope) }
{}

/// The latest write of a slot is one of the accesses, writes, and names the slot. In a list with others behind it is
/// the latest of these, if one of them writes the slot.
pub fn latest_writes()
    ensures stands { (p : Sizes) (number : ℕ) (accesses : List Access) (access : Access) → latest_write p number accesses ≡ Some access
        → Contains accesses access }
    ensures writes { (p : Sizes) (number : ℕ) (accesses : List Access) (access : Access) → latest_write p number accesses ≡ Some access
        → access.op ≡ Op.Write }
    ensures names { (p : Sizes) (number : ℕ) (accesses : List Access) (access : Access) → latest_write p number accesses ≡ Some access
        → slot_number p access ≡ number }
    ensures longer { (p : Sizes) (number : ℕ) (accesses more : List Access) → latest_write p number (accesses ++ more)
        ≡ (if is_some (latest_write p number more) then latest_write p number more else latest_write p number accesses) }
{}

/// Before any access no slot must have a seal in the log, and a read changes nothing of what they must.
pub fn one_read_noted()
    ensures nothing { (p : Sizes) (keys : Keys) (text : Access → List ℕ) (but : Option ℕ) → AllTookLatest p keys text [] but }
    ensures took { (p : Sizes) (keys : Keys) (text : Access → List ℕ) (log : List Carried) (last : Carried) (number : ℕ) → last.access.op ≡ Op.Read
        → TookLatest p keys text log number → TookLatest p keys text (log ++ last ∷ []) number }
    ensures all { (p : Sizes) (keys : Keys) (text : Access → List ℕ) (log : List Carried) (last : Carried) (but : Option ℕ) → last.access.op ≡ Op.Read
        → AllTookLatest p keys text log but → AllTookLatest p keys text (log ++ last ∷ []) but }
{}

/// A block that was put is noted as the latest of its slot. Where the put failed, so it is with every slot but its own.
pub fn one_put_noted()
    ensures stored { (p : Sizes) (keys : Keys) (text : Access → List ℕ) (log : List Carried) (slot : Slot) (attempt : ℕ) (result : Result (Unit {0}) VaultFault)
        → AllTookLatest p keys text log None
        → OnOk result (AllTookLatest p keys text (log ++ carried_by (access_of p attempt Op.Write slot) result (sealed_block p keys slot attempt (text (access_of p attempt Op.Write slot))) ∷ []) None) }
    ensures failed { (p : Sizes) (keys : Keys) (text : Access → List ℕ) (log : List Carried) (slot : Slot) (attempt : ℕ) (bytes : List ℕ) (result : Result (Unit {0}) VaultFault)
        → AllTookLatest p keys text log None
        → AllTookLatest p keys text (log ++ carried_by (access_of p attempt Op.Write slot) result bytes ∷ []) (Some (number_of p slot)) }
{}

/// What the latest writes took is a matter of their own texts alone.
pub fn texts_that_agree()
    ensures { (p : Sizes) (keys : Keys) (text other : Access → List ℕ) (log : List Carried) (but : Option ℕ)
        → ((number : ℕ) (access : Access) → latest_write p number (accesses_of log) ≡ Some access → text access ≡ other access)
        → AllTookLatest p keys text log but → AllTookLatest p keys other log but }
{}

/// The latest write that has the nonce of its slot in an attempt took the block that was sealed for them. Over a device
/// that tells, it stands in the slot.
pub fn latest_seal()
    ensures took { (p : Sizes) (keys : Keys) (text : Access → List ℕ) (log : List Carried) (access : Access) (slot : Slot) (attempt : ℕ)
        → TookLatest p keys text log (number_of p slot) → latest_write p (number_of p slot) (accesses_of log) ≡ Some access
        → access.nonce ≡ nonce_of p attempt slot → Took p (number_of p slot) (sealed_block p keys slot attempt (text access)) log }
    ensures holds { (p : Sizes) (keys : Keys) (text : Access → List ℕ) (log : List Carried) (held : List (List ℕ)) (number : ℕ)
        → TookLatest p keys text log number → HoldsWritten p held log → HoldsLatest p keys text held (accesses_of log) number }
{}

/// Before any access no slot must hold a seal.
pub fn nothing_written()
    ensures { (p : Sizes) (keys : Keys) (text : Access → List ℕ) (held : List (List ℕ)) → AllHoldLatest p keys text held [] }
{}

/// A read changes nothing of what the slots must hold.
pub fn one_read_more()
    ensures latest { (p : Sizes) (number : ℕ) (accesses : List Access) (access : Access)
        → access.op ≡ Op.Read → latest_write p number (accesses ++ access ∷ []) ≡ latest_write p number accesses }
    ensures holds { (p : Sizes) (keys : Keys) (text : Access → List ℕ) (held : List (List ℕ)) (accesses : List Access) (access : Access)
        → access.op ≡ Op.Read → AllHoldLatest p keys text held accesses
        → AllHoldLatest p keys text held (accesses ++ access ∷ []) }
    ensures told { (p : Sizes) (keys : Keys) (text : Access → List ℕ) (old new : Option (List (List ℕ))) (accesses : List Access) (access : Access)
        → access.op ≡ Op.Read → new ≡ old → AllToldLatest p keys text old accesses
        → AllToldLatest p keys text new (accesses ++ access ∷ []) }
{}

/// A write is the latest of its slot, and of no other. What it seals stands there, and whatever a failed one leaves
/// there, the other slots are as they were.
pub fn one_write_more()
    ensures latest { (p : Sizes) (number : ℕ) (accesses : List Access) (access : Access)
        → access.op ≡ Op.Write → latest_write p number (accesses ++ access ∷ [])
        ≡ (if writes_number p number access then Some access else latest_write p number accesses) }
    ensures holds { (p : Sizes) (keys : Keys) (text : Access → List ℕ) (held : List (List ℕ)) (accesses : List Access) (access : Access)
        → access.op ≡ Op.Write → slot_number p access < length held → AllHoldLatest p keys text held accesses
        → AllHoldLatest p keys text (slice_set held (slot_number p access) (sealed_as keys Label.Block access.nonce (text access))) (accesses ++ access ∷ []) }
    ensures others { (p : Sizes) (keys : Keys) (text : Access → List ℕ) (held : List (List ℕ)) (accesses : List Access) (access : Access) (number : ℕ) (bytes : List ℕ)
        → number ≢ slot_number p access → HoldsLatest p keys text held accesses number
        → HoldsLatest p keys text (slice_set held (slot_number p access) bytes) (accesses ++ access ∷ []) number }
{}

/// Where the blocks are told, a block that was put stands in its slot, and the other slots are as they were, also where
/// the put failed.
pub fn one_put_more()
    ensures stored { (p : Sizes) (keys : Keys) (text : Access → List ℕ) (old new : Option (List (List ℕ))) (slot : Slot) (attempt : ℕ) (accesses : List Access) (result : Result (Unit {0}) VaultFault)
        → AllToldLatest p keys text old accesses
        → Stores old new (number_of p slot) (sealed_block p keys slot attempt (text (access_of p attempt Op.Write slot))) result
        → OnOk result (AllToldLatest p keys text new (accesses ++ access_of p attempt Op.Write slot ∷ [])) }
    ensures others { (p : Sizes) (keys : Keys) (text : Access → List ℕ) (old new : Option (List (List ℕ))) (slot : Slot) (attempt : ℕ) (accesses : List Access) (bytes : List ℕ) (result : Result (Unit {0}) VaultFault) (number : ℕ)
        → ToldLatest p keys text old accesses number → Stores old new (number_of p slot) bytes result → number ≢ number_of p slot
        → ToldLatest p keys text new (accesses ++ access_of p attempt Op.Write slot ∷ []) number }
{}

/// A slot whose latest write has the nonce of the slot in an attempt holds the block that was sealed for them.
pub fn latest_block()
    ensures { (p : Sizes) (keys : Keys) (text : Access → List ℕ) (held : List (List ℕ)) (accesses : List Access) (access : Access) (slot : Slot) (attempt : ℕ)
        → AllHoldLatest p keys text held accesses → number_of p slot < slots_of p → latest_write p (number_of p slot) accesses ≡ Some access
        → access.nonce ≡ nonce_of p attempt slot
        → slice_get held (number_of p slot) ≡ Some (sealed_block p keys slot attempt (text access)) }
{}
