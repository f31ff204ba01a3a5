// Whether slots hold readable frames, the last thing that refusal 26 looks at. An internal crate.
// Precondition: the bytes of slots.
#![tactic(auto)]

ghost use Rattle.std.specs.Prelude.{◌≡◌, ◌≤◌, length, eqb};
ghost use Rattle.frame.specs.Reading.{refusal};
ghost use Rattle.rules.specs.Sizes.{width};
ghost use Rattle.rules.specs.Refusals.{each_readable};
ghost use Rattle.slots.specs.Slots.{slot_length, framed, Slots, first_slots, held};

use frame::{DEADLINE_AT, ENTRIES_AT, MARK_AND_VERSION, MASK_AT, WIDTH};
use numbers::number_at;
use slots::SLOT;

// The first eight bytes of a slot as one number: the unit of the length in it, and mark and version,
// which are left of it without the length and the low six bits of the source.
const LENGTH_UNIT: u64 = 0x1000000000000;

const SLOT_HEAD: u64 = MARK_AND_VERSION * 4;

// Where the deadline stands in a slot, the mask, and the entries: behind the length in 16 bits.
const SLOT_DEADLINE_AT: usize = 2 + DEADLINE_AT;

const SLOT_MASK_AT: usize = 2 + MASK_AT;

const SLOT_ENTRIES_AT: usize = 2 + ENTRIES_AT;

// Whether a slot, here with those behind it, holds a readable frame. It is the test of `frame_check`, in
// another form for speed: the first eight bytes are one number, and since a slot has room for 64
// entries, the length is compared last. (The bits are taken off one by one: a `for` up to their count
// was tried, and takes twenty instructions more a slot, a third of the time of a frame without entries.)
#[tactic(auto, using(crate::proofs::Entries::left_within, crate::proofs::Entries::entry_within))]
fn holds_frame(slot: &[u8]) -> bool
    requires { slot_length ≤ length slot.now }
    ensures { result ≡ eqb (refusal width (framed slot.now)) 0 }
{
    let head = number_at(slot, 0, 8);
    if head % LENGTH_UNIT / 64 != SLOT_HEAD {
        return false;
    }
    let deadline = number_at(slot, SLOT_DEADLINE_AT, WIDTH);
    if deadline == 0 {
        return false;
    }
    let mut bits = number_at(slot, SLOT_MASK_AT, 8);
    let mut at = SLOT_ENTRIES_AT;
    while bits != 0 {
        let entry = number_at(slot, at, WIDTH);
        if entry == 0 {
            return false;
        }
        if deadline <= entry {
            return false;
        }
        bits &= bits - 1;
        at += WIDTH;
    }
    let length = number_at(slot, at, 1) as usize;
    if 32 < length {
        return false;
    }
    (head / LENGTH_UNIT) as usize + 1 == at + length
}

// Whether each of the first slots holds a readable frame. (A function of its own in the code too: so the
// tests before it stand in each call that makes it.)
#[inline(never)]
pub fn all_read(slots: &[u8], count: usize) -> bool
    requires { Slots slots.now × (count ≤ 32) }
    ensures { result ≡ each_readable (held slots.now (first_slots count)) }
{
    for slot in 0..count {
        if !holds_frame(&slots[slot * SLOT..]) {
            return false;
        }
    }
    true
}
