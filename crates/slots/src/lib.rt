// The waiting list as it lies in a panel's record, and what is read there: 32 slots, each with the
// length of a frame in 16 bits and then the frame, of version 2. An internal crate. Precondition: slots that
// hold readable frames; the calls of a panel refuse any other record.
#![tactic(auto)]

mod readable;

ghost use Rattle.std.specs.Prelude.{◌≡◌, ◌<◌};
ghost use Rattle.rules.specs.Panel.{has_lapsed};
ghost use Rattle.slots.specs.Slots.{Slots, Fits, Kept, first_slots, frame_at};
ghost use Rattle.slots.specs.Alive.{Alive};

use frame::BUFFER;
use numbers::number_at;
pub use readable::Readable;
use std::array;

// The bytes of a slot: a length, and room for the longest frame.
pub const SLOT: usize = 2 + BUFFER;

// The bytes of all slots.
pub const SLOTS: usize = 32 * SLOT;

// Slots, so many of them, in order. (No ArrayVec of the kit: it closes up by memmove, which the archive for
// C must not need.)
#[derive(Clone, Copy)]
pub struct Places {
    pub count: usize,
    pub slots: [u8; 32],
}

impl Places {
    // The first slots, so many of them.
    pub fn first(count: usize) -> Places
        ensures { (result.count ≡ count) × (result.slots ≡ first_slots 32) }
    {
        Places {
            count,
            slots: array::from_fn(|slot| slot as u8),
        }
    }
}

// The frame in a slot that has room for it. The length is read only where it is asked for.
pub fn kept_frame(slots: &[u8], slot: usize) -> &[u8]
    requires { Slots slots.now × (slot < 32) × Fits slots.now slot }
    ensures { result.now ≡ frame_at slots.now slot }
{
    let at = slot * SLOT;
    let length = number_at(slots, at, 2) as usize;
    let start = at + 2;
    let end = start + length;
    &slots[start..end]
}

// Whether a deadline has lapsed at a panel of that time and floor: it is below the time, or at most the
// floor. (Not below floor + 1: that sum could pass 64 bits.)
#[tactic(auto, unfolding(rules::specs::Panel::has_lapsed))]
pub fn has_lapsed(due: u64, time: u64, floor: u64) -> bool
    ensures { result ≡ has_lapsed time floor due }
{
    due < time || due <= floor
}

// Those of the first slots whose messages have not lapsed at that time and floor.
pub fn alive(slots: &[u8], count: usize, time: u64, floor: u64) -> Places
    requires { Slots slots.now × Kept slots.now count }
    ensures { Alive slots.now count time floor result }
{
    let mut places = [0u8; 32];
    let mut kept = 0;
    for slot in 0..count {
        if !has_lapsed(Readable::in_slot(slots, slot).deadline(), time, floor) {
            places[kept] = slot as u8;
            kept += 1;
        }
    }
    Places {
        count: kept,
        slots: places,
    }
}
