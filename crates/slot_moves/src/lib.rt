// What changes slots: a frame is put into one, and frames move up to the first. An internal crate.
// Preconditions: slots, room and readable frames, which the calls of a panel have.
#![tactic(auto)]

ghost use Rattle.std.specs.Prelude.{◌≡◌, ◌++◌, ◌+◌, ◌*◌, ◌≤◌, ◌<◌, length, take, drop};
ghost use Rattle.numbers.specs.Numbers.{big_endian};
ghost use Rattle.numbers.specs.Buffer.{over};
ghost use Rattle.rules.specs.Sizes.{buffer_length};
ghost use Rattle.slots.specs.Slots.{slot_length, slots_length, Slots, Listed};
ghost use Rattle.slot_moves.specs.Moves.{Gathered};

use numbers::{number_at, put_bytes, put_number};
use slots::{SLOT, SLOTS};

// Puts a frame into a slot.
pub fn put_frame(slots: &mut [u8], slot: usize, frame: &[u8])
    requires { Slots slots.old × (slot < 32) × (length frame.now ≤ buffer_length) }
    ensures { slots.new ≡ over slots.old (slot * slot_length)
        (big_endian 2 (length frame.now) ++ frame.now) }
{
    let at = slot * SLOT;
    put_number(slots, at, 2, frame.len() as u64);
    put_bytes(slots, at + 2, frame);
}

// Copies so many bytes to a place before them. (By a loop: of copy_within the compiler makes a memmove,
// which the archive for C must not need.)
fn move_bytes(slots: &mut [u8; SLOTS], to: usize, from: usize, count: usize)
    requires { Slots slots.old × (to ≤ from) × (from + count ≤ slots_length) }
    ensures { slots.new ≡ over slots.old to (take count (drop from slots.old)) }
{
    for i in 0..count {
        slots[to + i] = slots[from + i];
    }
}

// The frames in the slots listed move up to the first slots. (The count stands beside the places, as
// must-fail edits of `parts` give another than they have.)
pub fn gather(slots: &mut [u8; SLOTS], places: &[u8; 32], count: usize)
    requires { Slots slots.old × Listed slots.old count places.now }
    ensures { Gathered slots.old places.now count slots.new }
{
    for (slot, place) in places[..count].iter().enumerate() {
        let place = usize::from(*place);
        if slot < place {
            let from = place * SLOT;
            let length = number_at(slots, from, 2) as usize;
            move_bytes(slots, slot * SLOT, from, 2 + length);
        }
    }
}
