// A frame that reads as a message, and what is read of it.
#![tactic(auto)]

ghost use Rattle.std.specs.Prelude.{◌≡◌, ◌&&◌, ◌<◌, eqb};
ghost use Rattle.frame.specs.Reading.{mask_in, message_in};
ghost use Rattle.rules.specs.Sizes.{width};
ghost use Rattle.rules.specs.Refusals.{is_waiting};
ghost use Rattle.slots.specs.Slots.{Reads, Slots, Kept, frame_at, first_slots, held};

use crate::kept_frame;
use frame::{DEADLINE_AT, MASK_AT, WIDTH};
use numbers::number_at;

// A frame of version 2 that reads as a message.
#[derive(Clone, Copy)]
pub struct Readable<'a> {
    pub frame: &'a [u8],
    pub ghost reads: { Reads frame.now },
}

impl<'a> Readable<'a> {
    // The frame in a slot that holds a readable one.
    pub fn in_slot(slots: &'a [u8], slot: usize) -> Self
        requires { Slots slots.now × (slot < 32) × Reads (frame_at slots.now slot) }
        ensures { result.frame.now ≡ frame_at slots.now slot }
    {
        let frame = kept_frame(slots, slot);
        Readable { frame }
    }

    // The source, the deadline and the mask of its message.
    pub fn source(self) -> u8
        ensures { result ≡ (message_in width self.entry.frame.now).source }
    {
        self.frame[5]
    }

    pub fn deadline(self) -> u64
        ensures { result ≡ (message_in width self.entry.frame.now).deadline }
    {
        number_at(self.frame, DEADLINE_AT, WIDTH)
    }

    pub fn mask(self) -> u64
        ensures { result ≡ mask_in width self.entry.frame.now }
    {
        number_at(self.frame, MASK_AT, 8)
    }

    // Whether its message has that source and deadline.
    fn is_named(self, panel: u8, due: u64) -> bool
        ensures { result ≡ (eqb panel (message_in width self.entry.frame.now).source && eqb due (message_in width self.entry.frame.now).deadline) }
    {
        panel == self.source() && due == self.deadline()
    }

    // Whether a message of the same source and deadline waits in the first slots.
    pub fn is_waiting(self, slots: &[u8], count: usize) -> bool
        requires { Slots slots.now × Kept slots.now count }
        ensures { result ≡ is_waiting (message_in width self.entry.frame.now) (held slots.now (first_slots count)) }
    {
        let panel = self.source();
        let due = self.deadline();
        for slot in 0..count {
            if Readable::in_slot(slots, slot).is_named(panel, due) {
                return true;
            }
        }
        false
    }
}
