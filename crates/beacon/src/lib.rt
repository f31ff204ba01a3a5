// The status beacon in place, for C, which lends a record in its parts, and has numbers; `beacon_c`
// exports it, and include/panel.h makes of it a call on a pointer to the struct. It accepts any input. A
// crate of its own, as the archive is (`beacon_c` says why).
#![tactic(auto)]

ghost use Rattle.rules.specs.Calls.{beacon_lifetime};
ghost use Rattle.rules.specs.Results.{send};
ghost use Rattle.lent.specs.Record.{parts};
ghost use Rattle.parts.specs.Record.{PromisedInPlace};

use lent::{State, Waiting};
use lifetimes::BEACON_LIFETIME;
use parts::Answer;
use sending::send_in_place;
use slots::SLOTS;

// The status beacon: in everything a send of this payload with the lifetime of a beacon.
pub fn panel_beacon_parts(
    own: u8,
    time: u64,
    high: &mut u64,
    count: &mut usize,
    marks: &mut [u64; 64],
    barrier: &mut [u64; 64],
    slots: &mut [u8; SLOTS],
    floor: &mut u64,
    payload: &[u8],
    output: &mut [u8],
    buffer: &mut [u8],
) -> Answer
    ensures { PromisedInPlace
        (parts own time high.old count.old marks.old barrier.old slots.old floor.old)
        (send payload.now beacon_lifetime output.old buffer.old) result
        (parts own time high.new count.new marks.new barrier.new slots.new floor.new)
        output.new buffer.new }
{
    let mut state = State {
        own,
        time,
        high,
        marks,
        barrier,
        floor,
    };
    let mut list = Waiting { count, slots };
    Answer::from(send_in_place(
        &mut state,
        &mut list,
        payload,
        BEACON_LIFETIME,
        output,
        buffer,
    ))
}
