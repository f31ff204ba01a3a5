// The calls in place for C, which lends a record in its parts, and has numbers; `exports_c` exports them, and
// include/panel.h makes of them calls on a pointer to the struct. Each accepts any input, and may touch
// what the call may (fresh: every part).
#![tactic(auto)]

ghost use Rattle.std.specs.Prelude.{[]};
ghost use Rattle.rules.specs.Results.{send, receive, clock};
ghost use Rattle.lent.specs.Record.{parts};
ghost use Rattle.parts.specs.Record.{PromisedInPlace};
ghost use Rattle.exports.specs.Fresh.{FreshInPlace};

use clocking::clock_in_place;
use frame::Refusal;
use lent::{State, Waiting};
use parts::Answer;
use receiving::receive_in_place;
use sending::send_in_place;
use slots::SLOTS;

// A fresh panel, with all bytes of its slots 0; for a number above 63 it is panel 0, with 11.
pub fn panel_fresh_parts(
    number: u8,
    own: &mut u8,
    time: &mut u64,
    high: &mut u64,
    count: &mut usize,
    marks: &mut [u64; 64],
    barrier: &mut [u64; 64],
    slots: &mut [u8; SLOTS],
    floor: &mut u64,
) -> u8
    ensures { FreshInPlace number result
        (parts own.new time.new high.new count.new marks.new barrier.new slots.new floor.new) }
{
    *time = 0;
    *high = 0;
    *count = 0;
    *marks = [0u64; 64];
    *barrier = [0u64; 64];
    *slots = [0u8; SLOTS];
    *floor = 0;
    if 63 < number {
        *own = 0;
        return Refusal::PanelNumber.number();
    }
    *own = number;
    0
}

// A payload is sent with a lifetime: its frame stands in the buffer, and the log records in the output.
pub fn panel_send_parts(
    own: u8,
    time: u64,
    high: &mut u64,
    count: &mut usize,
    marks: &mut [u64; 64],
    barrier: &mut [u64; 64],
    slots: &mut [u8; SLOTS],
    floor: &mut u64,
    payload: &[u8],
    lifetime: u16,
    output: &mut [u8],
    buffer: &mut [u8],
) -> Answer
    ensures { PromisedInPlace
        (parts own time high.old count.old marks.old barrier.old slots.old floor.old)
        (send payload.now lifetime output.old buffer.old) result
        (parts own time high.new count.new marks.new barrier.new slots.new floor.new)
        output.new buffer.new }
{
    let mut state = State {
        own,
        time,
        high,
        marks,
        barrier,
        floor,
    };
    let mut list = Waiting { count, slots };
    Answer::from(send_in_place(&mut state, &mut list, payload, lifetime, output, buffer))
}

// A frame is received: the log records stand in the output.
pub fn panel_receive_parts(
    own: u8,
    time: u64,
    high: &mut u64,
    count: &mut usize,
    marks: &mut [u64; 64],
    barrier: &mut [u64; 64],
    slots: &mut [u8; SLOTS],
    floor: &mut u64,
    frame: &[u8],
    output: &mut [u8],
) -> Answer
    ensures { PromisedInPlace
        (parts own time high.old count.old marks.old barrier.old slots.old floor.old)
        (receive frame.now output.old) result
        (parts own time high.new count.new marks.new barrier.new slots.new floor.new)
        output.new [] }
{
    let mut state = State {
        own,
        time,
        high,
        marks,
        barrier,
        floor,
    };
    let mut list = Waiting { count, slots };
    Answer::from(receive_in_place(&mut state, &mut list, frame, output))
}

// The clock shows a time: the log records stand in the output.
pub fn panel_clock_parts(
    own: u8,
    time: &mut u64,
    high: &mut u64,
    count: &mut usize,
    marks: &mut [u64; 64],
    barrier: &mut [u64; 64],
    slots: &mut [u8; SLOTS],
    floor: &mut u64,
    reading: u64,
    output: &mut [u8],
) -> Answer
    ensures { PromisedInPlace
        (parts own time.old high.old count.old marks.old barrier.old slots.old floor.old)
        (clock reading output.old) result
        (parts own time.new high.new count.new marks.new barrier.new slots.new floor.new)
        output.new [] }
{
    let mut state = State {
        own,
        time: *time,
        high,
        marks,
        barrier,
        floor,
    };
    let mut list = Waiting { count, slots };
    let answer = clock_in_place(&mut state, &mut list, reading, output);
    *time = state.time;
    Answer::from(answer)
}
