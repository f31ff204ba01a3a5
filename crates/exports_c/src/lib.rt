// The calls in place for C, over the crate exports: the same promises, called by C on a record that is
// lent in its parts; include/panel.h makes of them calls on a pointer to the struct. Each accepts any
// input.
#![tactic(auto)]

ghost use Rattle.std.specs.Prelude.{[]};
ghost use Rattle.rules.specs.Results.{send, receive, clock};
ghost use Rattle.lent.specs.Record.{parts};
ghost use Rattle.parts.specs.Record.{PromisedInPlace};
ghost use Rattle.exports.specs.Fresh.{FreshInPlace};

use parts::Answer;
use slots::SLOTS;

// A fresh panel, with all bytes of its slots 0; for a number above 63 it is panel 0, with 11.
#[unsafe(no_mangle)]
pub extern "C" fn panel_fresh_parts(
    number: u8,
    own: &mut u8,
    time: &mut u64,
    high: &mut u64,
    count: &mut usize,
    marks: &mut [u64; 64],
    barrier: &mut [u64; 64],
    slots: &mut [u8; SLOTS],
    floor: &mut u64,
) -> u8
    ensures { FreshInPlace number result
        (parts own.new time.new high.new count.new marks.new barrier.new slots.new floor.new) }
{
    exports::panel_fresh_parts(number, own, time, high, count, marks, barrier, slots, floor)
}

// A payload is sent with a lifetime: its frame stands in the buffer, and the log records in the output.
#[unsafe(no_mangle)]
pub extern "C" fn panel_send_parts(
    own: u8,
    time: u64,
    high: &mut u64,
    count: &mut usize,
    marks: &mut [u64; 64],
    barrier: &mut [u64; 64],
    slots: &mut [u8; SLOTS],
    floor: &mut u64,
    payload: &[u8],
    lifetime: u16,
    output: &mut [u8],
    buffer: &mut [u8],
) -> Answer
    ensures { PromisedInPlace
        (parts own time high.old count.old marks.old barrier.old slots.old floor.old)
        (send payload.now lifetime output.old buffer.old) result
        (parts own time high.new count.new marks.new barrier.new slots.new floor.new)
        output.new buffer.new }
{
    exports::panel_send_parts(
        own, time, high, count, marks, barrier, slots, floor, payload, lifetime, output, buffer,
    )
}

// A frame is received: the log records stand in the output.
#[unsafe(no_mangle)]
pub extern "C" fn panel_receive_parts(
    own: u8,
    time: u64,
    high: &mut u64,
    count: &mut usize,
    marks: &mut [u64; 64],
    barrier: &mut [u64; 64],
    slots: &mut [u8; SLOTS],
    floor: &mut u64,
    frame: &[u8],
    output: &mut [u8],
) -> Answer
    ensures { PromisedInPlace
        (parts own time high.old count.old marks.old barrier.old slots.old floor.old)
        (receive frame.now output.old) result
        (parts own time high.new count.new marks.new barrier.new slots.new floor.new)
        output.new [] }
{
    exports::panel_receive_parts(
        own, time, high, count, marks, barrier, slots, floor, frame, output,
    )
}

// The clock shows a time: the log records stand in the output.
#[unsafe(no_mangle)]
pub extern "C" fn panel_clock_parts(
    own: u8,
    time: &mut u64,
    high: &mut u64,
    count: &mut usize,
    marks: &mut [u64; 64],
    barrier: &mut [u64; 64],
    slots: &mut [u8; SLOTS],
    floor: &mut u64,
    reading: u64,
    output: &mut [u8],
) -> Answer
    ensures { PromisedInPlace
        (parts own time.old high.old count.old marks.old barrier.old slots.old floor.old)
        (clock reading output.old) result
        (parts own time.new high.new count.new marks.new barrier.new slots.new floor.new)
        output.new [] }
{
    exports::panel_clock_parts(
        own, time, high, count, marks, barrier, slots, floor, reading, output,
    )
}
