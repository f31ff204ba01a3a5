// A trace for C, over the crate tracing: the same promise, called by C on a record that is lent in its
// parts and only read; include/panel.h makes of it a call on a pointer to the struct. It accepts any
// input. An archive of its own: what a receive calls stays as short as it is where nobody asks for the
// visits.
#![tactic(auto)]

ghost use Rattle.std.specs.Prelude.{◌≡◌};
ghost use Rattle.visits.specs.Visiting.{trace};
ghost use Rattle.lent.specs.Record.{parts, record_of};
ghost use Rattle.tracing.specs.Shown.{shown_in};

use slots::SLOTS;
use tracing::Trace;

// A frame is looked at, and nothing is changed.
#[unsafe(no_mangle)]
pub extern "C" fn panel_trace_parts<'a, 'b>(
    own: u8,
    time: u64,
    high: u64,
    count: usize,
    marks: &'a [u64; 64],
    barrier: &'a [u64; 64],
    slots: &'a [u8; SLOTS],
    floor: u64,
    frame: &'b [u8],
) -> Trace
    ensures { shown_in result ≡ trace
        (record_of (parts own time high count marks.now barrier.now slots.now floor))
        frame.now }
{
    tracing::panel_trace_parts(own, time, high, count, marks, barrier, slots, floor, frame)
}
