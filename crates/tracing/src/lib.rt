// A trace, on a record that is lent in its parts and only read; `tracing_c` exports it for C, and
// include/panel.h makes of it a call on a pointer to the struct. It accepts any input. A crate of its
// own, as the archive is (`tracing_c` says why).
#![tactic(auto)]

ghost use Rattle.std.specs.Prelude.{◌≡◌, cond};
ghost use Rattle.frame.specs.Refusal.{number_of};
ghost use Rattle.visits.specs.Visiting.{trace};
ghost use Rattle.lent.specs.Record.{parts, parts_in, record_of};
ghost use Rattle.checking.specs.Checks.{NotNarrow};
ghost use Rattle.tracing.specs.Shown.{shown_in};

use checking::check_message;
use choosing::ready;
use frame::{BUFFER, Refusal, number_in};
use frame_check::{frame_check, is_narrow};
use lent::View;
use parts::broken;
use slots::{Readable, SLOTS};
use widening::widen;

// What is shown of a frame: the number that a receive of it with an output long enough would be refused
// with, or 0; whether the message is ready, and how many of its entries were visited, whatever the
// number is. Bytes that read as no message are not ready, and have no visits. (C has this struct.)
#[repr(C)]
#[derive(Clone, Copy)]
pub struct Trace {
    pub visited: usize,
    pub ready: bool,
    pub number: u8,
}

// The first check that turns down bytes that read as no message: 26, or theirs.
fn unread(broken: bool, refusal: Refusal) -> Refusal
    ensures { number_of result ≡ cond broken 26 (number_of refusal) }
{
    if broken {
        return Refusal::RecordBroken;
    }
    refusal
}

// A frame is looked at that does not read in version 1.
fn trace_wide(view: View, frame: &[u8]) -> Trace
    requires { NotNarrow frame.now }
    ensures { shown_in result ≡ trace (record_of (parts_in view.entry)) frame.now }
{
    let marks = view.marks;
    let broken = broken(view);
    if let Err(refusal) = frame_check(frame) {
        return Trace {
            visited: 0,
            ready: false,
            number: unread(broken, refusal).number(),
        };
    }
    let message = Readable { frame };
    let tested = ready(message, message.mask(), marks, view.time, view.floor);
    if broken {
        return Trace {
            visited: tested.visited,
            ready: tested.ready,
            number: Refusal::RecordBroken.number(),
        };
    }
    Trace {
        visited: tested.visited,
        ready: tested.ready,
        number: number_in(check_message(view, message)),
    }
}

// A frame is looked at, and nothing is changed. One of version 1 is widened first. (C lends the parts.)
pub fn panel_trace_parts<'a, 'b>(
    own: u8,
    time: u64,
    high: u64,
    count: usize,
    marks: &'a [u64; 64],
    barrier: &'a [u64; 64],
    slots: &'a [u8; SLOTS],
    floor: u64,
    frame: &'b [u8],
) -> Trace
    ensures { shown_in result ≡ trace
        (record_of (parts own time high count marks.now barrier.now slots.now floor))
        frame.now }
{
    let view = View {
        own,
        time,
        high,
        count,
        marks,
        barrier,
        slots,
        floor,
    };
    if is_narrow(frame) {
        let mut wide = [0u8; BUFFER];
        let length = widen(frame, &mut wide);
        return trace_wide(view, &wide[..length]);
    }
    trace_wide(view, frame)
}
