// A trace by value, thin over that in place.
ghost use Rattle.std.specs.Prelude.{◌≡◌};
ghost use Rattle.visits.specs.Visiting.{trace};
ghost use Rattle.tracing.specs.Shown.{shown_in};
ghost use Rattle.panel.specs.Record.{record_of};

use crate::Panel;
use tracing::{Trace, panel_trace_parts};

// A frame is looked at: what a receive of it would answer, and the visits of the test for ready.
pub fn panel_trace(p: Panel, frame: &[u8]) -> Trace
    ensures { shown_in result ≡ trace (record_of p) frame.now }
{
    panel_trace_parts(
        p.own, p.time, p.high, p.count, &p.marks, &p.barrier, &p.slots, p.floor, frame,
    )
}
