// Clock by value, thin over that in place: it lends the parts of the struct that it was given.
ghost use Rattle.std.specs.Prelude.{[]};
ghost use Rattle.rules.specs.Results.{Promised, clock};
ghost use Rattle.panel.specs.Record.{record_of, GivenBack, result_of, number_given};

use clocking::clock_in_place;
use lent::{State, Waiting};
use panel::{Given, Panel};

// The clock shows a time: the log records stand in the output.
pub fn panel_clock(mut p: Panel, time: u64, output: &mut [u8]) -> Given
    ensures promised { Promised (record_of p) (clock time output.old) (result_of result output.new []) }
    ensures given_back { GivenBack (number_given result) p result.panel }
{
    let mut state = State {
        own: p.own,
        time: p.time,
        high: &mut p.high,
        marks: &mut p.marks,
        barrier: &mut p.barrier,
        floor: &mut p.floor,
    };
    let mut list = Waiting {
        count: &mut p.count,
        slots: &mut p.slots,
    };
    let answer = clock_in_place(&mut state, &mut list, time, output);
    p.time = state.time;
    Given { panel: p, answer }
}
