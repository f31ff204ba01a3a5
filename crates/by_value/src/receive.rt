// Receive by value, thin over that in place: it lends the parts of the struct that it was given.
ghost use Rattle.std.specs.Prelude.{[]};
ghost use Rattle.rules.specs.Results.{Promised, receive};
ghost use Rattle.panel.specs.Record.{record_of, GivenBack, result_of, number_given};

use lent::{State, Waiting};
use panel::{Given, Panel};
use receiving::receive_in_place;

// A frame is received: the log records stand in the output.
pub fn panel_receive(mut p: Panel, frame: &[u8], output: &mut [u8]) -> Given
    ensures promised { Promised (record_of p) (receive frame.now output.old) (result_of result output.new []) }
    ensures given_back { GivenBack (number_given result) p result.panel }
{
    let mut state = State {
        own: p.own,
        time: p.time,
        high: &mut p.high,
        marks: &mut p.marks,
        barrier: &mut p.barrier,
        floor: &mut p.floor,
    };
    let mut list = Waiting {
        count: &mut p.count,
        slots: &mut p.slots,
    };
    let answer = receive_in_place(&mut state, &mut list, frame, output);
    Given { panel: p, answer }
}
