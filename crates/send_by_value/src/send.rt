// Send by value, thin over that in place: it lends the parts of the struct that it was given.
ghost use Rattle.rules.specs.Results.{Promised, send};
ghost use Rattle.panel.specs.Record.{record_of, GivenBack, result_of, number_given};

use lent::{State, Waiting};
use panel::{Given, Panel};
use sending::send_in_place;

// A payload is sent with a lifetime: its frame stands in the buffer, and the log records in the output.
pub fn panel_send(
    mut p: Panel,
    payload: &[u8],
    lifetime: u16,
    output: &mut [u8],
    buffer: &mut [u8],
) -> Given
    ensures promised { Promised (record_of p) (send payload.now lifetime output.old buffer.old)
        (result_of result output.new buffer.new) }
    ensures given_back { GivenBack (number_given result) p result.panel }
{
    let mut state = State {
        own: p.own,
        time: p.time,
        high: &mut p.high,
        marks: &mut p.marks,
        barrier: &mut p.barrier,
        floor: &mut p.floor,
    };
    let mut list = Waiting {
        count: &mut p.count,
        slots: &mut p.slots,
    };
    let answer = send_in_place(&mut state, &mut list, payload, lifetime, output, buffer);
    Given { panel: p, answer }
}
