// The status beacon by value: in everything a send of this payload with the lifetime of a beacon.
ghost use Rattle.rules.specs.Calls.{beacon_lifetime};
ghost use Rattle.rules.specs.Results.{Promised, send};
ghost use Rattle.panel.specs.Record.{record_of, GivenBack, result_of, number_given};

use crate::panel_send;
use lifetimes::BEACON_LIFETIME;
use panel::{Given, Panel};

// Its frame stands in the buffer, and the log records in the output.
pub fn panel_beacon(p: Panel, payload: &[u8], output: &mut [u8], buffer: &mut [u8]) -> Given
    ensures promised { Promised (record_of p) (send payload.now beacon_lifetime output.old buffer.old)
        (result_of result output.new buffer.new) }
    ensures given_back { GivenBack (number_given result) p result.panel }
{
    panel_send(p, payload, BEACON_LIFETIME, output, buffer)
}
