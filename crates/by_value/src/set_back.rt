// Set back by value, over `set_back`, as that in place is: it lends all from the struct that it was given.
ghost use Rattle.std.specs.Prelude.{[]};
ghost use Rattle.rules.specs.Results.{Promised, set_back};
ghost use Rattle.panel.specs.Record.{record_of, GivenBack, result_of, number_given};

use lent::View;
use panel::{Given, Panel};
use parts::Accepted;
use setting_back::set_back;

// The time becomes the lower of its own and the reading; all else is as it was.
pub fn panel_set_back(mut p: Panel, reading: u64) -> Given
    ensures promised { Promised (record_of p) (set_back reading) (result_of result [] []) }
    ensures given_back { GivenBack (number_given result) p result.panel }
{
    let view = View {
        own: p.own,
        time: p.time,
        high: p.high,
        count: p.count,
        marks: &p.marks,
        barrier: &p.barrier,
        slots: &p.slots,
        floor: p.floor,
    };
    match set_back(view, reading) {
        Ok(lower) => {
            p.time = lower;
            Given {
                panel: p,
                answer: Ok(Accepted {
                    count: 0,
                    length: 0,
                }),
            }
        }
        Err(refusal) => Given {
            panel: p,
            answer: Err(refusal),
        },
    }
}
