// Settling: while some waiting message is ready, the chosen one leaves the list and is handed. An
// internal crate. Preconditions: slots that hold readable frames, and room in the output; the calls of a
// panel refuse anything else.
#![tactic(auto)]

ghost use Rattle.std.specs.Prelude.{◌≡◌, ◌+◌, ◌*◌, ◌≤◌, ◌<◌, length, get_or};
ghost use Rattle.rules.specs.Sizes.{log_record_length};
ghost use Rattle.slots.specs.Slots.{Slots, Listed};
ghost use Rattle.lent.specs.Record.{SameState};
ghost use Rattle.settling.specs.Record.{Leaves, stage_of, Settles};

use choosing::choice;
use handing::{Log, hand};
use lent::State;
use slots::{Places, Readable};

// The slot at that place leaves the list, and is the answer; those behind it move up.
fn leave(list: &mut Places, place: usize) -> u8
    requires { (length list.old.slots ≡ 32) × (list.old.count ≤ 32) × (place < list.old.count) }
    ensures { (result ≡ get_or list.old.slots place 0) × Leaves place list.old list.new }
{
    let slot = list.slots[place];
    list.count -= 1;
    for i in place..list.count {
        list.slots[i] = list.slots[i + 1];
    }
    slot
}

// While some waiting message is ready, the chosen one leaves the list and is handed, and settling
// goes on with what is left.
pub fn settle(state: &mut State, list: &mut Places, slots: &[u8], log: &mut Log)
    requires slots { Slots slots.now × Listed slots.now list.old.count list.old.slots × (length list.old.slots ≡ 32) }
    requires room { (log.old.count + list.old.count) * log_record_length ≤ length log.old.output.now }
    ensures same { SameState state.old state.new × (log.new.output.ghost_name ≡ log.old.output.ghost_name) }
    ensures settled { Settles slots.now (stage_of state.old list.old log.old) (stage_of state.new list.new log.new) }
{
    let Some(next) = choice(list, slots, state.marks, state.time, *state.floor) else {
        return;
    };
    let slot = leave(list, next.place) as usize;
    hand(state, log, Readable::in_slot(slots, slot));
    settle(state, list, slots, log)
}
