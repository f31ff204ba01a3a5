// Receive, in place on a lent record. Of the record it may touch high, count, marks, barrier, slots and
// floor, and beside it the output; own number and time it only reads. It accepts any input, and what it
// promises is document 01's receive, for every argument. An internal crate: `exports` and `by_value`
// have the public calls.
#![tactic(auto)]

ghost use Rattle.std.specs.Prelude.{◌≡◌, true, ◌⊎◌, [], ◌+◌, ◌*◌, ◌≤◌, ◌<◌, length};
ghost use Rattle.frame.specs.Reading.{message_in};
ghost use Rattle.rules.specs.Sizes.{width, log_record_length};
ghost use Rattle.rules.specs.Panel.{ready as is_ready};
ghost use Rattle.rules.specs.Results.{receive};
ghost use Rattle.slots.specs.Slots.{Kept, first_slots};
ghost use Rattle.choosing.specs.Choice.{asking};
ghost use Rattle.lent.specs.Record.{known, parts_of, SameState, SameWaiting};
ghost use Rattle.settling.specs.Record.{stage_at};
ghost use Rattle.parts.specs.Answers.{answer_of};
ghost use Rattle.parts.specs.Record.{PromisedInPlace};
ghost use Rattle.checking.specs.Checks.{NotNarrow};
ghost use Rattle.receiving.specs.Steps.{Taken};

use checking::check_receive;
use choosing::ready;
use frame::{BUFFER, Refusal};
use frame_check::is_narrow;
use handing::{Log, hand};
use lent::{State, View, Waiting};
use parts::{Accepted, settle_slots};
use slot_moves::put_frame;
use slots::{Places, Readable};
use widening::widen;

// Takes a message: a ready one is handed without entering the list, any other goes to its end.
fn take(state: &mut State, list: &mut Waiting, log: &mut Log, message: Readable)
    requires kept { Kept list.old.slots.now list.old.count.now }
    requires place { (list.old.count.now < 32)
        ⊎ (is_ready (asking state.old.marks.now state.old.time state.old.floor.now) (message_in width message.frame.now) ≡ true) }
    requires room { log.old.count * log_record_length + log_record_length ≤ length log.old.output.now }
    ensures same { SameState state.old state.new × SameWaiting list.old list.new
        × (log.new.output.ghost_name ≡ log.old.output.ghost_name) }
    ensures long { length log.new.output.now ≡ length log.old.output.now }
    ensures taken { Taken (message_in width message.entry.frame.now)
        list.old.slots.now (stage_at (known state.old) list.old.count.now (first_slots 32) log.old.count log.old.output.now)
        list.new.slots.now (stage_at (known state.new) list.new.count.now (first_slots 32) log.new.count log.new.output.now) }
{
    let floor = *state.floor;
    if ready(message, message.mask(), state.marks, state.time, floor).ready {
        hand(state, log, message);
        return;
    }
    let last = *list.count;
    put_frame(list.slots, last, message.frame);
    *list.count += 1;
}

// A frame is received that does not read in version 1.
fn receive_wide(
    state: &mut State,
    list: &mut Waiting,
    frame: &[u8],
    output: &mut [u8],
) -> Result<Accepted, Refusal>
    requires { NotNarrow frame.now }
    ensures same { SameState state.old state.new × SameWaiting list.old list.new }
    ensures promised { PromisedInPlace (parts_of state.old list.old) (receive frame.now output.old) (answer_of result)
        (parts_of state.new list.new) output.new [] }
{
    check_receive(View::of(state, list), frame, output)?;
    let mut log = Log { output, count: 0 };
    take(state, list, &mut log, Readable { frame });
    let places = Places::first(*list.count);
    settle_slots(state, list, places, &mut log);
    Ok(Accepted {
        count: log.count,
        length: 0,
    })
}

// A frame is received: the log records stand in the output. One of version 1 is widened first, so that
// all behind knows version 2 alone.
pub fn receive_in_place(
    state: &mut State,
    list: &mut Waiting,
    frame: &[u8],
    output: &mut [u8],
) -> Result<Accepted, Refusal>
    ensures same { SameState state.old state.new × SameWaiting list.old list.new }
    ensures promised { PromisedInPlace (parts_of state.old list.old) (receive frame.now output.old) (answer_of result)
        (parts_of state.new list.new) output.new [] }
{
    if is_narrow(frame) {
        let mut wide = [0u8; BUFFER];
        let length = widen(frame, &mut wide);
        return receive_wide(state, list, &wide[..length], output);
    }
    receive_wide(state, list, frame, output)
}
