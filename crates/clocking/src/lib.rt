// Clock, in place on a lent record. Of the record it may touch time, high, count, marks, barrier, slots
// and floor, and beside it the output; the own number it only reads. It accepts any input, and what it
// promises is document 01's clock, for every argument. An internal crate: `exports` and `by_value` have
// the public calls.
#![tactic(auto)]

ghost use Rattle.std.specs.Prelude.{◌≡◌, []};
ghost use Rattle.frame.specs.Refusal.{first_of, number_in};
ghost use Rattle.rules.specs.Results.{clock};
ghost use Rattle.lent.specs.Record.{parts_of, SameReferences, SameWaiting};
ghost use Rattle.parts.specs.Answers.{answer_of};
ghost use Rattle.parts.specs.Record.{PromisedInPlace};
ghost use Rattle.clocking.specs.Checks.{clock_checks_on};

use frame::Refusal;
use handing::Log;
use lent::{State, View, Waiting};
use parts::{Accepted, OUTPUT, broken, settle_slots};
use slots::alive;

// The first check that turns down a clock reading: 26, 10, 25.
#[tactic(auto, unfolding(frame::specs::Refusal::first_of))]
fn check(broken: bool, output: usize, reading: u64, time: u64) -> Result<(), Refusal>
    ensures { number_in result ≡ first_of (clock_checks_on broken output reading time) }
{
    if broken {
        return Err(Refusal::RecordBroken);
    }
    if output < OUTPUT {
        return Err(Refusal::BufferShort);
    }
    if reading < time {
        return Err(Refusal::ClockBack);
    }
    Ok(())
}

// The clock shows a time: the log records stand in the output.
pub fn clock_in_place(
    state: &mut State,
    list: &mut Waiting,
    reading: u64,
    output: &mut [u8],
) -> Result<Accepted, Refusal>
    ensures same { (state.new.own ≡ state.old.own) × SameReferences state.old state.new × SameWaiting list.old list.new }
    ensures promised { PromisedInPlace (parts_of state.old list.old) (clock reading output.old) (answer_of result)
        (parts_of state.new list.new) output.new [] }
{
    let broken = broken(View::of(state, list));
    check(broken, output.len(), reading, state.time)?;
    let places = alive(list.slots, *list.count, reading, *state.floor);
    state.time = reading;
    let mut log = Log { output, count: 0 };
    settle_slots(state, list, places, &mut log);
    Ok(Accepted {
        count: log.count,
        length: 0,
    })
}
