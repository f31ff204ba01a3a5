// Send, in place on a lent record. Of the record it may touch high, count, marks, barrier, slots and
// floor, and beside it the output and the frame buffer; own number and time it only reads. It accepts any
// input, and what it promises is document 01's send, for every argument. An internal crate: `exports`,
// `beacon` and `by_value` have the public calls.
#![tactic(auto)]

ghost use Rattle.std.specs.Prelude.{◌≡◌};
ghost use Rattle.frame.specs.Refusal.{first_of, number_in};
ghost use Rattle.rules.specs.Results.{send};
ghost use Rattle.lent.specs.Record.{parts_of, SameState, SameWaiting};
ghost use Rattle.parts.specs.Answers.{answer_of};
ghost use Rattle.parts.specs.Record.{PromisedInPlace};
ghost use Rattle.sending.specs.Checks.{send_checks_on};

use frame::{BUFFER, Refusal};
use handing::{Log, hand};
use lent::{State, View, Waiting};
use lifetimes::{passes_last, send_deadline};
use parts::{Accepted, OUTPUT, broken, settle_slots};
use slots::{Places, Readable};
use writing::write;

// The first check that turns down a send: 26, 10, 9, 24.
#[tactic(auto, unfolding(frame::specs::Refusal::first_of))]
fn check(
    broken: bool,
    output: usize,
    buffer: usize,
    payload: usize,
    passes: bool,
) -> Result<(), Refusal>
    ensures { number_in result ≡ first_of (send_checks_on broken output buffer payload passes) }
{
    if broken {
        return Err(Refusal::RecordBroken);
    }
    if output < OUTPUT {
        return Err(Refusal::BufferShort);
    }
    if buffer < BUFFER {
        return Err(Refusal::BufferShort);
    }
    if 32 < payload {
        return Err(Refusal::PayloadLong);
    }
    if passes {
        return Err(Refusal::DeadlineTooHigh);
    }
    Ok(())
}

// A payload is sent with a lifetime: its frame stands in the buffer, and the log records in the output.
pub fn send_in_place(
    state: &mut State,
    list: &mut Waiting,
    payload: &[u8],
    lifetime: u16,
    output: &mut [u8],
    buffer: &mut [u8],
) -> Result<Accepted, Refusal>
    ensures same { SameState state.old state.new × SameWaiting list.old list.new }
    ensures promised { PromisedInPlace (parts_of state.old list.old) (send payload.now lifetime output.old buffer.old)
        (answer_of result) (parts_of state.new list.new) output.new buffer.new }
{
    let broken = broken(View::of(state, list));
    let passes = passes_last(state.time, *state.high, lifetime);
    check(broken, output.len(), buffer.len(), payload.len(), passes)?;
    let deadline = send_deadline(state.time, *state.high, lifetime);
    let length = write(state.own, deadline, state.barrier, payload, buffer).unwrap();
    *state.barrier = [0u64; 64];
    let frame = &buffer[0..length];
    let mut log = Log { output, count: 0 };
    hand(state, &mut log, Readable { frame });
    let places = Places::first(*list.count);
    settle_slots(state, list, places, &mut log);
    Ok(Accepted {
        count: log.count,
        length,
    })
}
