// Handing: barrier entries that are at most the message's for the same panel are removed, and the floor
// rises to the largest entry that was missed; the log record goes behind those before it, and high, the
// source's mark and barrier entry become at least the deadline. An internal crate.
// Precondition: room in the output; the calls of a panel refuse anything else.
#![tactic(auto)]

ghost use Rattle.std.specs.Prelude.{◌≡◌, ◌+◌, ◌*◌, ◌≤◌, length};
ghost use Rattle.numbers.specs.Buffer.{over};
ghost use Rattle.frame.specs.Reading.{message_in};
ghost use Rattle.rules.specs.Sizes.{width, log_record_length};
ghost use Rattle.rules.specs.Handing.{log_record};
ghost use Rattle.lent.specs.Record.{known, SameState};
ghost use Rattle.handing.specs.Handed.{IsLogged, IsHanded};

use frame::{SHORTEST, WIDTH};
use lent::State;
use log_records::{DEADLINE_AT, LENGTH_AT, LOG_RECORD, PAYLOAD_AT};
use numbers::{put_bytes, put_number};
use passing::pass_entries;
use slots::Readable;

// The log records of a call: so many of them stand at the start of the output. (The output is memory that
// C lends, so the count stands beside it.)
#[derive(Drop)]
pub struct Log<'a> {
    pub output: &'a mut [u8],
    pub count: usize,
}

// The payload of a message: what stands behind the entries and the length byte.
fn payload(message: Readable<'_>) -> &[u8]
    ensures { (result.now ≡ (message_in width message.entry.frame.now).payload) × (length result.now ≤ 32) }
{
    let frame = message.frame;
    let start = SHORTEST + WIDTH * (u64::count_ones(message.mask()) as usize);
    &frame[start..]
}

// Puts the log record of a message at the start of a part of the output.
fn put_log_record(part: &mut [u8], message: Readable)
    requires { log_record_length ≤ length part.old }
    ensures { part.new ≡ over part.old 0 (log_record (message_in width message.entry.frame.now)) }
{
    let payload = payload(message);
    put_number(part, 0, 1, message.source() as u64);
    put_number(part, DEADLINE_AT, WIDTH, message.deadline());
    put_number(part, LENGTH_AT, 1, payload.len() as u64);
    put_bytes(part, PAYLOAD_AT, &[0u8; 32]);
    put_bytes(part, PAYLOAD_AT, payload);
}

// Puts a message into the log, and raises its source's mark and barrier entry and the record's high to at
// least its deadline. Its log record stands behind those of the messages handed before it.
#[tactic(auto, using(crate::proofs::Raising::source_few))]
fn put_in_log(state: &mut State, log: &mut Log, message: Readable)
    requires { log.old.count * log_record_length + log_record_length ≤ length log.old.output.now }
    ensures same { SameState state.old state.new × (log.new.output.ghost_name ≡ log.old.output.ghost_name) }
    ensures logged { IsLogged (message_in width message.entry.frame.now) (known state.old) log.old (known state.new) log.new }
{
    let at = log.count * LOG_RECORD;
    let output = &mut *log.output;
    put_log_record(&mut output[at..], message);
    log.count += 1;
    let deadline = message.deadline();
    let source = message.source() as usize;
    state.marks[source] = state.marks[source].max(deadline);
    state.barrier[source] = state.barrier[source].max(deadline);
    *state.high = deadline.max(*state.high);
}

// Hands a message: its entries are passed, beside the marks and the barrier as they are, and then it is
// put into the log.
pub fn hand(state: &mut State, log: &mut Log, message: Readable)
    requires { log.old.count * log_record_length + log_record_length ≤ length log.old.output.now }
    ensures same { SameState state.old state.new × (log.new.output.ghost_name ≡ log.old.output.ghost_name) }
    ensures handed { IsHanded (message_in width message.entry.frame.now) (known state.old) log.old (known state.new) log.new }
{
    pass_entries(state.time, state.floor, state.marks, state.barrier, message);
    put_in_log(state, log, message);
}
