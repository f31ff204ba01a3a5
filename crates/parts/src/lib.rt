// What the calls share: what they answer, refusal 26, and settling the slots. `broken` reads the record and
// changes nothing; `settle_slots` changes high, marks, barrier, slots, floor and output. An internal crate.
// Preconditions: places and room, which the calls have.
#![tactic(auto)]

mod answer;

ghost use Rattle.std.specs.Prelude.{◌≡◌, ◌+◌, ◌*◌, ◌≤◌, ◌&&◌, length};
ghost use Rattle.frame.specs.Readable.{each_below};
ghost use Rattle.rules.specs.Sizes.{log_record_length};
ghost use Rattle.rules.specs.Refusals.{broken as is_broken};
ghost use Rattle.slots.specs.Slots.{Listed, first_slots};
ghost use Rattle.settling.specs.Record.{stage_at, stage_of};
ghost use Rattle.lent.specs.Record.{known, parts_in, record_of, SameState, SameWaiting};
ghost use Rattle.parts.specs.Joined.{Joined};
ghost use Rattle.parts.specs.Record.{SettlesSlots};

pub use answer::{Accepted, Answer};
use handing::Log;
use lent::{State, View, Waiting};
use log_records::LOG_RECORD;
use settling::settle;
use slot_check::all_read;
use slot_moves::gather;
use slots::Places;
use std::num::wrapping_sub_u64;

// The bytes that an output needs: room for 33 log records.
pub const OUTPUT: usize = 33 * LOG_RECORD;

// Whether each number is at most the limit. (Not whether each is below the limit and one, as writing asks:
// that sum could pass 64 bits.)
fn each_at_most(numbers: &[u64; 64], limit: u64) -> bool
    ensures { result ≡ each_below (limit + 1) numbers.now }
{
    for number in numbers {
        if limit < *number {
            return false;
        }
    }
    true
}

// Half of the numbers that 64 bits hold.
const HALF: u64 = 9223372036854775808;

// All marks and barrier entries joined, and what the limit leaves beside each pair of them: it reaches half
// of what 64 bits hold if one of them is above the limit. (It goes through all of them without a test, so
// that the compiler takes two at a time.)
fn joined(marks: &[u64; 64], barrier: &[u64; 64], limit: u64) -> u64
    ensures { Joined limit marks.now barrier.now 64 result }
{
    let mut all: u64 = 0;
    for i in 0..64 {
        let pair = marks[i] | barrier[i];
        all |= pair | wrapping_sub_u64(limit, pair);
    }
    all
}

// Whether no mark and no barrier entry is above the limit. At a panel that a list of demand 3 reaches one look
// at all of them says so: there a barrier entry is its panel's mark, or 0.
fn none_above(marks: &[u64; 64], barrier: &[u64; 64], limit: u64) -> bool
    ensures { result ≡ (each_below (limit + 1) marks.now && each_below (limit + 1) barrier.now) }
{
    if joined(marks, barrier, limit) < HALF && limit < HALF {
        return true;
    }
    each_at_most(marks, limit) && each_at_most(barrier, limit)
}

// Whether 26 applies.
pub fn broken(view: View) -> bool
    ensures { result ≡ is_broken (record_of (parts_in view.entry)) }
{
    let slots = view.slots;
    if 63 < view.own {
        return true;
    }
    if !none_above(view.marks, view.barrier, view.high) {
        return true;
    }
    if 32 < view.count {
        return true;
    }
    !all_read(slots, view.count)
}

// Settles, and moves the frames of the messages that still wait up to the first slots.
pub fn settle_slots(state: &mut State, list: &mut Waiting, mut places: Places, log: &mut Log)
    requires slots { Listed list.old.slots.now places.count places.slots }
    requires room { (log.old.count + places.count) * log_record_length ≤ length log.old.output.now }
    ensures same { SameState state.old state.new × SameWaiting list.old list.new
        × (log.new.output.ghost_name ≡ log.old.output.ghost_name) }
    ensures settled { SettlesSlots list.old.slots.now (stage_of state.old places log.old) list.new.slots.now
        (stage_at (known state.new) list.new.count.now (first_slots 32) log.new.count log.new.output.now) }
{
    settle(state, &mut places, list.slots, log);
    gather(list.slots, &places.slots, places.count);
    *list.count = places.count;
}
