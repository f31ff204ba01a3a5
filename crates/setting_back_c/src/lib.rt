// Setting a clock back for C, over the crate setting_back: the same promise, called by C on a record that
// is lent in its parts; include/panel.h makes of it a call on a pointer to the struct. It accepts any
// input. An archive of its own: the object of the other calls is not longer by it.
#![tactic(auto)]

ghost use Rattle.std.specs.Prelude.{[]};
ghost use Rattle.rules.specs.Results.{set_back};
ghost use Rattle.lent.specs.Record.{parts};
ghost use Rattle.parts.specs.Record.{PromisedInPlace};
ghost use Rattle.setting_back.specs.Answer.{answer_of};

use slots::SLOTS;

// The time becomes the lower of its own and the reading. Nothing is handed and nothing dropped; all
// else of the record is as it was. The answer is 0, or 26.
#[unsafe(no_mangle)]
pub extern "C" fn panel_set_back_parts<'a>(
    own: u8,
    time: &mut u64,
    high: u64,
    count: usize,
    marks: &'a [u64; 64],
    barrier: &'a [u64; 64],
    slots: &'a [u8; SLOTS],
    floor: u64,
    reading: u64,
) -> u8
    ensures { PromisedInPlace
        (parts own time.old high count marks.now barrier.now slots.now floor)
        (set_back reading) (answer_of result)
        (parts own time.new high count marks.now barrier.now slots.now floor) [] [] }
{
    setting_back::panel_set_back_parts(
        own, time, high, count, marks, barrier, slots, floor, reading,
    )
}
