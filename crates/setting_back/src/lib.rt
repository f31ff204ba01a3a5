// Setting a clock back, the service call of W-207 in document 02, in place for C, on a record that is
// lent in its parts; `setting_back_c` exports it, and include/panel.h makes of it a call on a pointer to
// the struct. Of the record it may touch the time alone. It accepts any input. A crate of its own, as
// the archive is (`setting_back_c` says why).
#![tactic(auto)]

ghost use Rattle.std.specs.Prelude.{[]};
ghost use Rattle.rules.specs.Results.{set_back};
ghost use Rattle.lent.specs.Record.{parts, parts_in};
ghost use Rattle.parts.specs.Record.{PromisedInPlace};
ghost use Rattle.setting_back.specs.Answer.{answer_of, TimeLeft};

use frame::Refusal;
use lent::View;
use parts::broken;
use slots::SLOTS;

// The time that a set back leaves: the lower of the panel's own and the reading. Its one refusal is 26.
pub fn set_back(view: View, reading: u64) -> Result<u64, Refusal>
    ensures { TimeLeft (parts_in view.entry) reading result }
{
    if broken(view) {
        return Err(Refusal::RecordBroken);
    }
    Ok(reading.min(view.time))
}

// The time becomes the lower of its own and the reading. Nothing is handed and nothing dropped; all
// else of the record is as it was. The answer is 0, or 26. (C lends the parts, and has numbers.)
pub fn panel_set_back_parts<'a>(
    own: u8,
    time: &mut u64,
    high: u64,
    count: usize,
    marks: &'a [u64; 64],
    barrier: &'a [u64; 64],
    slots: &'a [u8; SLOTS],
    floor: u64,
    reading: u64,
) -> u8
    ensures { PromisedInPlace
        (parts own time.old high count marks.now barrier.now slots.now floor)
        (set_back reading) (answer_of result)
        (parts own time.new high count marks.now barrier.now slots.now floor) [] [] }
{
    let view = View {
        own,
        time: *time,
        high,
        count,
        marks,
        barrier,
        slots,
        floor,
    };
    match set_back(view, reading) {
        Ok(lower) => {
            *time = lower;
            0
        }
        Err(refusal) => refusal.number(),
    }
}
