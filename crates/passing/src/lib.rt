// Passing the entries of a message as it is handed: what it names leaves the barrier, and the floor rises
// to the largest entry that was missed. An internal crate.
#![tactic(auto)]

ghost use Rattle.std.specs.Prelude.{◌≡◌, max, get_or};
ghost use Rattle.frame.specs.Reading.{message_in};
ghost use Rattle.rules.specs.Sizes.{width};
ghost use Rattle.rules.specs.Handing.{remains, shortened, missed_entry, missed};

use frame::{ENTRIES_AT, WIDTH};
use numbers::number_at;
use slots::Readable;

// What is left of a barrier entry, where a message carries an entry for the same panel: none, which is
// 0, if it is at most that one.
fn remaining(entry: u64, carried: u64) -> u64
    ensures { result ≡ remains entry carried }
{
    if entry <= carried { 0 } else { entry }
}

// Raises the floor to an entry that has lapsed and that the mark of its panel has not reached. (One that
// has lapsed by the floor alone raises nothing. Mostly the mark has reached it, and that is all that is
// looked at.)
#[tactic(auto, unfolding(rules::specs::Panel::has_lapsed))]
fn raise_floor(floor: &mut u64, time: u64, mark: u64, entry: u64)
    ensures { floor.new ≡ max floor.old (missed_entry time 0 mark entry) }
{
    if mark < entry && entry < time && *floor < entry {
        *floor = entry;
    }
}

// Goes through the entries that a message carries, from set bit to set bit of its mask: removes each
// barrier entry that is at most the entry for the same panel, and raises the floor to the largest entry
// that was missed. (By hand: an iterator over the entries takes an instruction more for each.)
#[tactic(auto, using(slots::proofs::Walk::turn_lt))]
pub fn pass_entries(
    time: u64,
    floor: &mut u64,
    marks: &[u64; 64],
    barrier: &mut [u64; 64],
    message: Readable,
)
    ensures { (barrier.new ≡ shortened barrier.old (message_in width message.entry.frame.now).entries)
        × (floor.new ≡ max floor.old
        (missed time floor.old (λ panel. get_or marks.now panel 0) (message_in width message.entry.frame.now).entries)) }
{
    let mut bits = message.mask();
    let mut passed = 0;
    while bits != 0 {
        let panel = u64::trailing_zeros(bits) as usize;
        let carried = number_at(message.frame, ENTRIES_AT + WIDTH * passed, WIDTH);
        barrier[panel] = remaining(barrier[panel], carried);
        raise_floor(floor, time, marks[panel], carried);
        bits &= bits - 1;
        passed += 1;
    }
}
