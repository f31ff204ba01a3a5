// The choice: which waiting messages are ready, and which of them goes first. An internal crate.
// Precondition: slots that hold readable frames; the calls of a panel refuse any other record.
#![tactic(auto)]

ghost use Rattle.std.specs.Prelude.{◌≡◌, [], ◌∷◌, length, take};
ghost use Rattle.frame.specs.Reading.{mask_in, message_in};
ghost use Rattle.rules.specs.Sizes.{width};
ghost use Rattle.rules.specs.Panel.{met};
ghost use Rattle.rules.specs.Panel.{ready as is_ready};
ghost use Rattle.rules.specs.Settling.{choice as choiceIn};
ghost use Rattle.visits.specs.Visiting.{visits};
ghost use Rattle.slots.specs.Slots.{Slots, Listed, held};
ghost use Rattle.choosing.specs.Choice.{asking, first_in, goes_before, considered};

use frame::{ENTRIES_AT, WIDTH};
use numbers::number_at;
use slots::{Places, Readable, has_lapsed};

// The answer of the test for ready, and how many entries of the message were visited, whichever it is.
#[derive(Clone, Copy)]
pub struct Tested {
    pub ready: bool,
    pub visited: usize,
}

// The message that goes first among those looked at.
#[derive(Clone, Copy)]
pub struct First {
    pub place: usize,
    pub deadline: u64,
    pub source: u8,
}

// Whether an entry is met by its panel's mark, or has lapsed.
#[tactic(auto, unfolding(rules::specs::Panel::met, rules::specs::Panel::lapsed))]
fn is_met(entry: u64, mark: u64, time: u64, floor: u64) -> bool
    ensures { result ≡ met (asking (mark ∷ []) time floor) 0 entry }
{
    entry <= mark || has_lapsed(entry, time, floor)
}

// Whether a message of that mask is ready: from set bit to set bit, lowest first, up to the first entry
// that is not met. (By hand: an iterator over the entries takes an instruction more for each. The mask is
// read before: with it, this would be too long for the compiler to put it into its callers. Marks, time
// and floor are no struct of their own: they come from a state here and from a view there, and each
// caller would have to make it.)
#[tactic(auto, using(slots::proofs::Walk::turn_lt, slots::proofs::Walk::turn_room))]
pub fn ready(message: Readable, mask: u64, marks: &[u64; 64], time: u64, floor: u64) -> Tested
    requires { mask ≡ mask_in width message.frame.now }
    ensures ready_value { result.ready ≡ is_ready (asking marks.now time floor) (message_in width message.entry.frame.now) }
    ensures visited_value { result.visited ≡ visits (asking marks.now time floor) (message_in width message.entry.frame.now) }
{
    let mut bits = mask;
    let mut visited = 0;
    while bits != 0 {
        let panel = u64::trailing_zeros(bits) as usize;
        let entry = number_at(message.frame, ENTRIES_AT + WIDTH * visited, WIDTH);
        visited += 1;
        if !is_met(entry, marks[panel], time, floor) {
            return Tested {
                ready: false,
                visited,
            };
        }
        bits &= bits - 1;
    }
    Tested {
        ready: true,
        visited,
    }
}

// Whether a message goes before the one found.
fn goes_before(deadline: u64, source: u8, first: First) -> bool
    ensures { result ≡ goes_before deadline source first }
{
    (deadline, source) < (first.deadline, first.source)
}

// The message at that place of the list against the one that goes first among the earlier ones.
fn consider(
    first: Option<First>,
    place: usize,
    message: Readable,
    marks: &[u64; 64],
    time: u64,
    floor: u64,
) -> Option<First>
    ensures { result ≡ considered (is_ready (asking marks.now time floor) (message_in width message.entry.frame.now))
        place (message_in width message.entry.frame.now) first }
{
    let deadline = message.deadline();
    let source = message.source();
    if let Some(found) = first {
        if !goes_before(deadline, source, found) {
            return first;
        }
    }
    if !ready(message, message.mask(), marks, time, floor).ready {
        return first;
    }
    Some(First {
        place,
        deadline,
        source,
    })
}

// The ready one of lowest deadline, then lowest source, then earliest in the list.
pub fn choice(
    list: &Places,
    slots: &[u8],
    marks: &[u64; 64],
    time: u64,
    floor: u64,
) -> Option<First>
    requires { Slots slots.now × Listed slots.now list.now.count list.now.slots × (length list.now.slots ≡ 32) }
    ensures { result ≡ first_in (held slots.now (take list.now.count list.now.slots))
        (choiceIn (asking marks.now time floor) (held slots.now (take list.now.count list.now.slots))) }
{
    let mut first = None;
    for (place, slot) in list.slots[..list.count].iter().enumerate() {
        let message = Readable::in_slot(slots, *slot as usize);
        first = consider(first, place, message, marks, time, floor);
    }
    first
}
