// A panel's record as it is lent to a call: each part by a reference of its own, since C lends them so; own
// number and time as values. What handing works on stands in one struct, and the waiting list, whose frames
// are handed, in another. An internal crate. (Each call makes the two itself: a function that gave both
// would have to promise, of six references, which part each is.)
#![tactic(auto)]

ghost use Rattle.std.specs.Prelude.{◌≡◌};
ghost use Rattle.lent.specs.Record.{parts_of, parts_in};

use slots::SLOTS;

// What a panel knows, but for the messages that wait. Which of it a call may touch, each call says.
#[derive(Drop)]
pub struct State<'a> {
    pub own: u8,
    pub time: u64,
    pub high: &'a mut u64,
    pub marks: &'a mut [u64; 64],
    pub barrier: &'a mut [u64; 64],
    pub floor: &'a mut u64,
}

// The waiting list: how many messages wait, and the slots, of which so many hold them.
#[derive(Drop)]
pub struct Waiting<'a> {
    pub count: &'a mut usize,
    pub slots: &'a mut [u8; SLOTS],
}

// A record that is only read.
#[derive(Clone, Copy)]
pub struct View<'a> {
    pub own: u8,
    pub time: u64,
    pub high: u64,
    pub count: usize,
    pub marks: &'a [u64; 64],
    pub barrier: &'a [u64; 64],
    pub slots: &'a [u8; SLOTS],
    pub floor: u64,
}

impl<'a> View<'a> {
    // The record as it stands.
    pub fn of(state: &'a State, list: &'a Waiting) -> View<'a>
        ensures { parts_in result ≡ parts_of state.now list.now }
    {
        View {
            own: state.own,
            time: state.time,
            high: *state.high,
            count: *list.count,
            marks: state.marks,
            barrier: state.barrier,
            slots: list.slots,
            floor: *state.floor,
        }
    }
}
