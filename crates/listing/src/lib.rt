// The listing of a bundle, step by step: each step receives one frame at a panel, in place, and puts its
// lines behind a text in lent memory, or behind one of fixed capacity. An internal crate. Precondition: a
// place in the bundle, and room for a step's lines.
#![tactic(auto)]

ghost use Rattle.std.specs.Prelude.{◌≡◌};
ghost use Rattle.lent.specs.Record.{parts_of, record_of, SameState, SameWaiting};
ghost use Rattle.text.specs.Put.{RoomBehind};
ghost use Rattle.listing.specs.Step.{step_room, reached, state_at, Placed, SteppedLent};

mod fixed;
#[cfg(test)]
mod tests;

use bundle::{Step, part_at, step_at};
pub use fixed::list_next;
use lent::{State, Waiting};
use lines::{put_answer_line, put_hand_lines_lent};
use parts::OUTPUT;
use receiving::receive_in_place;
use std::ops::ControlFlow;
use text::{Text, put_words};

// The bytes that the longest lines of a step have room in.
pub const STEP_ROOM: usize = 4096;

// Where the listing stands, beside its panel: the place in the bundle, and the frames so far.
#[derive(Clone, Copy)]
pub struct Listing {
    pub place: usize,
    pub frames: usize,
}

// At the start of a bundle.
pub fn start() -> Listing
    ensures { (result.place ≡ 0) × (result.frames ≡ 0) }
{
    Listing {
        place: 0,
        frames: 0,
    }
}

// One step: puts the lines of the next frame and goes on, or puts the last line and ends. Either way it
// gives where the listing then stands.
pub fn list_next_lent(
    state: &mut State,
    list: &mut Waiting,
    bundle: &[u8],
    listing: Listing,
    text: &mut Text,
) -> ControlFlow<Listing, Listing>
    requires { Placed bundle.now listing.place listing.frames × RoomBehind text.old step_room }
    ensures same { SameState state.old state.new × SameWaiting list.old list.new }
    ensures stepped { SteppedLent bundle.now (state_at (record_of (parts_of state.old list.old)) listing) text.old
        (reached (record_of (parts_of state.new list.new)) result) text.new }
{
    match step_at(bundle, listing.place) {
        Step::Frame {
            start: _,
            length: _,
            next,
        } => {
            let mut output = [0u8; OUTPUT];
            let answer = receive_in_place(state, list, part_at(bundle, listing.place), &mut output);
            let frames = listing.frames + 1;
            put_answer_line(text, frames as u64, answer.err());
            if let Ok(accepted) = answer {
                put_hand_lines_lent(text, &output, accepted.count);
            }
            ControlFlow::Continue(Listing {
                place: next,
                frames,
            })
        }
        Step::End => {
            put_words(text, b"end\n");
            ControlFlow::Break(listing)
        }
        Step::Broken => {
            put_words(text, b"broken\n");
            ControlFlow::Break(listing)
        }
    }
}
