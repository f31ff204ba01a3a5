// A step of the listing behind a text of fixed capacity. Precondition: a place in the bundle, and room for
// a step's lines.
ghost use Rattle.std.specs.Prelude.{◌≡◌, ◌+◌, ◌≤◌};
ghost use Rattle.arrayvec.specs.ArrayString.{array_string_len};
ghost use Rattle.lent.specs.Record.{parts_of, record_of, SameState, SameWaiting};
ghost use Rattle.listing.specs.Step.{step_room, standing, state_at, Placed, Stepped};

use crate::Listing;
use arrayvec::ArrayString;
use bundle::{Step, part_at, step_at};
use lent::{State, Waiting};
use lines::{put_frame_line, put_hand_lines};
use parts::OUTPUT;
use receiving::receive_in_place;

// One step, behind a text of fixed capacity: puts the lines of the next frame and gives where the listing
// then stands, or puts the last line and gives none.
pub fn list_next<const CAP: usize>(
    state: &mut State,
    list: &mut Waiting,
    bundle: &[u8],
    listing: Listing,
    text: &mut ArrayString<CAP>,
) -> Option<Listing>
    requires { Placed bundle.now listing.place listing.frames × (array_string_len text.old + step_room ≤ CAP) }
    ensures same { SameState state.old state.new × SameWaiting list.old list.new }
    ensures stepped { Stepped bundle.now (state_at (record_of (parts_of state.old list.old)) listing) text.old.bytes
        (standing (record_of (parts_of state.new list.new)) result) text.new.bytes }
{
    match step_at(bundle, listing.place) {
        Step::Frame {
            start: _,
            length: _,
            next,
        } => {
            let mut output = [0u8; OUTPUT];
            let answer = receive_in_place(state, list, part_at(bundle, listing.place), &mut output);
            let frames = listing.frames + 1;
            put_frame_line(text, frames as u64, answer.err());
            if let Ok(accepted) = answer {
                put_hand_lines(text, &output, accepted.count);
            }
            Some(Listing {
                place: next,
                frames,
            })
        }
        Step::End => {
            text.push_str("end\n");
            None
        }
        Step::Broken => {
            text.push_str("broken\n");
            None
        }
    }
}
