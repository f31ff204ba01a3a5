// The listing of a bundle, part after part: a part is the lines of the steps that a lent buffer, or a text
// of fixed capacity, has room for. The program "list" writes those in a lent buffer. An internal crate.
// Precondition: a place in the bundle.
#![tactic(auto)]

ghost use Rattle.lent.specs.Record.{parts_of, record_of, SameState, SameWaiting};
ghost use Rattle.listing.specs.Step.{reached, state_at, Placed};
ghost use Rattle.listing_parts.specs.Part.{PartPutLent};

mod fixed;
#[cfg(test)]
mod tests;

pub use fixed::list_part;
use lent::{State, Waiting};
use listing::{Listing, STEP_ROOM, list_next_lent};
use std::ops::ControlFlow;
use text::Text;

// Puts a part of the listing at the start of the buffer: the lines of step after step, while the listing
// goes on and there is room for a step's lines. Gives where the listing then stands, and whether it goes
// on.
pub fn list_part_lent(
    state: &mut State,
    list: &mut Waiting,
    bundle: &[u8],
    mut listing: Listing,
    text: &mut Text,
) -> ControlFlow<Listing, Listing>
    requires { Placed bundle.now listing.place listing.frames }
    ensures same { SameState state.old state.new × SameWaiting list.old list.new }
    ensures put { PartPutLent bundle.now (state_at (record_of (parts_of state.old list.old)) listing) text.old
        (reached (record_of (parts_of state.new list.new)) result) text.new }
{
    text.at = 0;
    'steps: while text.at + STEP_ROOM <= text.buffer.len() {
        listing = list_next_lent(state, list, bundle, listing, text)?;
    }
    ControlFlow::Continue(listing)
}
