// A part of the listing in a text of fixed capacity. Precondition: a place in the bundle.
ghost use Rattle.lent.specs.Record.{parts_of, record_of, SameState, SameWaiting};
ghost use Rattle.listing.specs.Step.{standing, state_at, Placed};
ghost use Rattle.listing_parts.specs.Part.{PartPut};

use arrayvec::ArrayString;
use lent::{State, Waiting};
use listing::{Listing, STEP_ROOM, list_next};

// Puts a part of the listing into a text of fixed capacity: the lines of step after step, while the
// listing goes on and there is room for a step's lines. Gives where the listing then stands, or none where
// it has ended.
pub fn list_part<const CAP: usize>(
    state: &mut State,
    list: &mut Waiting,
    bundle: &[u8],
    mut listing: Listing,
    text: &mut ArrayString<CAP>,
) -> Option<Listing>
    requires { Placed bundle.now listing.place listing.frames }
    ensures same { SameState state.old state.new × SameWaiting list.old list.new }
    ensures put { PartPut bundle.now (state_at (record_of (parts_of state.old list.old)) listing) CAP
        (standing (record_of (parts_of state.new list.new)) result) text.new.bytes }
{
    text.clear();
    'steps: while text.remaining_capacity() >= STEP_ROOM {
        listing = list_next(state, list, bundle, listing, text)?;
    }
    Some(listing)
}
