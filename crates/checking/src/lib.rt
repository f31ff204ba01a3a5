// The checks of a receive: the first that turns a frame down, on a record that is only read. An internal
// crate. Preconditions: a frame that does not read in version 1, and for the checks of a message waiting
// messages that readable frames carry.
#![tactic(auto)]

ghost use Rattle.std.specs.Prelude.{◌≡◌};
ghost use Rattle.frame.specs.Refusal.{first_of, number_in};
ghost use Rattle.frame.specs.Reading.{message_in};
ghost use Rattle.rules.specs.Sizes.{width};
ghost use Rattle.rules.specs.Panel.{ready as is_ready};
ghost use Rattle.rules.specs.Refusals.{message_checks, receive_checks};
ghost use Rattle.slots.specs.Slots.{Kept};
ghost use Rattle.choosing.specs.Choice.{asking};
ghost use Rattle.lent.specs.Record.{parts_in, record_of};
ghost use Rattle.checking.specs.Checks.{frame_checks_on, NotNarrow, early_checks, full_number};

use choosing::ready;
use frame::Refusal;
use frame_check::frame_check;
use lent::View;
use parts::{OUTPUT, broken};
use slots::{Readable, has_lapsed};

// The first check that turns down a frame before its message is looked at: 26, 10, 1 to 8.
#[tactic(auto, unfolding(frame::specs::Refusal::first_of))]
fn check_frame(broken: bool, output: usize, frame: &[u8]) -> Result<(), Refusal>
    ensures { number_in result ≡ first_of (frame_checks_on broken output frame.now) }
{
    if broken {
        return Err(Refusal::RecordBroken);
    }
    if output < OUTPUT {
        return Err(Refusal::BufferShort);
    }
    frame_check(frame)
}

// Document 02, W-205: "A received deadline above time + 1,209,600 (14 days) is now refused."
const FARTHEST_AHEAD: u64 = 1209600;

// The first check but the last that turns down a message: 20, 21, 32, 22. That of 32 takes the time from the
// deadline, which is not below it past 21: a sum could pass 64 bits.
#[tactic(auto, using(crate::proofs::MessageChecks::source_few), unfolding(rules::specs::Refusals::message_checks, rules::specs::Refusals::too_far_ahead, rules::specs::Panel::lapsed, rules::specs::Panel::has_lapsed, frame::specs::Refusal::first_of))]
fn check_early(view: View, message: Readable) -> Result<(), Refusal>
    requires { Kept view.slots.now view.count }
    ensures { number_in result ≡ first_of (early_checks (record_of (parts_in view.entry)) (message_in width message.entry.frame.now)) }
{
    let slots = view.slots;
    let source = message.source();
    let deadline = message.deadline();
    if source == view.own {
        return Err(Refusal::OwnSource);
    }
    if has_lapsed(deadline, view.time, view.floor) {
        return Err(Refusal::Lapsed);
    }
    if FARTHEST_AHEAD < deadline - view.time {
        return Err(Refusal::TooFarAhead);
    }
    if deadline <= view.marks[source as usize] {
        return Err(Refusal::HadAlready);
    }
    if message.is_waiting(slots, view.count) {
        return Err(Refusal::HadAlready);
    }
    Ok(())
}

// The last check of a message, 23. With a place free nobody asks whether it is ready.
fn check_place(view: View, message: Readable) -> Result<(), Refusal>
    ensures { number_in result
        ≡ full_number view.entry.count (is_ready (asking view.entry.marks.now view.entry.time view.entry.floor) (message_in width message.entry.frame.now)) }
{
    let marks = view.marks;
    if view.count < 32 {
        return Ok(());
    }
    if ready(message, message.mask(), marks, view.time, view.floor).ready {
        return Ok(());
    }
    Err(Refusal::ListFull)
}

// The first check that turns down a message: 20, 21, 32, 22, 23.
pub fn check_message(view: View, message: Readable) -> Result<(), Refusal>
    requires { Kept view.slots.now view.count }
    ensures { number_in result ≡ first_of (message_checks (record_of (parts_in view.entry)) (message_in width message.entry.frame.now)) }
{
    check_early(view, message)?;
    check_place(view, message)
}

// The first check that turns down a frame: 26, 10, 1 to 8, 20, 21, 32, 22, 23.
pub fn check_receive(view: View, frame: &[u8], output: &[u8]) -> Result<(), Refusal>
    requires { NotNarrow frame.now }
    ensures { number_in result ≡ first_of (receive_checks (record_of (parts_in view.entry)) frame.now output.now) }
{
    check_frame(broken(view), output.len(), frame)?;
    check_message(view, Readable { frame })
}
