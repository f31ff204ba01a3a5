// The frame check for C, over the crate frame_check: the same promise, called by C. It accepts any
// input.
#![tactic(auto)]

ghost use Rattle.std.specs.Prelude.{◌≡◌};
ghost use Rattle.frame.specs.Reading.{refusal_of};

use frame::number_in;

// 0, or the refusal number of the reading.
#[unsafe(no_mangle)]
pub extern "C" fn frame_check(frame: &[u8]) -> u8
    ensures { result ≡ refusal_of frame.now }
{
    number_in(frame_check::frame_check(frame))
}
