// A frame of version 1 as the frame of version 2 that carries the same message, in a lent buffer. An
// internal crate. Preconditions: bytes that read as a message in version 1, and room in the buffer for
// the longest frame; a receive and a trace have both.
#![tactic(auto)]

ghost use Rattle.std.specs.Prelude.{◌≡◌, ◌+◌, ◌*◌, ◌≤◌, length};
ghost use Rattle.numbers.specs.Numbers.{big_endians, numbers_at};
ghost use Rattle.numbers.specs.Buffer.{over};
ghost use Rattle.frame.specs.Frame.{narrow, wide, longest};
ghost use Rattle.frame.specs.Frame.{frame as frame_of};
ghost use Rattle.frame.specs.Reading.{refusal, message_in};

use frame::{DEADLINE_AT, ENTRIES_AT, HEAD, NARROW, WIDTH};
use numbers::{number_at, put_number};
use writing::{put_head, put_payload};

// Where the mask stands in a frame of version 1, and where the entries do.
const NARROW_MASK_AT: usize = DEADLINE_AT + NARROW;

const NARROW_ENTRIES_AT: usize = HEAD + NARROW;

// Puts so many entries of a frame of version 1, each in the bytes that it has in version 2.
fn widen_entries(buffer: &mut [u8], frame: &[u8], count: usize)
    requires { (14 + narrow + narrow * count ≤ length frame.now) × (14 + wide + wide * count ≤ length buffer.old) }
    ensures { buffer.new ≡ over buffer.old (14 + wide)
        (big_endians wide (numbers_at frame.now (14 + narrow) narrow count)) }
{
    for i in 0..count {
        let entry = number_at(frame, NARROW_ENTRIES_AT + NARROW * i, NARROW);
        put_number(buffer, ENTRIES_AT + WIDTH * i, WIDTH, entry);
    }
}

// Puts the frame of version 2 at the start of the buffer, and answers its length.
pub fn widen(frame: &[u8], buffer: &mut [u8]) -> usize
    requires { (refusal narrow frame.now ≡ 0) × (longest wide ≤ length buffer.old) }
    ensures { (result ≡ length (frame_of wide (message_in narrow frame.now)))
        × (buffer.new ≡ over buffer.old 0 (frame_of wide (message_in narrow frame.now))) }
{
    let mask = number_at(frame, NARROW_MASK_AT, 8);
    let count = u64::count_ones(mask) as usize;
    put_head(
        buffer,
        frame[5],
        number_at(frame, DEADLINE_AT, NARROW),
        mask,
    );
    widen_entries(buffer, frame, count);
    let at = ENTRIES_AT + WIDTH * count;
    let start = NARROW_ENTRIES_AT + NARROW * count + 1;
    put_payload(buffer, at, &frame[start..]);
    at + 1 + (frame.len() - start)
}
