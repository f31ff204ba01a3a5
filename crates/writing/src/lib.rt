// Writing a frame of version 2 into a lent buffer. `write` accepts any input. An internal crate: a send
// writes the frames. Preconditions of what puts a part of a frame: room in the buffer. (A buffer and a
// place, and not the part behind it: the promise is about the whole, and says what stays.)
#![tactic(auto)]

ghost use Rattle.std.specs.Prelude.{◌≡◌, ◌++◌, ◌+◌, ◌*◌, ◌≤◌, ◌<◌, length};
ghost use Rattle.numbers.specs.Numbers.{big_endian, big_endians};
ghost use Rattle.numbers.specs.Buffer.{over};
ghost use Rattle.frame.specs.Message.{message_of, mask_of, present};
ghost use Rattle.frame.specs.Frame.{wide};
ghost use Rattle.frame.specs.Readable.{each_below};
ghost use Rattle.frame.specs.Readable.{readable as isReadable};
ghost use Rattle.writing.specs.Written.{head_of, written, written_size};

use frame::{DEADLINE_AT, ENTRIES_AT, MARK_AND_VERSION, MASK_AT, WIDTH};
use numbers::{put_bytes, put_number};

// Whether the message has a frame.
fn readable(source: u8, deadline: u64, entries: &[u64], payload: &[u8]) -> bool
    requires { length entries.now ≡ 64 }
    ensures { result ≡ isReadable wide (message_of source deadline entries.now payload.now) }
{
    source <= 63 && 0 < deadline && each_below(entries, deadline) && payload.len() <= 32
}

// Whether each number is below the limit.
fn each_below(numbers: &[u64], limit: u64) -> bool
    ensures { result ≡ each_below limit numbers.now }
{
    numbers.iter().all(|number| *number < limit)
}

// The mask of the entries.
fn mask_of(entries: &[u64]) -> u64
    requires { length entries.now ≡ 64 }
    ensures { result ≡ mask_of entries.now }
{
    let mut mask: u64 = 0;
    for panel in (0..entries.len()).rev() {
        mask = mask * 2 + u64::from(entries[panel] != 0);
    }
    mask
}

// Puts the fields up to the mask.
pub fn put_head(buffer: &mut [u8], source: u8, deadline: u64, mask: u64)
    requires { 14 + wide ≤ length buffer.old }
    ensures { buffer.new ≡ over buffer.old 0 (head_of wide source deadline mask) }
{
    put_number(buffer, 0, 5, MARK_AND_VERSION);
    buffer[5] = source;
    put_number(buffer, DEADLINE_AT, WIDTH, deadline);
    put_number(buffer, MASK_AT, 8, mask);
}

// Puts the entries of the panels that have one, lowest panel first, up to the place where they end.
fn put_entries(buffer: &mut [u8], entries: &[u64], end: usize)
    requires { (end ≡ 14 + wide + wide * length (present entries.now)) × (end ≤ length buffer.old) }
    ensures { buffer.new ≡ over buffer.old (14 + wide) (big_endians wide (present entries.now)) }
{
    let mut at = ENTRIES_AT;
    for entry in entries {
        if at == end {
            return; // for speed: behind the last entry no panel is looked at
        }
        if *entry != 0 {
            put_number(buffer, at, WIDTH, *entry);
            at += WIDTH;
        }
    }
}

// Puts the payload's length and the payload.
pub fn put_payload(buffer: &mut [u8], at: usize, payload: &[u8])
    requires { (length payload.now ≤ 32) × (at + 1 + length payload.now ≤ length buffer.old) }
    ensures { buffer.new ≡ over buffer.old at
        (big_endian 1 (length payload.now) ++ payload.now) }
{
    buffer[at] = payload.len() as u8;
    put_bytes(buffer, at + 1, payload);
}

// Writes the message's frame at the start of the buffer, and answers its length. An entry of 0
// stands for none. A message that has no frame, or too little room, is answered with `None` and
// changes nothing.
pub fn write(
    source: u8,
    deadline: u64,
    entries: &[u64; 64],
    payload: &[u8],
    buffer: &mut [u8],
) -> Option<usize>
    ensures written { (result ≡ written_size wide (message_of source deadline entries.now payload.now) buffer.old)
        × (buffer.new ≡ written wide (message_of source deadline entries.now payload.now) buffer.old) }
    ensures panels { length entries.now ≡ 64 }
{
    let entries: &[u64] = entries;
    if !readable(source, deadline, entries, payload) {
        return None;
    }
    let mask = mask_of(entries);
    let at = ENTRIES_AT + WIDTH * (u64::count_ones(mask) as usize);
    let length = at + 1 + payload.len();
    if buffer.len() < length {
        return None;
    }
    put_head(buffer, source, deadline, mask);
    put_entries(buffer, entries, at);
    put_payload(buffer, at, payload);
    Some(length)
}
