// The frame check, for C too (`frame_check_c` exports it): the refusal of the reading, if there is one.
// It goes through the checks in the order of their table, in one body for both versions. Each public
// function accepts any input.
#![tactic(auto)]

ghost use Rattle.std.specs.Prelude.{◌≡◌, ◌+◌, ◌*◌, ◌<◌, ◌≤◌, length, take, ◌==◌};
ghost use Rattle.numbers.specs.Numbers.{numbers_at};
ghost use Rattle.frame.specs.Frame.{narrow, width_of};
ghost use Rattle.frame.specs.Refusal.{first_of, number_in};
ghost use Rattle.frame.specs.Reading.{each_earlier, checks, refusal, refusal_of};

use frame::{
    BARE, HEAD, MARK, Refusal, SHORTEST_NARROW, Version, deadline_in, entry_at, entry_count,
    number_in, version_in,
};
use numbers::number_at;
use std::num::wrapping_sub_u64;

// The first six checks: length, mark, version, the length of that version, source, deadline.
#[tactic(auto, using(numbers::proofs::NumberAt::number_at_one), unfolding(frame::specs::Reading::checks, frame::specs::Reading::mark_in, frame::specs::Refusal::first_of))]
fn head_check(frame: &[u8], version: Version) -> Result<(), Refusal>
    ensures { number_in result ≡ first_of (take 6 (checks (width_of version) frame.now)) }
{
    if frame.len() < SHORTEST_NARROW {
        return Err(Refusal::FrameShort); // fewer than 19 bytes
    }
    if number_at(frame, 0, 3) != MARK {
        return Err(Refusal::FrameMark);
    }
    if number_at(frame, 3, 2) != version.number() {
        return Err(Refusal::FrameVersion);
    }
    if frame.len() < BARE + version.width() {
        return Err(Refusal::FrameShort); // fewer bytes than a frame of that version has
    }
    if 63 < frame[5] {
        return Err(Refusal::FrameSource);
    }
    if deadline_in(frame, version) == 0 {
        return Err(Refusal::FrameDeadline);
    }
    Ok(())
}

// Whether each of the entries is at least 1 and below the deadline. (For speed one test serves for
// both: less 1, an entry of 0 wraps to the largest number. And the place of an entry is that of the
// one before it and the width: to multiply at each took two steps more.)
fn each_earlier(frame: &[u8], version: Version, count: usize, deadline: u64) -> bool
    requires { (14 + width_of version + width_of version * count ≤ length frame.now) × (0 < deadline) }
    ensures { result ≡ each_earlier deadline (numbers_at frame.now (14 + width_of version) (width_of version) count) }
{
    let limit = deadline - 1;
    let width = version.width();
    let mut at = HEAD + width;
    for _ in 0..count {
        if limit <= wrapping_sub_u64(entry_at(frame, at, version), 1) {
            return false;
        }
        at += width;
    }
    true
}

// The refusal of the reading in that version, if there is one.
#[tactic(auto, using(numbers::proofs::NumberAt::number_at_one), unfolding(frame::specs::Reading::checks, frame::specs::Refusal::first_of))]
fn check(frame: &[u8], version: Version) -> Result<(), Refusal>
    ensures { number_in result ≡ refusal (width_of version) frame.now }
{
    head_check(frame, version)?;
    let count = entry_count(frame, version);
    let start = BARE + version.width() + version.width() * count;
    if frame.len() < start {
        return Err(Refusal::FrameShort); // too few bytes for the entries and the length byte
    }
    if !each_earlier(frame, version, count, deadline_in(frame, version)) {
        return Err(Refusal::FrameEntry);
    }
    let length = frame[start - 1] as usize;
    if 32 < length {
        return Err(Refusal::FramePayloadLength);
    }
    if frame.len() < start + length {
        return Err(Refusal::FrameShort); // too few bytes for the payload
    }
    if start + length < frame.len() {
        return Err(Refusal::FrameLeftOver);
    }
    Ok(())
}

// The refusal of the reading, if there is one.
#[tactic(auto, unfolding(frame::specs::Reading::checks, frame::specs::Refusal::first_of))]
pub fn frame_check(frame: &[u8]) -> Result<(), Refusal>
    ensures { number_in result ≡ refusal_of frame.now }
{
    if frame.len() < SHORTEST_NARROW {
        return Err(Refusal::FrameShort); // fewer than 19 bytes, and perhaps no version among them
    }
    check(frame, version_in(frame))
}

// Whether the bytes read as a message in version 1.
pub fn is_narrow(frame: &[u8]) -> bool
    ensures { result ≡ (refusal narrow frame.now == 0) }
{
    check(frame, Version::One).is_ok()
}
