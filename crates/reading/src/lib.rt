// The reading of a frame of either version, by itself or in a bundle: its fields by value, and its
// payload as a part of the caller's bytes. Each public function accepts any input.
#![tactic(auto)]

ghost use Rattle.std.specs.Prelude.{◌≡◌, ◌+◌, ◌*◌, ◌≤◌, length};
ghost use Rattle.std.specs.Int.Count.{ones_in};
ghost use Rattle.numbers.specs.Numbers.{numbers_at};
ghost use Rattle.frame.specs.Message.{by_panel};
ghost use Rattle.frame.specs.Frame.{width_of};
ghost use Rattle.frame.specs.Reading.{reading_of};
ghost use Rattle.bundle.specs.Bundle.{frame_at};
ghost use Rattle.reading.specs.Answer.{fields_of, numbered, PayloadPart};

use bundle::part_at;
use frame::{
    BARE, DEADLINE_AT, HEAD, Refusal, Version, deadline_in, entry_at, entry_count, version_in,
};
use frame_check::frame_check;
use numbers::number_at;

// The payload as the part of the caller's bytes that it occupies; for bytes turned down the empty
// part at their start, as the specification has it.
pub fn payload(frame: &[u8]) -> &[u8]
    ensures { PayloadPart frame.entry result }
{
    if frame_check(frame).is_err() {
        return &frame[0..0];
    }
    let version = version_in(frame);
    let width = version.width();
    let start = BARE + width + width * entry_count(frame, version);
    &frame[start..]
}

// The entries, each at its panel's place; 0 for a panel that has none.
fn entries_by_panel(frame: &[u8], version: Version, mask: u64) -> [u64; 64]
    requires { 14 + width_of version + width_of version * ones_in 64 mask ≤ length frame.now }
    ensures { result ≡ by_panel 64 mask
        (numbers_at frame.now (14 + width_of version) (width_of version) (ones_in 64 mask)) }
{
    let width = version.width();
    let mut entries = [0u64; 64];
    let mut bits = mask;
    let mut at = HEAD + width;
    for entry in entries.iter_mut() {
        if bits % 2 == 1 {
            *entry = entry_at(frame, at, version);
            at += width;
        }
        bits /= 2;
    }
    entries
}

// The fields of a frame.
#[derive(Clone, Copy, Debug, PartialEq, Eq)]
pub struct Fields {
    pub source: u8,
    pub deadline: u64,
    pub mask: u64,
    pub entries: [u64; 64],
    pub payload_length: u8,
}

// The reading of the bytes, but for the payload, which is a part of them.
pub fn read(frame: &[u8]) -> Result<Fields, Refusal>
    ensures { numbered result ≡ fields_of (reading_of frame.now) }
{
    frame_check(frame)?;
    let version = version_in(frame);
    let width = version.width();
    let mask = number_at(frame, DEADLINE_AT + width, 8);
    let entries = entries_by_panel(frame, version, mask);
    Ok(Fields {
        source: frame[5],
        deadline: deadline_in(frame, version),
        mask,
        entries,
        payload_length: frame[HEAD + width + width * entry_count(frame, version)],
    })
}

// The reading of the frame at a place of a bundle: the part in the middle of the bundle is passed on.
pub fn read_at(bundle: &[u8], place: usize) -> Result<Fields, Refusal>
    ensures { numbered result ≡ fields_of (reading_of (frame_at bundle.now place)) }
{
    read(part_at(bundle, place))
}
