// Frames of versions 1 and 2: what a frame is, and its fields, each read at its place. What is promised
// stands in specs/, in document 01's order. An internal crate. Precondition: as many bytes as are read.
#![tactic(auto)]

mod refusal;
mod version;

ghost use Rattle.std.specs.Prelude.{◌≡◌, ◌+◌, ◌≤◌, length};
ghost use Rattle.numbers.specs.Numbers.{number_at};
ghost use Rattle.frame.specs.Frame.{width_of};
ghost use Rattle.frame.specs.Reading.{width_in, deadline_in, count_in};

use numbers::number_at;
pub use refusal::{Refusal, number_in};
pub use version::Version;

// The mark, and the number that it makes with version 2 behind it, in five bytes.
pub const MARK: u64 = 0x445259;

pub const MARK_AND_VERSION: u64 = MARK * 65536 + 2;

// The width of version 1, and that of version 2, in which frames are written and messages wait.
pub const NARROW: usize = 4;

pub const WIDTH: usize = 8;

// Where the deadline stands in a frame, and in one of version 2 the mask and the entries.
pub const DEADLINE_AT: usize = 6;

pub const MASK_AT: usize = DEADLINE_AT + WIDTH;

pub const ENTRIES_AT: usize = HEAD + WIDTH;

// The bytes of the fields up to the mask, without the deadline, and with the length byte: the width
// more is where the entries stand, and the length of the shortest frame.
pub const HEAD: usize = DEADLINE_AT + 8;

pub const BARE: usize = HEAD + 1;

// The bytes of the shortest frame of version 1, and of version 2.
pub const SHORTEST_NARROW: usize = BARE + NARROW;

pub const SHORTEST: usize = BARE + WIDTH;

// The bytes of the longest frame, which a frame buffer has room for.
pub const BUFFER: usize = 567;

// The deadline: of the eight bytes at its place, all in version 2, and the high four in version 1.
pub fn deadline_in(frame: &[u8], version: Version) -> u64
    requires { 14 ≤ length frame.now }
    ensures { result ≡ deadline_in (width_of version) frame.now }
{
    number_at(frame, DEADLINE_AT, 8) >> (64 - 8 * version.width())
}

// The entry at a place. (Each width is a constant here: of any other the compiler makes a call of memcpy.)
pub fn entry_at(frame: &[u8], at: usize, version: Version) -> u64
    requires { at + width_of version ≤ length frame.now }
    ensures { result ≡ number_at frame.now at (width_of version) }
{
    match version {
        Version::One => number_at(frame, at, NARROW),
        Version::Two => number_at(frame, at, WIDTH),
    }
}

// The number of entries: the count of ones in the mask.
pub fn entry_count(frame: &[u8], version: Version) -> usize
    requires { 14 + width_of version ≤ length frame.now }
    ensures { (result ≡ count_in (width_of version) frame.now) × (result ≤ 64) }
{
    u64::count_ones(number_at(frame, DEADLINE_AT + version.width(), 8)) as usize
}

// The version whose width is picked.
pub fn version_in(frame: &[u8]) -> Version
    requires { 5 ≤ length frame.now }
    ensures { width_of result ≡ width_in frame.now }
{
    if number_at(frame, 3, 2) == Version::Two.number() {
        return Version::Two;
    }
    Version::One
}
