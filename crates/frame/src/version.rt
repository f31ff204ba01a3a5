// The versions of a frame.
ghost use Rattle.std.specs.Prelude.{◌≡◌};
ghost use Rattle.frame.specs.Frame.{version_of, width_of};

use crate::{NARROW, WIDTH};

#[derive(Clone, Copy, Debug, PartialEq, Eq)]
pub enum Version {
    One = 1,
    Two = 2,
}

impl Version {
    // The bytes of a deadline and of an entry.
    pub fn width(self) -> usize
        ensures { result ≡ width_of self }
    {
        match self {
            Version::One => NARROW,
            Version::Two => WIDTH,
        }
    }

    // Its number, as a frame has it.
    pub fn number(self) -> u64
        ensures { result ≡ version_of (width_of self) }
    {
        self as u64
    }
}
