// Numbers of several bytes, the highest byte first, in a slice. An internal crate.
// Precondition: room in the slice; the crates above refuse what is too short. (The functions take a slice
// and a place, and not the part behind it: the promise is about the whole, and says what stays.)
#![tactic(auto)]

ghost use Rattle.std.specs.Prelude.{◌≡◌, ◌+◌, ◌^◌, ◌≤◌, ◌<◌, length};
ghost use Rattle.numbers.specs.Numbers.{big_endian, number_at};
ghost use Rattle.numbers.specs.Buffer.{over};

// The number in the width bytes from place at on, byte by byte.
fn bytewise(bytes: &[u8], at: usize, width: usize) -> u64
    requires { (width ≤ 8) × (at + width ≤ length bytes.now) }
    ensures { (result ≡ number_at bytes.now at width) × (result < 256 ^ width) }
{
    let mut number = 0;
    for i in 0..width {
        number = number * 256 + u64::from(bytes[at + i]);
    }
    number
}

// The number in the width bytes from place at on. Above four bytes it is read in two parts, of which
// the compiler makes one load, where byte by byte it makes eight. (By from_be_bytes, behind zeros, it
// takes eight instructions more where the width is no eight.)
pub fn number_at(bytes: &[u8], at: usize, width: usize) -> u64
    requires { (width ≤ 8) × (at + width ≤ length bytes.now) }
    ensures { (result ≡ number_at bytes.now at width) × (result < 256 ^ width) }
{
    if width < 5 {
        return bytewise(bytes, at, width);
    }
    let high = width - 4;
    bytewise(bytes, at, high) * 4294967296 + bytewise(bytes, at + high, 4)
}

// Puts the width bytes of the number, the last of its eight, into the buffer from place at on.
pub fn put_number(buffer: &mut [u8], at: usize, width: usize, number: u64)
    requires { (width ≤ 8) × (at + width ≤ length buffer.old) × (number < 256 ^ width) }
    ensures { buffer.new ≡ over buffer.old at (big_endian width number) }
{
    put_part(buffer, at, &number.to_be_bytes()[8 - width..]);
}

// Puts the bytes of a number into the buffer from place at on.
fn put_part(buffer: &mut [u8], at: usize, bytes: &[u8])
    requires { at + length bytes.now ≤ length buffer.old }
    ensures { buffer.new ≡ over buffer.old at bytes.now }
{
    buffer[at..at + bytes.len()].copy_from_slice(bytes);
}

// Puts the bytes into the buffer from place at on. (By a loop: of copy_from_slice with a length that is
// no constant the compiler makes a memmove, which the archive for C must not need.)
pub fn put_bytes(buffer: &mut [u8], at: usize, bytes: &[u8])
    requires { at + length bytes.now ≤ length buffer.old }
    ensures { buffer.new ≡ over buffer.old at bytes.now }
{
    for i in 0..bytes.len() {
        buffer[at + i] = bytes[i];
    }
}
