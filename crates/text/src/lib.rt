// Text put into a lent buffer: words, decimal and hexadecimal numbers, each behind what was put before;
// and numbers and bytes put behind a text of fixed capacity. An internal crate. Precondition: room.
#![tactic(auto)]

ghost use Rattle.std.specs.Prelude.{◌≡◌, ◌∷◌, [], ◌++◌, ◌+◌, ◌*◌, ◌<◌, ◌≤◌, length, take};
ghost use Rattle.text.specs.Text.{ascii, decimal, hexadecimal};
ghost use Rattle.text.specs.Text.{digit as digitOf};
ghost use Rattle.text.specs.Put.{RoomBehind, PutBehind};

mod fixed;
#[cfg(test)]
mod tests;

pub use fixed::{put_decimal, put_hexadecimal};
use numbers::put_bytes;

// A lent buffer, of any length, and the place behind what was put into it so far. Whoever lends a buffer
// says where the text begins.
#[derive(Drop)]
pub struct Text<'a> {
    pub buffer: &'a mut [u8],
    pub at: usize,
}

impl<'a> Text<'a> {
    // The buffer up to the place.
    pub fn as_bytes(&self) -> &[u8]
        requires { self.now.at ≤ length self.now.buffer.now }
        ensures { result.now ≡ take self.now.at self.now.buffer.now }
    {
        &self.buffer[..self.at]
    }
}

// Puts words.
pub fn put_words(text: &mut Text, words: &[u8])
    requires { RoomBehind text.old (length words.now) }
    ensures { PutBehind text.old words.now text.new }
{
    put_bytes(text.buffer, text.at, words);
    text.at += words.len();
}

// Puts a byte.
#[tactic(auto, using(crate::proofs::Puts::put_set))]
pub fn put_byte(text: &mut Text, byte: u8)
    requires { RoomBehind text.old 1 }
    ensures { PutBehind text.old (byte ∷ []) text.new }
{
    text.buffer[text.at] = byte;
    text.at += 1;
}

// The digit of a number below 16.
#[tactic(auto, unfolding(crate::specs::Text::digit))]
fn digit(number: u8) -> u8
    requires { number < 16 }
    ensures { result ≡ digitOf number }
{
    char::from_digit(u32::from(number), 16).unwrap() as u8
}

// Puts a number in decimal. By `itoa`, as `write!` gives a Result and nothing says when it is Ok: the
// functions here always put their text.
#[tactic(auto, using(crate::proofs::Decimal::decimal_printed))]
pub fn put_decimal_lent(text: &mut Text, number: u64)
    requires { RoomBehind text.old 20 }
    ensures bytes { PutBehind text.old (decimal number) text.new }
    ensures short { text.new.at ≤ text.old.at + 20 }
{
    put_words(text, itoa::Buffer::new().format(number).as_bytes());
}

// Puts a number in decimal, and a character behind it.
pub fn put_item(text: &mut Text, number: u64, character: u8)
    requires { RoomBehind text.old 21 }
    ensures bytes { PutBehind text.old (decimal number ++ (character ∷ [])) text.new }
    ensures short { text.new.at ≤ text.old.at + 21 }
{
    put_decimal_lent(text, number);
    put_byte(text, character);
}

// Puts the start of a line: words, a number in decimal, and a blank.
pub fn put_start(text: &mut Text, words: &[u8], number: u64)
    requires { RoomBehind text.old (length words.now + 21) }
    ensures bytes { PutBehind text.old (words.now ++ (decimal number ++ ascii " ")) text.new }
    ensures short { text.new.at ≤ text.old.at + (length words.now + 21) }
{
    put_words(text, words);
    put_item(text, number, b' ');
}

// Puts bytes in hexadecimal.
pub fn put_hexadecimal_lent(text: &mut Text, bytes: &[u8])
    requires { RoomBehind text.old (2 * length bytes.now) }
    ensures bytes { PutBehind text.old (hexadecimal bytes.now) text.new }
    ensures digits { text.new.at ≡ text.old.at + 2 * length bytes.now }
{
    for byte in bytes {
        put_byte(text, digit(*byte / 16));
        put_byte(text, digit(*byte % 16));
    }
}
