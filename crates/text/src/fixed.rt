// Numbers and bytes as text, put behind a text of fixed capacity. Precondition: room.
ghost use Rattle.std.specs.Prelude.{◌≡◌, ◌++◌, ◌+◌, ◌*◌, ◌<◌, ◌≤◌, length};
ghost use Rattle.arrayvec.specs.ArrayString.{array_string_len};
ghost use Rattle.text.specs.Text.{decimal, hexadecimal};
ghost use Rattle.text.specs.Text.{digit as digitOf};

use arrayvec::ArrayString;

// Puts a number in decimal.
#[tactic(auto, using(crate::proofs::Decimal::decimal_printed))]
pub fn put_decimal<const CAP: usize>(text: &mut ArrayString<CAP>, number: u64)
    requires { array_string_len text.old + 20 ≤ CAP }
    ensures bytes { text.new.bytes ≡ text.old.bytes ++ decimal number }
    ensures short { array_string_len text.new ≤ array_string_len text.old + 20 }
{
    text.push_str(itoa::Buffer::new().format(number));
}

// The digit of a number below 16, as a character.
#[tactic(auto, unfolding(crate::specs::Text::digit))]
fn digit(number: u8) -> char
    requires { number < 16 }
    ensures value { result ≡ digitOf number }
    ensures ascii { result < 128 }
{
    char::from_digit(u32::from(number), 16).unwrap()
}

// Puts bytes in hexadecimal.
#[tactic(auto, using(crate::proofs::Hexadecimal::hexadecimal_none, crate::proofs::Hexadecimal::hexadecimal_more, crate::proofs::Hexadecimal::hexadecimal_size, crate::proofs::Hexadecimal::one_more, std::proofs::lemmas::Str::encode_ascii))]
pub fn put_hexadecimal<const CAP: usize>(text: &mut ArrayString<CAP>, bytes: &[u8])
    requires { array_string_len text.old + 2 * length bytes.now ≤ CAP }
    ensures bytes { text.new.bytes ≡ text.old.bytes ++ hexadecimal bytes.now }
    ensures digits { array_string_len text.new ≡ array_string_len text.old + 2 * length bytes.now }
{
    for byte in bytes {
        text.push(digit(*byte / 16));
        text.push(digit(*byte % 16));
    }
}
