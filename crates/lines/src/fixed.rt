// The lines put behind a text of fixed capacity. Precondition: room.
ghost use Rattle.std.specs.Prelude.{◌≡◌, ◌++◌, ◌+◌, ◌*◌, ◌≤◌, length};
ghost use Rattle.log_records.specs.LogRecords.{log_record_at};
ghost use Rattle.arrayvec.specs.ArrayString.{array_string_len};
ghost use Rattle.lines.specs.Lines.{number_or_0, outcome, frame_line, payload_text, hand_line, hand_lines};

use arrayvec::ArrayString;
use frame::Refusal;
use log_records::{log_payload, panel_log_fields};
use text::{put_decimal, put_hexadecimal};

// Puts what was answered, `taken` or the number of the refusal.
#[tactic(auto, using(crate::proofs::Lines::outcome_taken, crate::proofs::Lines::outcome_refused), unfolding(text::specs::Text::ascii))]
fn put_outcome<const CAP: usize>(text: &mut ArrayString<CAP>, refusal: Option<Refusal>)
    requires { array_string_len text.old + 20 ≤ CAP }
    ensures bytes { text.new.bytes ≡ text.old.bytes ++ outcome (number_or_0 refusal) }
    ensures short { array_string_len text.new ≤ array_string_len text.old + 20 }
{
    match refusal {
        None => text.push_str("taken"),
        Some(refusal) => put_decimal(text, u64::from(refusal.number())),
    }
}

// Puts the line of a frame: its number from 1, and what was answered.
#[tactic(auto, using(crate::proofs::Lines::frame_pieces), unfolding(text::specs::Text::ascii))]
pub fn put_frame_line<const CAP: usize>(
    text: &mut ArrayString<CAP>,
    frame: u64,
    refusal: Option<Refusal>,
)
    requires { array_string_len text.old + 48 ≤ CAP }
    ensures bytes { text.new.bytes ≡ text.old.bytes ++ frame_line frame (number_or_0 refusal) }
    ensures short { array_string_len text.new ≤ array_string_len text.old + 48 }
{
    text.push_str("frame ");
    put_decimal(text, frame);
    text.push_str(" ");
    put_outcome(text, refusal);
    text.push_str("\n");
}

// Puts a payload in hexadecimal, or `-` for an empty one.
#[tactic(auto, using(crate::proofs::Lines::payload_text_none, crate::proofs::Lines::payload_text_some), unfolding(text::specs::Text::ascii))]
fn put_payload<const CAP: usize>(text: &mut ArrayString<CAP>, payload: &[u8])
    requires { (array_string_len text.old + 64 ≤ CAP) × (length payload.now ≤ 32) }
    ensures bytes { text.new.bytes ≡ text.old.bytes ++ payload_text payload.now }
    ensures short { array_string_len text.new ≤ array_string_len text.old + 64 }
{
    if payload.is_empty() {
        text.push_str("-");
    } else {
        put_hexadecimal(text, payload);
    }
}

// Puts the line of the log record of that index.
#[tactic(auto, using(crate::proofs::Lines::hand_pieces, log_records::proofs::Places::payload_short), unfolding(text::specs::Text::ascii))]
fn put_hand_line<const CAP: usize>(text: &mut ArrayString<CAP>, output: &[u8], index: usize)
    requires { array_string_len text.old + 112 ≤ CAP }
    ensures bytes { text.new.bytes ≡ text.old.bytes ++ hand_line (log_record_at output.now index) }
    ensures short { array_string_len text.new ≤ array_string_len text.old + 112 }
{
    let fields = panel_log_fields(output, index);
    text.push_str("hand ");
    put_decimal(text, u64::from(fields.source));
    text.push_str(" ");
    put_decimal(text, fields.deadline);
    text.push_str(" ");
    put_payload(text, log_payload(output, index));
    text.push_str("\n");
}

// Puts the lines of so many log records at the start of an output.
#[tactic(auto, using(crate::proofs::Lines::no_lines, crate::proofs::Lines::next_line))]
pub fn put_hand_lines<const CAP: usize>(text: &mut ArrayString<CAP>, output: &[u8], count: usize)
    requires { array_string_len text.old + count * 112 ≤ CAP }
    ensures bytes { text.new.bytes ≡ text.old.bytes ++ hand_lines count output.now }
    ensures short { array_string_len text.new ≤ array_string_len text.old + count * 112 }
{
    for index in 0..count {
        put_hand_line(text, output, index);
    }
}
