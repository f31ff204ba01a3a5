// The lines that the program "list" prints, put behind a text in lent memory, or behind one of fixed
// capacity. An internal crate. Precondition: room.
#![tactic(auto)]

ghost use Rattle.std.specs.Prelude.{◌+◌, ◌*◌, ◌≤◌, length};
ghost use Rattle.log_records.specs.LogRecords.{log_record_at};
ghost use Rattle.text.specs.Put.{RoomBehind, PutBehind};
ghost use Rattle.lines.specs.Lines.{number_or_0, outcome, frame_line, payload_text, hand_line, hand_lines};

mod fixed;
#[cfg(test)]
mod tests;

pub use fixed::{put_frame_line, put_hand_lines};
use frame::Refusal;
use log_records::{log_payload, panel_log_fields};
use text::{
    Text, put_byte, put_decimal_lent, put_hexadecimal_lent, put_item, put_start, put_words,
};

// Puts what was answered: `taken` for 0, or the number.
#[tactic(auto, using(crate::proofs::LinesLent::outcome_taken_lent, crate::proofs::LinesLent::outcome_refused_lent), unfolding(text::specs::Text::ascii))]
fn put_outcome(text: &mut Text, number: u8)
    requires { RoomBehind text.old 20 }
    ensures bytes { PutBehind text.old (outcome number) text.new }
    ensures short { text.new.at ≤ text.old.at + 20 }
{
    if number == 0 {
        put_words(text, b"taken");
    } else {
        put_decimal_lent(text, u64::from(number));
    }
}

// Puts the line of a frame: its number from 1, and what was answered, `taken` for 0.
pub fn put_frame_line_lent(text: &mut Text, frame: u64, number: u8)
    requires { RoomBehind text.old 48 }
    ensures bytes { PutBehind text.old (frame_line frame number) text.new }
    ensures short { text.new.at ≤ text.old.at + 48 }
{
    put_start(text, b"frame ", frame);
    put_outcome(text, number);
    put_byte(text, b'\n');
}

// Puts the line of a frame that was taken, or refused.
pub fn put_answer_line(text: &mut Text, frame: u64, refusal: Option<Refusal>)
    requires { RoomBehind text.old 48 }
    ensures bytes { PutBehind text.old (frame_line frame (number_or_0 refusal)) text.new }
    ensures short { text.new.at ≤ text.old.at + 48 }
{
    match refusal {
        None => put_frame_line_lent(text, frame, 0),
        Some(refusal) => put_frame_line_lent(text, frame, refusal.number()),
    }
}

// Puts a payload in hexadecimal, or `-` for an empty one.
#[tactic(auto, using(crate::proofs::Lines::payload_text_none, crate::proofs::Lines::payload_text_some), unfolding(text::specs::Text::ascii))]
fn put_payload(text: &mut Text, payload: &[u8])
    requires { RoomBehind text.old 64 × (length payload.now ≤ 32) }
    ensures bytes { PutBehind text.old (payload_text payload.now) text.new }
    ensures short { text.new.at ≤ text.old.at + 64 }
{
    if payload.is_empty() {
        put_byte(text, b'-');
    } else {
        put_hexadecimal_lent(text, payload);
    }
}

// Puts the line of the log record of that index.
#[tactic(auto, using(log_records::proofs::Places::payload_short))]
fn put_hand_line(text: &mut Text, output: &[u8], index: usize)
    requires { RoomBehind text.old 112 }
    ensures bytes { PutBehind text.old (hand_line (log_record_at output.now index)) text.new }
    ensures short { text.new.at ≤ text.old.at + 112 }
{
    let fields = panel_log_fields(output, index);
    put_start(text, b"hand ", u64::from(fields.source));
    put_item(text, fields.deadline, b' ');
    put_payload(text, log_payload(output, index));
    put_byte(text, b'\n');
}

// Puts the lines of so many log records at the start of an output.
pub fn put_hand_lines_lent(text: &mut Text, output: &[u8], count: usize)
    requires { RoomBehind text.old (count * 112) }
    ensures bytes { PutBehind text.old (hand_lines count output.now) text.new }
    ensures short { text.new.at ≤ text.old.at + count * 112 }
{
    for index in 0..count {
        put_hand_line(text, output, index);
    }
}
