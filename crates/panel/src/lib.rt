// The panel's record as a struct, and by value the calls that do not change one: fresh, which makes it,
// and trace, which looks at it. Both are thin over those in place, and accept any input.
#![tactic(auto)]

mod trace;

ghost use Rattle.std.specs.Prelude.{◌≡◌};
ghost use Rattle.rules.specs.Refusals.{fresh_number, fresh_record};
ghost use Rattle.parts.specs.Answers.{answer_of};
ghost use Rattle.panel.specs.Record.{record_of};

use exports::panel_fresh_parts;
use frame::Refusal;
use parts::Accepted;
use slots::SLOTS;
pub use trace::panel_trace;

// The record. Of the slots the first `count` hold the waiting messages in the order taken: 569 bytes
// each, the length of a frame in 16 bits and then the frame, of version 2.
#[repr(C)]
#[derive(Clone, Copy)]
pub struct Panel {
    pub own: u8,
    pub time: u64,
    pub high: u64,
    pub count: usize,
    pub marks: [u64; 64],
    pub barrier: [u64; 64],
    pub slots: [u8; SLOTS],
    pub floor: u64,
}

// What a call by value gives back: the record, and what the call answers. After a refusal it is the very
// record that was given; fresh, which is given none, makes panel 0 then.
#[repr(C)]
#[derive(Clone, Copy)]
pub struct Given {
    pub panel: Panel,
    pub answer: Result<Accepted, Refusal>,
}

// A fresh panel; for a number above 63 it is panel 0, with the refusal 11.
pub fn panel_fresh(number: u8) -> Given
    ensures { (answer_of result.answer ≡ record { count = 0; length = 0; number = fresh_number number }) × (record_of result.panel ≡ fresh_record number) }
{
    let mut panel = Panel {
        own: 0,
        time: 0,
        high: 0,
        count: 0,
        marks: [0u64; 64],
        barrier: [0u64; 64],
        slots: [0u8; SLOTS],
        floor: 0,
    };
    let number = panel_fresh_parts(
        number,
        &mut panel.own,
        &mut panel.time,
        &mut panel.high,
        &mut panel.count,
        &mut panel.marks,
        &mut panel.barrier,
        &mut panel.slots,
        &mut panel.floor,
    );
    if number != 0 {
        return Given {
            panel,
            answer: Err(Refusal::PanelNumber),
        };
    }
    Given {
        panel,
        answer: Ok(Accepted {
            count: 0,
            length: 0,
        }),
    }
}
