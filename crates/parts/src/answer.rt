// What the calls answer.
ghost use Rattle.std.specs.Prelude.{◌≡◌};
ghost use Rattle.parts.specs.Answers.{answer_of};

use frame::Refusal;

// What an accepted call answers: so many log records stand in the output, and of a send the frame in its
// buffer has so many bytes.
#[derive(Clone, Copy, Debug, PartialEq, Eq)]
pub struct Accepted {
    pub count: usize,
    pub length: usize,
}

// The answer of a call as C has it: number is 0, or that of a refusal, with count and length 0 and all
// that was lent as it was.
#[repr(C)]
#[derive(Clone, Copy)]
pub struct Answer {
    pub count: usize,
    pub length: usize,
    pub number: u8,
}

impl From<Result<Accepted, Refusal>> for Answer {
    ghost from_gives = { λ answer given. given ≡ answer_of answer };

    fn from(answer: Result<Accepted, Refusal>) -> Answer {
        match answer {
            Ok(accepted) => Answer {
                count: accepted.count,
                length: accepted.length,
                number: 0,
            },
            Err(refusal) => Answer {
                count: 0,
                length: 0,
                number: refusal.number(),
            },
        }
    }
}
