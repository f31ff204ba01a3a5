// The refusals of the calls, and the numbers that document 01 gives them.
ghost use Rattle.std.specs.Prelude.{◌≡◌};
ghost use Rattle.frame.specs.Refusal.{number_of, number_in};

#[derive(Clone, Copy, Debug, PartialEq, Eq)]
pub enum Refusal {
    FrameShort = 1,
    FrameMark = 2,
    FrameVersion = 3,
    FrameSource = 4,
    FrameDeadline = 5,
    FrameEntry = 6,
    FramePayloadLength = 7,
    FrameLeftOver = 8,
    PayloadLong = 9,
    BufferShort = 10,
    PanelNumber = 11,
    OwnSource = 20,
    Lapsed = 21,
    HadAlready = 22,
    ListFull = 23,
    DeadlineTooHigh = 24,
    ClockBack = 25,
    RecordBroken = 26,
    TooFarAhead = 32,
}

impl Refusal {
    // Its number.
    pub fn number(self) -> u8
        ensures { result ≡ number_of self }
    {
        self as u8
    }
}

// The number of an answer: 0, or that of the refusal.
pub fn number_in(answer: Result<(), Refusal>) -> u8
    ensures { result ≡ number_in answer }
{
    match answer {
        Ok(()) => 0,
        Err(refusal) => refusal.number(),
    }
}
