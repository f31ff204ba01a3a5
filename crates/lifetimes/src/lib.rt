// Lifetimes and the deadline of a send. An internal crate: a send calls it. Precondition of the deadline:
// it doesn't pass the last one, which is asked first.
#![tactic(auto)]

ghost use Rattle.std.specs.Prelude.{◌≡◌, ◌≤◌, ltb, SomeIff};
ghost use Rattle.rules.specs.Sizes.{last_deadline};
ghost use Rattle.rules.specs.Calls.{send_deadline};
ghost use Rattle.rules.specs.Calls.{lifetime_of as meantBy};
ghost use Rattle.lifetimes.specs.Record.{record_with};

// Document 02, W-203: "From now on 0 means 7,200."
const DEFAULT_LIFETIME: u64 = 7200;

// Document 02, W-203: the status beacon's call "answers in everything as a send with lifetime 1,200".
pub const BEACON_LIFETIME: u16 = 1200;

// The lifetime that is meant: 0 means the default.
fn lifetime_of(lifetime: u16) -> u64
    ensures { result ≡ meantBy lifetime }
{
    match lifetime {
        0 => DEFAULT_LIFETIME,
        given => u64::from(given),
    }
}

// The larger of time + lifetime and high + 1; none where that passes the last deadline.
#[tactic(auto, unfolding(rules::specs::Calls::send_deadline))]
fn deadline(time: u64, high: u64, lifetime: u16) -> Option<u64>
    ensures { SomeIff result (send_deadline (record_with time high) lifetime ≤ last_deadline)
        (send_deadline (record_with time high) lifetime) }
{
    let by_time = time.checked_add(lifetime_of(lifetime))?;
    let by_high = high.checked_add(1)?;
    Some(by_time.max(by_high))
}

// Whether the deadline of a send would pass the last one.
pub fn passes_last(time: u64, high: u64, lifetime: u16) -> bool
    ensures { result ≡ ltb last_deadline (send_deadline (record_with time high) lifetime) }
{
    deadline(time, high, lifetime).is_none()
}

// The deadline of a send.
pub fn send_deadline(time: u64, high: u64, lifetime: u16) -> u64
    requires { send_deadline (record_with time high) lifetime ≤ last_deadline }
    ensures { result ≡ send_deadline (record_with time high) lifetime }
{
    deadline(time, high, lifetime).unwrap()
}
