// Log records read: what the record of an index in an output or a log says (for C too: `log_records_c`
// exports it), and its payload as a part of the log. Each public function accepts any input.
#![tactic(auto)]

ghost use Rattle.std.specs.Prelude.{◌≡◌};
ghost use Rattle.log_records.specs.LogRecords.{fields_in, log_record_at, RecordPart, PayloadPart};

use frame::WIDTH;
use numbers::number_at;

// The bytes of a log record.
pub const LOG_RECORD: usize = 42;

// Where in a log record the deadline stands: behind the source.
pub const DEADLINE_AT: usize = 1;

// Where the length of the payload stands: behind the deadline.
pub const LENGTH_AT: usize = DEADLINE_AT + WIDTH;

// Where the payload stands: behind its length.
pub const PAYLOAD_AT: usize = LENGTH_AT + 1;

// The most bytes of a payload.
const PAYLOAD_MOST: u8 = 32;

// The fields of a log record, with the length of its payload; all 0 where there is none. (C has this
// struct.)
#[repr(C)]
#[derive(Clone, Copy, Default)]
pub struct LogFields {
    pub deadline: u64,
    pub source: u8,
    pub length: u8,
}

// The log record of that index, as the part of the log that it occupies, where it is whole and its
// length is at most 32.
fn record_at(log: &[u8], index: usize) -> Option<&[u8]>
    ensures { RecordPart log.entry index result }
{
    if log.len() / LOG_RECORD <= index {
        return None;
    }
    let start = index * LOG_RECORD;
    let record = &log[start..start + LOG_RECORD];
    if PAYLOAD_MOST < record[LENGTH_AT] {
        return None;
    }
    Some(record)
}

// The fields of the log record of that index.
pub fn panel_log_fields(log: &[u8], index: usize) -> LogFields
    ensures { result ≡ fields_in (log_record_at log.now index) }
{
    let Some(record) = record_at(log, index) else {
        return LogFields::default();
    };
    LogFields {
        deadline: number_at(record, DEADLINE_AT, WIDTH),
        source: record[0],
        length: record[LENGTH_AT],
    }
}

// The payload of the log record of that index, as the part of the log that it occupies; where there
// is none, the empty part at the log's start, as the specification has it.
pub fn log_payload(log: &[u8], index: usize) -> &[u8]
    ensures { PayloadPart log.entry index result }
{
    let Some(record) = record_at(log, index) else {
        return &log[..0];
    };
    let end = PAYLOAD_AT + usize::from(record[LENGTH_AT]);
    &record[PAYLOAD_AT..end]
}
