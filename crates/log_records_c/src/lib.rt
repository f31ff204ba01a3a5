// The reader of logs for C, over the crate log_records: the same promise, called by C. It accepts any
// input.
#![tactic(auto)]

ghost use Rattle.std.specs.Prelude.{◌≡◌};
ghost use Rattle.log_records.specs.LogRecords.{fields_in, log_record_at};

use log_records::LogFields;

// The fields of the log record of that index.
#[unsafe(no_mangle)]
pub extern "C" fn panel_log_fields(log: &[u8], index: usize) -> LogFields
    ensures { result ≡ fields_in (log_record_at log.now index) }
{
    log_records::panel_log_fields(log, index)
}
