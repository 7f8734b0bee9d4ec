// The bytes of a case, put into a buffer: its record with the closing one behind it.
ghost use Rattle.std.specs.Prelude.{◌≡◌, ◌++◌, ◌+◌, ◌≤◌, length, take, drop};
ghost use Rattle.records.specs.Record.{closing};
ghost use Rattle.task_file.specs.Bytes.{case_record};

use task::index::Case;

// The record of a case, and the closing one, from an offset on. A record's head is its length and its kind, 2 bytes each: a case has 24 bytes and kind 4,
// the closing record none and kind 5.
pub(crate) fn put_case(bytes: &mut [u8], at: usize, case: Case)
    requires { at + 32 ≤ length bytes.old }
    ensures { bytes.new ≡ take at bytes.old ++ (case_record case ++ closing) ++ drop (at + 32) bytes.old }
{
    let records = &mut bytes[at..at + 32];
    records[..4].copy_from_slice(&[24, 0, 4, 0]);
    records[4..12].copy_from_slice(&case.start.to_le_bytes());
    records[12..20].copy_from_slice(&case.goal.positive.to_le_bytes());
    records[20..28].copy_from_slice(&case.goal.negative.to_le_bytes());
    records[28..].copy_from_slice(&[0, 0, 5, 0]);
}
