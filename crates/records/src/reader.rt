// The plan's reader: the plan, and the offset of the record that is read next; `record_at` does the work. It is the crate's own: a caller has a
// plain slice and an offset, and uses `plan_record`.
ghost use Rattle.std.specs.Prelude.{◌≡◌};
ghost use Rattle.records.specs.Record.{record_at};

use crate::record::{Record, record_at};

// A plan, and an offset in it.
#[derive(Clone, Copy, Debug, PartialEq, Eq)]
pub(crate) struct Reader<'a> {
    plan: &'a [u8],
    at: usize,
}

impl<'a> Reader<'a> {
    // A reader at the plan's first byte.
    fn new(plan: &'a [u8]) -> Reader<'a>
        ensures { result ≡ record { plan = plan.entry; at = 0 } }
    {
        Reader { plan, at: 0 }
    }

    // The reader at another offset of its plan: where the last record ended.
    fn moved(self, at: usize) -> Reader<'a>
        ensures { result ≡ record { plan = self.entry.plan; at = at } }
    {
        Reader {
            plan: self.plan,
            at,
        }
    }

    // The record at the reader's offset, if it is all there.
    fn next(self) -> Option<Record>
        ensures { result ≡ record_at self.entry.plan.now self.entry.at }
    {
        record_at(self.plan, self.at)
    }
}

// The record at an offset of a plan, if it is all there.
pub fn plan_record(plan: &[u8], at: usize) -> Option<Record>
    ensures { result ≡ record_at plan.now at }
{
    Reader::new(plan).moved(at).next()
}
