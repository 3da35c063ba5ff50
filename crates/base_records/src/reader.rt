//! What a reader of a file of records tells.

ghost use Rattle.std.specs.Prelude.{◌≡◌, ℕ};
ghost use Rattle.csv.specs.Records.{fields_of};
ghost use Rattle.base_memory.specs.Gives.{Gives};
ghost use Rattle.base_records.specs.{Fields.are_fields, RecordFile.RecordFile};

use base_memory::Stopped;
use csv::ByteRecord;
use std::alloc::Global;

/// A reader of a file of records: a header, and then what each record makes of those before it.
///
/// The header is record 1, and the first record behind it is record 2.
pub trait RecordReader {
    /// What the reader holds of the records so far.
    type Reading: Drop;
    /// Why a file is refused.
    type Fault: Drop;

    /// What the records so far say.
    ghost Said: { Type 0 };

    ghost said: { Self.Reading → Said };

    /// The file, as a definition.
    ghost file: { Self → RecordFile Said Self.Fault };

    /// What holds before a record of this number.
    ghost Before: { Self → ℕ → Said → Type 0 };

    /// Whether the record is the header.
    fn is_header(&self, row: &ByteRecord) -> bool
        ensures { result ≡ are_fields (file self.now).header (fields_of row.now) };

    /// Before the first record behind the header.
    fn start(&self, alloc: Global) -> Self::Reading
        ensures { said result ≡ (file self.now).start };

    /// What record n makes of those before it.
    fn after(
        &self,
        alloc: Global,
        reading: Self::Reading,
        n: u32,
        row: &ByteRecord,
    ) -> Result<Self::Reading, Stopped<Self::Fault>>
        requires { Before self.now n (said reading) }
        ensures { Gives said result
            ((file self.now).after (said reading) n (fields_of row.now)) };

    /// The first record isn't the header.
    fn no_header(&self) -> Self::Fault
        ensures { result ≡ (file self.now).no_header };

    /// No record follows the header.
    fn no_record(&self) -> Self::Fault
        ensures { result ≡ (file self.now).no_record };
}
