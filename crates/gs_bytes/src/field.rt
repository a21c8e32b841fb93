//! The law of the field readers and writers.

ghost use Rattle.gs_bytes.specs.Field.{ReadsBack};

/// A number that fits its field is read back as it was written, in both byte orders.
pub fn field_reads_back()
    ensures { ReadsBack }
{}
