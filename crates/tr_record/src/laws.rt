//! Laws of records' texts.

ghost use Rattle.std.specs.Prelude.{◌≡◌, ℕ, List, Some};
ghost use Rattle.tr_record.specs.Records.{Entry};
ghost use Rattle.tr_record.specs.Whole.{AreBytes, AreRecords, entries_at};

/// Bytes are read as these records exactly when they are the records' texts, end to end. Does nothing.
pub fn whole_records_are_read()
    ensures found { (bytes : List ℕ) (es : List Entry) → AreBytes bytes → entries_at bytes ≡ Some es
        → AreRecords es bytes }
    ensures only { (bytes : List ℕ) (es : List Entry) → AreRecords es bytes → entries_at bytes ≡ Some es }
{}
