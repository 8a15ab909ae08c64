// Sheets: how they are read, how they are written, and what is proved of the two.
ghost use Rattle.cases_words.specs.Fields.{AmountsShown, ConstantsShown, FieldTextsShown, HeadingsShown, NumbersShown, TestsShown};
ghost use Rattle.cases_words.specs.Records.{BeginsShown, ConditionsShown, EntriesShown, GrownShown, MovesShown, RecordTestsShown, RequestsShown};
ghost use Rattle.cases_words.specs.Sheets.{BytesHold, JudgementsHold, MapBitsShown, Needed, OnliesHold, ReadsShown, WrittenShown};

// Numbers that are read from a sheet, and where they are at fault.
pub fn numbers_stand()
    ensures { NumbersShown }
{}

// Bytes and texts that are read from a sheet.
pub fn field_texts_stand()
    ensures { FieldTextsShown }
{}

// Headers of sheets.
pub fn headings_stand()
    ensures { HeadingsShown }
{}

// Tests that the reading makes.
pub fn tests_stand()
    ensures { TestsShown }
{}

// The limits that the reading takes from the number of marks and from a kind.
pub fn amounts_stand()
    ensures { AmountsShown }
{}

// The text of an absent one, and what begins a sheet.
pub fn constants_stand()
    ensures { ConstantsShown }
{}

// Records of conditions.
pub fn read_conditions_stand()
    ensures { ConditionsShown }
{}

// Records of moves.
pub fn read_moves_stand()
    ensures { MovesShown }
{}

// Records of requests.
pub fn read_requests_stand()
    ensures { RequestsShown }
{}

// Which kind of record may come next, and for which there is room.
pub fn record_tests_stand()
    ensures { RecordTestsShown }
{}

// How records begin.
pub fn begins_stand()
    ensures { BeginsShown }
{}

// Whole records.
pub fn entries_stand()
    ensures { EntriesShown }
{}

// A port with one record more.
pub fn grown_stand()
    ensures { GrownShown }
{}

// The bytes of ports and of their parts.
pub fn written_stand()
    ensures { WrittenShown }
{}

// The bits of a map byte.
pub fn map_bits_stand()
    ensures { MapBitsShown }
{}

// Lists of bytes.
pub fn bytes_stand()
    ensures { BytesHold }
{}

// Sheets that are read, and where they are refused.
pub fn reads_stand()
    ensures { ReadsShown }
{}

// The only sheet of a port.
pub fn onlies_stand()
    ensures { OnliesHold }
{}

// What a reading may say of a text.
pub fn judgements_stand()
    ensures { JudgementsHold }
{}

// The premises of the theorems on sheets are needed.
pub fn premises_stand()
    ensures { Needed }
{}
