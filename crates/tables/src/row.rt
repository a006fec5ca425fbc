// The rows of a record: one for each rule of each item, in their order.

// The rule that a row states for the bytes of its item.
#[derive(Clone, Copy)]
pub enum Class {
    // every byte is one from low to high
    Each(u8, u8),
    // digits and capitals, then only spaces
    CodeText,
    // code text with a character before the spaces
    Filled,
    // filled code text, or blank where item 5 is "3"
    Owner,
    // "99" and digits
    Institution,
    // the kind's four letters, or the file is of another kind
    KindName,
    // a date YYMMDD
    Date,
    // a date whose MMDD is the file name's
    NameDate,
    // the record's number
    Serial,
    // the header's bytes at the same place
    AsHeader,
    // a date, not later than the header's
    NotLater,
    // four digits, "CHNG", "CNCL" or spaces
    Office,
    // not all "0"
    NotZero,
    // "N" and a table code
    Failed,
    // "N" and a table code, or "P" and a table code or four spaces
    FailedOrPart,
    // type "1", or the record's amount reaches the kind's least amount
    Least,
    // a date YYYYMMDD
    LongDate,
    // the header's bytes from a place of their own
    HeaderFrom(u8),
    // an extension that the kind of evidence allows
    Extension,
    // passbook text in one of its three forms
    PassbookForm,
    // one of three bytes
    OneOf(u8, u8, u8),
}

// Item, start, length, class, code.
#[derive(Clone, Copy)]
pub struct Row(pub u8, pub u8, pub u16, pub Class, pub u32);
