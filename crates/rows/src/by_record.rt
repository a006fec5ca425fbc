// The rows of every record of every form. A code is its four bytes as one number; "0000" where breaking the rule is refusal 5.
ghost use Rattle.std.specs.Prelude.{◌≡◌};
ghost use Rattle.tables.specs.Tables.{rows_of};

use kinds::of_files::{Form, Kind, Role};
use tables::row::{Class, Row};

const MARK_H: Class = Class::Each(b'H', b'H');

const MARK_R: Class = Class::Each(b'R', b'R');

const MARK_T: Class = Class::Each(b'T', b'T');

const NINES: Class = Class::Each(b'9', b'9');

const ZEROS: Class = Class::Each(b'0', b'0');

const SPACES: Class = Class::Each(b' ', b' ');

const DIGITS: Class = Class::Each(b'0', b'9');

const TYPES: Class = Class::Each(b'0', b'6');

const FREE: Class = Class::Each(0x20, 0x7E);

const PASSBOOK: Class = Class::Each(0x20, 0xFF);

const APPLICATIONS: Class = Class::OneOf(b'1', b'3', b'7');

const CHECKS: Class = Class::OneOf(b'Y', b'N', b' ');

const CHANNELS: Class = Class::OneOf(b'1', b'4', b'4');

const C0000: u32 = 0x3030_3030;

const C0011: u32 = 0x3030_3131;

const C0061: u32 = 0x3030_3631;

const C0068: u32 = 0x3030_3638;

const C0075: u32 = 0x3030_3735;

const C0081: u32 = 0x3030_3831;

const C0087: u32 = 0x3030_3837;

const C0088: u32 = 0x3030_3838;

const C0089: u32 = 0x3030_3839;

const C0090: u32 = 0x3030_3930;

const C0098: u32 = 0x3030_3938;

const C9998: u32 = 0x3939_3938;

const CA011: u32 = 0x4130_3131;

const CA012: u32 = 0x4130_3132;

const ENROLMENT_HEADER: [Row; 9] = [
    Row(1, 0, 1, MARK_H, C0081),
    Row(2, 1, 8, ZEROS, C0081),
    Row(3, 9, 10, Class::Institution, C0088),
    Row(4, 19, 4, Class::KindName, C0000),
    Row(4, 23, 4, DIGITS, C0088),
    Row(5, 27, 6, DIGITS, C0088),
    Row(5, 27, 6, Class::Date, C9998),
    Row(5, 27, 6, Class::NameDate, C0000),
    Row(6, 33, 87, SPACES, C0089),
];

const DEBIT_HEADER: [Row; 11] = [
    Row(1, 0, 1, MARK_H, C0081),
    Row(2, 1, 8, ZEROS, C0081),
    Row(3, 9, 10, Class::Institution, C0088),
    Row(4, 19, 4, Class::KindName, C0000),
    Row(4, 23, 4, DIGITS, C0088),
    Row(5, 27, 6, DIGITS, C0088),
    Row(5, 27, 6, Class::Date, C9998),
    Row(5, 27, 6, Class::NameDate, C0000),
    Row(6, 33, 7, DIGITS, C0011),
    Row(7, 40, 16, Class::Filled, C0098),
    Row(8, 56, 94, SPACES, C0089),
];

const ENROLMENT_REQUEST_DATA: [Row; 16] = [
    Row(1, 0, 1, MARK_R, C0081),
    Row(2, 1, 8, Class::Serial, C0081),
    Row(3, 9, 10, Class::AsHeader, C0000),
    Row(4, 19, 6, Class::NotLater, CA011),
    Row(5, 25, 1, APPLICATIONS, CA012),
    Row(6, 26, 20, Class::Filled, C0098),
    Row(7, 46, 7, DIGITS, C0011),
    Row(8, 53, 16, Class::Filled, C0098),
    Row(9, 69, 16, Class::Owner, C0098),
    Row(10, 85, 4, SPACES, C0089),
    Row(11, 89, 2, Class::CodeText, C0098),
    Row(12, 91, 5, SPACES, C0089),
    Row(13, 96, 1, SPACES, C0089),
    Row(14, 97, 12, FREE, C0088),
    Row(15, 109, 1, SPACES, C0089),
    Row(16, 110, 10, SPACES, C0089),
];

const ENROLMENT_RESULT_DATA: [Row; 16] = [
    Row(1, 0, 1, MARK_R, C0081),
    Row(2, 1, 8, Class::Serial, C0081),
    Row(3, 9, 10, Class::AsHeader, C0000),
    Row(4, 19, 6, Class::NotLater, CA011),
    Row(5, 25, 1, APPLICATIONS, CA012),
    Row(6, 26, 20, Class::Filled, C0098),
    Row(7, 46, 7, DIGITS, C0011),
    Row(8, 53, 16, Class::Filled, C0098),
    Row(9, 69, 16, Class::Owner, C0098),
    Row(10, 85, 4, SPACES, C0089),
    Row(11, 89, 2, Class::CodeText, C0098),
    Row(12, 91, 5, Class::Failed, C0088),
    Row(13, 96, 1, SPACES, C0089),
    Row(14, 97, 12, FREE, C0088),
    Row(15, 109, 1, SPACES, C0089),
    Row(16, 110, 10, SPACES, C0089),
];

const BANK_ENROLMENT_DATA: [Row; 16] = [
    Row(1, 0, 1, MARK_R, C0081),
    Row(2, 1, 8, Class::Serial, C0081),
    Row(3, 9, 10, Class::AsHeader, C0000),
    Row(4, 19, 6, Class::NotLater, CA011),
    Row(5, 25, 1, APPLICATIONS, CA012),
    Row(6, 26, 20, Class::Filled, C0098),
    Row(7, 46, 7, DIGITS, C0011),
    Row(8, 53, 16, Class::Filled, C0098),
    Row(9, 69, 16, Class::Owner, C0098),
    Row(10, 85, 4, Class::Office, C0088),
    Row(11, 89, 2, Class::CodeText, C0098),
    Row(12, 91, 5, SPACES, C0089),
    Row(13, 96, 1, CHECKS, C0088),
    Row(14, 97, 12, FREE, C0088),
    Row(15, 109, 1, CHANNELS, C0088),
    Row(16, 110, 10, SPACES, C0089),
];

const DEBIT_REQUEST_DATA: [Row; 18] = [
    Row(1, 0, 1, MARK_R, C0081),
    Row(2, 1, 8, Class::Serial, C0081),
    Row(3, 9, 10, Class::AsHeader, C0000),
    Row(4, 19, 7, DIGITS, C0011),
    Row(5, 26, 16, Class::Filled, C0098),
    Row(6, 42, 13, DIGITS, C0088),
    Row(6, 42, 13, Class::NotZero, C0061),
    Row(7, 55, 13, Class::CodeText, C0098),
    Row(8, 68, 5, SPACES, C0089),
    Row(9, 73, 16, PASSBOOK, C0068),
    Row(9, 73, 16, Class::PassbookForm, C0087),
    Row(10, 89, 2, Class::CodeText, C0098),
    Row(11, 91, 20, Class::Filled, C0098),
    Row(12, 111, 5, FREE, C0088),
    Row(13, 116, 1, TYPES, C0075),
    Row(13, 116, 1, Class::Least, C0075),
    Row(14, 117, 12, FREE, C0088),
    Row(15, 129, 21, SPACES, C0089),
];

const DEBIT_RESULT_DATA: [Row; 16] = [
    Row(1, 0, 1, MARK_R, C0081),
    Row(2, 1, 8, Class::Serial, C0081),
    Row(3, 9, 10, Class::AsHeader, C0000),
    Row(4, 19, 7, DIGITS, C0011),
    Row(5, 26, 16, Class::Filled, C0098),
    Row(6, 42, 13, DIGITS, C0088),
    Row(6, 42, 13, Class::NotZero, C0061),
    Row(7, 55, 13, Class::CodeText, C0098),
    Row(8, 68, 5, Class::FailedOrPart, C0088),
    Row(9, 73, 16, PASSBOOK, C0068),
    Row(10, 89, 2, Class::CodeText, C0098),
    Row(11, 91, 20, Class::Filled, C0098),
    Row(12, 111, 5, FREE, C0088),
    Row(13, 116, 1, TYPES, C0075),
    Row(14, 117, 12, FREE, C0088),
    Row(15, 129, 21, SPACES, C0089),
];

const ENROLMENT_REQUEST_TRAILER: [Row; 11] = [
    Row(1, 0, 1, MARK_T, C0081),
    Row(2, 1, 8, NINES, C0081),
    Row(3, 9, 10, Class::AsHeader, C0000),
    Row(4, 19, 8, Class::AsHeader, C0000),
    Row(5, 27, 8, DIGITS, C0088),
    Row(6, 35, 8, DIGITS, C0088),
    Row(7, 43, 8, ZEROS, C0090),
    Row(8, 51, 8, DIGITS, C0088),
    Row(9, 59, 8, DIGITS, C0088),
    Row(10, 67, 43, SPACES, C0089),
    Row(11, 110, 10, SPACES, C0089),
];

const ENROLMENT_RESULT_TRAILER: [Row; 11] = [
    Row(1, 0, 1, MARK_T, C0081),
    Row(2, 1, 8, NINES, C0081),
    Row(3, 9, 10, Class::AsHeader, C0000),
    Row(4, 19, 8, Class::AsHeader, C0000),
    Row(5, 27, 8, DIGITS, C0088),
    Row(6, 35, 8, DIGITS, C0088),
    Row(7, 43, 8, ZEROS, C0090),
    Row(8, 51, 8, DIGITS, C0088),
    Row(9, 59, 8, DIGITS, C0088),
    Row(10, 67, 43, SPACES, C0089),
    Row(11, 110, 10, FREE, C0088),
];

const DEBIT_REQUEST_TRAILER: [Row; 11] = [
    Row(1, 0, 1, MARK_T, C0081),
    Row(2, 1, 8, NINES, C0081),
    Row(3, 9, 10, Class::AsHeader, C0000),
    Row(4, 19, 8, Class::AsHeader, C0000),
    Row(5, 27, 8, DIGITS, C0088),
    Row(6, 35, 8, DIGITS, C0088),
    Row(7, 43, 13, DIGITS, C0088),
    Row(8, 56, 8, ZEROS, C0090),
    Row(9, 64, 13, ZEROS, C0090),
    Row(10, 77, 63, SPACES, C0089),
    Row(11, 140, 10, SPACES, C0089),
];

const DEBIT_RESULT_TRAILER: [Row; 15] = [
    Row(1, 0, 1, MARK_T, C0081),
    Row(2, 1, 8, NINES, C0081),
    Row(3, 9, 10, Class::AsHeader, C0000),
    Row(4, 19, 8, Class::AsHeader, C0000),
    Row(5, 27, 8, DIGITS, C0088),
    Row(6, 35, 8, DIGITS, C0088),
    Row(7, 43, 13, DIGITS, C0088),
    Row(8, 56, 8, DIGITS, C0088),
    Row(9, 64, 13, DIGITS, C0088),
    Row(10, 77, 8, DIGITS, C0088),
    Row(11, 85, 4, ZEROS, C0090),
    Row(12, 89, 11, DIGITS, C0088),
    Row(13, 100, 11, ZEROS, C0090),
    Row(14, 111, 29, SPACES, C0089),
    Row(15, 140, 10, FREE, C0088),
];

// The rows of the record.
pub fn rows_of(kind: Kind, role: Role) -> &'static [Row]
    ensures { result.now ≡ rows_of kind role }
{
    match role {
        Role::Header => match kind.form {
            Form::EnrolmentRequest | Form::EnrolmentResult | Form::BankEnrolment =>
                &ENROLMENT_HEADER,
            Form::DebitRequest | Form::DebitResult => &DEBIT_HEADER,
        },
        Role::Data => match kind.form {
            Form::EnrolmentRequest => &ENROLMENT_REQUEST_DATA,
            Form::EnrolmentResult => &ENROLMENT_RESULT_DATA,
            Form::DebitRequest => &DEBIT_REQUEST_DATA,
            Form::DebitResult => &DEBIT_RESULT_DATA,
            Form::BankEnrolment => &BANK_ENROLMENT_DATA,
        },
        Role::Trailer => match kind.form {
            Form::EnrolmentRequest => &ENROLMENT_REQUEST_TRAILER,
            Form::EnrolmentResult | Form::BankEnrolment => &ENROLMENT_RESULT_TRAILER,
            Form::DebitRequest => &DEBIT_REQUEST_TRAILER,
            Form::DebitResult => &DEBIT_RESULT_TRAILER,
        },
    }
}
