// Consent evidence. The profile is 0, ordinary, or any other number, partly exempt.
ghost use Rattle.std.specs.Prelude.{◌≡◌, length};
ghost use Rattle.evidence.specs.Reading.{read_of};
ghost use Rattle.evidence.specs.Lying.{part_of};
ghost use Rattle.evidence_writer.specs.Writing.{write_of, write_after};
ghost use Rattle.consent.specs.Comparing.{compare_of};
ghost use Rattle.signed.specs.Checking.{is_signed};
ghost use Rattle.telling.specs.Numbers.{five, six, eight_for};
ghost use Rattle.cms.specs.Profiles.{is_exempt};
ghost use Rattle.cms.specs.Yes.{yes_of};

use answers::told::Answer;
use consent::comparing;
use evidence::{lying, reading};
use evidence_writer::writing;
use signed::frames;
use telling::answer::{tell, tell_stored};
use telling::part::tell_part;

const YES: u64 = 1;

const NO: u64 = 0;

// Reads the file as one of evidence. Returns the refusal's number, 0 when accepted.
#[unsafe(no_mangle)]
pub extern "C" fn cms_evidence_read(profile: u32, file: &[u8], answer: &mut [u64; 5]) -> u64
    ensures value { result ≡ (read_of (is_exempt profile) file.now).number }
    ensures answer_after { answer.new ≡ five (read_of (is_exempt profile) file.now) }
{
    let told = Answer::of(reading::read(profile != 0, file));
    tell(told, answer)
}

// Where the evidence of one record lies, by its record number. Returns the refusal's number, 0 when accepted.
#[unsafe(no_mangle)]
pub extern "C" fn cms_evidence_part(
    profile: u32,
    file: &[u8],
    record: u64,
    answer: &mut [u64; 8],
) -> u64
    ensures value { result ≡ (part_of (is_exempt profile) file.now «record»).answer.number }
    ensures answer_after { answer.new ≡ eight_for (part_of (is_exempt profile) file.now «record») }
{
    let shown = lying::part(profile != 0, file, record);
    tell_part(shown, answer)
}

// Writes a file of evidence into the room: `records` is items 6 to 12 and then the evidence, record after record. Returns the
// refusal's number, 0 when accepted; a refusal leaves the room as it was.
#[unsafe(no_mangle)]
pub extern "C" fn cms_evidence_write(
    profile: u32,
    date: &[u8],
    code: &[u8],
    records: &[u8],
    room: &mut [u8],
    answer: &mut [u64; 6],
) -> u64
    ensures value { result ≡ (write_of (is_exempt profile) date.now code.now records.now (length room.old)).answer.number }
    ensures room_after { room.new ≡ write_after (is_exempt profile) date.now code.now records.now room.old }
    ensures answer_after { answer.new ≡ six (write_of (is_exempt profile) date.now code.now records.now (length room.old)) }
{
    let stored = writing::write(profile != 0, date, code, records, room);
    tell_stored(stored, answer)
}

// Compares an enrolment request, EB13, with its evidence. Returns the refusal's number, 0 when accepted.
#[unsafe(no_mangle)]
pub extern "C" fn cms_evidence_compare(
    profile: u32,
    enrolments: &[u8],
    evidence: &[u8],
    answer: &mut [u64; 5],
) -> u64
    ensures value { result ≡ (compare_of (is_exempt profile) enrolments.now evidence.now).number }
    ensures answer_after { answer.new ≡ five (compare_of (is_exempt profile) enrolments.now evidence.now) }
{
    let told = Answer::of_two(comparing::compare(profile != 0, enrolments, evidence));
    tell(told, answer)
}

// Whether bytes of every sort have the frame of signed evidence. Returns 1 where they have, else 0.
#[unsafe(no_mangle)]
pub extern "C" fn cms_signed(bytes: &[u8]) -> u64
    ensures { result ≡ yes_of (is_signed bytes.now) }
{
    if frames::is_signed(bytes) {
        return YES;
    }
    NO
}
