// Which enrolment lacks its evidence, and which evidence belongs to none.
ghost use Rattle.std.specs.Prelude.{◌≡◌, ℕ, ◌+◌, ◌≤◌, ◌<◌, length, get_or};
ghost use Rattle.kinds.specs.Kinds.{limit, EB13};
ghost use Rattle.answers.specs.Answers.{first_told, ◌then◌};
ghost use Rattle.answers.specs.Refusing.{answer_of};
ghost use Rattle.keys.specs.Stands.{key_in};
ghost use Rattle.keys.specs.Keyed.{key_of};
ghost use Rattle.records.specs.Records.{count_of, data_of};
ghost use Rattle.evidence.specs.Blocks.{records_in};
ghost use Rattle.evidence.specs.Judged.{byte_of};
ghost use Rattle.evidence.specs.Reading.{keys_told};
ghost use Rattle.consent.specs.Comparing.{lacks_told, foreign_told};
ghost use Rattle.consent.specs.Marks.{marked_at, marked_to, good_to, unmarked_told, key_spacing, Listed};

use crate::headers;
use answers::refusing::Refusal;
use evidence::totals::KEY;
use keys::chains::LINKS;
use keys::keyed::Keys;
use keys::linked::Linked;
use kinds::of_files::{Kind, LIMIT};
use records::listed;
use text::parts;

// The evidence records of a file, by their keys.
#[derive(Clone, Copy)]
struct Records<'a> {
    file: &'a [u8],
    linked: Linked<'a>,
    ghost listed: { Listed file.now linked.keys.places.now linked.keys.n linked.links.now },
    ghost spaced: { key_of linked.keys ≡ key_in linked.keys.places.now key_spacing file.now },
}

// Enrolment i + 1; the evidence that it asks for is marked.
fn enrolment_tells(
    enrolments: &[u8],
    i: usize,
    evidence: Records,
    marks: &mut [bool],
) -> Result<(), Refusal>
    requires i_bound { i + 2 < count_of EB13 enrolments.now }
    requires count_in_bounds { evidence.linked.keys.n ≤ length marks.old }
    ensures value { answer_of result ≡ lacks_told enrolments.now evidence.entry.file.now i }
    ensures marks_after { marks.new ≡ marked_at enrolments.now evidence.entry.file.now i marks.old }
{
    let rec = listed::record_of(Kind::EB13, enrolments, i + 1);
    if parts::byte(rec, 25) != b'1' {
        return Ok(());
    }
    let Some(j) = evidence.linked.place(&headers::asked(rec)) else {
        return Err(Refusal::Lacking((i + 1) as u64));
    };
    marks[j] = true;
    Ok(())
}

// The first enrolment without its evidence; before it, evidence that is asked for is marked.
fn enrolments_tell(enrolments: &[u8], evidence: Records, marks: &mut [bool]) -> Result<(), Refusal>
    requires { evidence.linked.keys.n ≤ length marks.old }
    ensures value { answer_of result ≡ first_told (lacks_told enrolments.now evidence.entry.file.now) (data_of EB13 enrolments.now) }
    ensures marks_after { marks.new ≡ marked_to enrolments.now evidence.entry.file.now (good_to enrolments.now evidence.entry.file.now) marks.old }
{
    for i in 0..listed::data_count(Kind::EB13, enrolments) {
        enrolment_tells(enrolments, i, evidence, marks)?;
    }
    Ok(())
}

// The first evidence record that is not marked.
fn marks_tell(marks: &[bool]) -> Result<(), Refusal>
    ensures { answer_of result ≡ first_told (unmarked_told marks.now) (length marks.now) }
{
    if let Some(j) = marks.iter().position(|marked| !*marked) {
        return Err(Refusal::Foreign((j + 1) as u64));
    }
    Ok(())
}

// 20, then 21; the places hold the first byte of each of m evidence records.
pub(crate) fn records_tell<'a>(
    enrolments: &[u8],
    evidence: &'a [u8],
    starts: &'a [u32],
    m: usize,
) -> Result<(), Refusal>
    requires m_le_limit { m ≤ limit }
    requires m_value { m ≡ records_in evidence.now }
    requires evidence_value { (keys_told evidence.now).number ≡ 0 }
    requires by_index { (i : ℕ) → i < m → get_or starts.now i 0 ≡ byte_of evidence.now i }
    requires by_index_2 { (i : ℕ) → i < m → byte_of evidence.now i + 1024 ≤ length evidence.now }
    ensures { answer_of result ≡ (first_told (lacks_told enrolments.now evidence.now) (data_of EB13 enrolments.now) then first_told (foreign_told enrolments.now evidence.now) (records_in evidence.now)) }
{
    let keys = Keys {
        s: evidence,
        places: starts,
        spacing: KEY,
        n: m,
    };
    let mut links = [0u16; LINKS];
    keys.chain(&mut links);
    let mut marks = [false; LIMIT];
    let records = Records {
        file: evidence,
        linked: Linked {
            keys,
            links: &links,
        },
    };
    enrolments_tell(enrolments, records, &mut marks)?;
    marks_tell(&marks[..m])
}
