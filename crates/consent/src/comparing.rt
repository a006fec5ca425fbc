// An enrolment request beside its evidence: both readings, then 12, 20, 21.
ghost use Rattle.std.specs.Prelude.{◌≡◌};
ghost use Rattle.answers.specs.OfTwo.{answer_of_two};
ghost use Rattle.consent.specs.Comparing.{compare_of};

use crate::{evidenced, headers};
use answers::of_two::OfTwo;
use evidence::reading::look;
use kinds::of_files::{Kind, LIMIT};
use reader::reading;

// Compares any bytes as an enrolment request and its evidence.
pub fn compare(exempt: bool, enrolments: &[u8], evidence: &[u8]) -> Result<(), OfTwo>
    ensures { answer_of_two result ≡ compare_of exempt enrolments.now evidence.now }
{
    reading::read_as(Kind::EB13, enrolments).map_err(OfTwo::First)?;
    let mut starts = [0u32; LIMIT];
    let m = look(exempt, evidence, &mut starts).map_err(|stopped| OfTwo::Second(stopped.refusal))?;
    headers::headers_tell(enrolments, evidence)?;
    evidenced::records_tell(enrolments, evidence, &starts, m)?;
    Ok(())
}
