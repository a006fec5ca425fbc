// Each record of a file against its rows.
ghost use Rattle.std.specs.Prelude.{◌≡◌, ◌<◌};
ghost use Rattle.records.specs.Records.{count_of};
ghost use Rattle.answers.specs.Refusing.{answer_of};
ghost use Rattle.reader.specs.Judged.{role_of, judged_at, records_tell};

use answers::refusing::Refusal;
use kinds::of_files::{Kind, Role};
use layout::judging;
use records::listed;

// The first record is the header, the last the trailer, all between are data.
fn role_of(count: usize, i: usize) -> Role
    requires { i < count }
    ensures { result ≡ role_of count i }
{
    if i == 0 {
        return Role::Header;
    }
    if i + 1 == count {
        return Role::Trailer;
    }
    Role::Data
}

fn judged_at(kind: Kind, file: &[u8], i: usize) -> Result<(), Refusal>
    requires { i < count_of kind file.now }
    ensures { answer_of result ≡ judged_at kind file.now i }
{
    let role = role_of(listed::count(kind, file), i);
    judging::judge(
        kind,
        role,
        listed::record_of(kind, file, i),
        listed::record_of(kind, file, 0),
        i as u64,
    )
}

// The first record, in file order, that breaks a row.
pub(crate) fn records_tell(kind: Kind, file: &[u8]) -> Result<(), Refusal>
    ensures { answer_of result ≡ records_tell kind file.now }
{
    for i in 0..listed::count(kind, file) {
        judged_at(kind, file, i)?;
    }
    Ok(())
}
