// What reading the file to be written says, told by its records as they are built, one by one.
ghost use Rattle.std.specs.Prelude.{◌≡◌, ◌+◌, ◌≤◌, ◌<◌, IfOk};
ghost use Rattle.laws.specs.Tabulate.{tabulate};
ghost use Rattle.kinds.specs.Kinds.{limit};
ghost use Rattle.tables.specs.Totals.{most_totals};
ghost use Rattle.answers.specs.Answers.{first_told, ◌then◌};
ghost use Rattle.answers.specs.Refusing.{answer_of};
ghost use Rattle.layout.specs.Judging.{judge_of};
ghost use Rattle.records.specs.Records.{record_of, count_of};
ghost use Rattle.reader.specs.Reading.{read_as};
ghost use Rattle.builder.specs.Records.{given, header_built, body_count, data_built, trailer_built};
ghost use Rattle.builder.specs.Files.{file_of};
ghost use Rattle.writer.specs.Writing.{header_told, data_told, trailer_told, sums_told, sum_to};

use crate::{keys_built, sums};
use answers::refusing::Refusal;
use builder::files;
use builder::heads::Head;
use kinds::of_files::{Fixed, Kind, Role};
use layout::judging;
use records::listed;
use tables::totals::MOST_TOTALS;

// Three records: the header, the data record that was built last, the trailer.
const FRAME: usize = 3 * Fixed::DEBIT_SIZE;

// A record of the frame in its role, against the header in front.
fn judge_at(kind: Kind, role: Role, frame: &[u8], at: usize, number: u64) -> Result<(), Refusal>
    requires { at < count_of kind frame.now }
    ensures { answer_of result ≡ judge_of kind role (record_of kind frame.now at) (record_of kind frame.now 0) number }
{
    judging::judge(
        kind,
        role,
        listed::record_of(kind, frame, at),
        listed::record_of(kind, frame, 0),
        number,
    )
}

// Builds the header in front, and judges it.
fn header_tells(kind: Kind, head: Head, frame: &mut [u8; FRAME]) -> Result<(), Refusal>
    ensures value { answer_of result ≡ header_told kind (header_built kind (given head.entry)) }
    ensures frame_after { record_of kind frame.new 0 ≡ header_built kind (given head.entry) }
{
    files::put_header(kind, head, frame);
    judge_at(kind, Role::Header, frame, 0, 0)
}

// Builds data record i + 1 behind the header, and judges it.
fn record_tells(kind: Kind, bodies: &[u8], i: usize, frame: &mut [u8; FRAME]) -> Result<(), Refusal>
    requires { i < limit }
    ensures value { answer_of result ≡ data_told kind (record_of kind frame.old 0) bodies.now i }
    ensures frame_unchanged { record_of kind frame.new 0 ≡ record_of kind frame.old 0 }
    ensures frame_after { record_of kind frame.new 1 ≡ data_built kind (record_of kind frame.old 0) bodies.now i }
{
    files::put_record(kind, bodies, i, Fixed::size_of(kind), frame);
    judge_at(kind, Role::Data, frame, 1, (i + 1) as u64)
}

// Builds and judges the data records, each in the place of the one before it; what they add up to where all are good.
fn data_tells(
    kind: Kind,
    bodies: &[u8],
    n: usize,
    frame: &mut [u8; FRAME],
) -> Result<[u64; MOST_TOTALS], Refusal>
    requires { n ≤ limit }
    ensures answer_value { answer_of result ≡ first_told (data_told kind (record_of kind frame.old 0) bodies.now) n }
    ensures sums_value { IfOk result (λ sums. sums ≡ tabulate (sum_to kind (record_of kind frame.old 0) bodies.now n) most_totals) }
    ensures frame_unchanged { record_of kind frame.new 0 ≡ record_of kind frame.old 0 }
{
    let mut sums = [0u64; MOST_TOTALS];
    for i in 0..n {
        record_tells(kind, bodies, i, frame)?;
        sums::add_record(kind, frame, &mut sums);
    }
    Ok(sums)
}

// Builds the trailer behind them, and judges it; then its totals.
fn trailer_tells(
    kind: Kind,
    sums: [u64; MOST_TOTALS],
    n: usize,
    frame: &mut [u8; FRAME],
) -> Result<(), Refusal>
    requires { n ≤ limit }
    ensures { answer_of result ≡ (trailer_told kind (record_of kind frame.old 0) sums n then sums_told kind (trailer_built kind (record_of kind frame.old 0) sums) sums (n + 1)) }
{
    files::put_trailer(kind, sums, 2 * Fixed::size_of(kind), frame);
    let number = (n + 1) as u64;
    judge_at(kind, Role::Trailer, frame, 2, number)?;
    sums::sums_tell(kind, listed::record_of(kind, frame, 2), sums, number)
}

// What reading the file to be written says.
pub(crate) fn judge(kind: Kind, head: Head, bodies: &[u8], n: usize) -> Result<(), Refusal>
    requires n_value { n ≡ body_count kind bodies.now }
    requires n_le_limit { n ≤ limit }
    ensures { answer_of result ≡ read_as kind (file_of kind (given head.entry) bodies.now) }
{
    let mut frame = [0u8; FRAME];
    header_tells(kind, head, &mut frame)?;
    let sums = data_tells(kind, bodies, n, &mut frame)?;
    trailer_tells(kind, sums, n, &mut frame)?;
    keys_built::keys_tell(kind, bodies, n)
}
