// What the data records add up to, as they are built, and the trailer's totals against it.
ghost use Rattle.std.specs.Prelude.{◌≡◌, ℕ, ◌+◌, ◌*◌, ◌≤◌, ◌<◌, ◌^◌, length, get_or};
ghost use Rattle.laws.specs.Tabulate.{tabulate};
ghost use Rattle.kinds.specs.Kinds.{limit};
ghost use Rattle.tables.specs.Totals.{most_totals};
ghost use Rattle.answers.specs.Refusing.{answer_of};
ghost use Rattle.records.specs.Records.{record_of, count_of};
ghost use Rattle.writer.specs.Writing.{sum_with, total_told, sums_told};

use answers::refusing::Refusal;
use kinds::of_files::Kind;
use numbers::base_ten;
use records::quantities;
use tables::totals;
use tables::totals::{MOST_TOTALS, Total};
use text::parts;

// Adds record 1 of the frame to the sums, total by total.
pub(crate) fn add_record(kind: Kind, frame: &[u8], sums: &mut [u64; MOST_TOTALS])
    requires bound { 3 ≤ count_of kind frame.now }
    requires by_index { (t : ℕ) → t < most_totals → get_or sums.old t 0 ≤ limit * 10 ^ 13 }
    ensures { sums.new ≡ tabulate (sum_with kind (record_of kind frame.now 1) sums.old) most_totals }
{
    // Kept: after a zip with `iter_mut` a proof does not know what the sums are.
    for (t, total) in totals::totals_of(kind).iter().enumerate() {
        sums[t] += quantities::worth_at(kind, frame, total.3, 0);
    }
}

// Whether the trailer, record `number`, says a total as it is summed.
fn total_tells(trailer: &[u8], number: u64, total: Total, sum: u64) -> Result<(), Refusal>
    requires { total.1 + total.2 ≤ length trailer.now }
    ensures { answer_of result ≡ total_told trailer.now number total sum }
{
    if base_ten::says(parts::part(trailer, total.1, total.2), sum) {
        return Ok(());
    }
    Err(Refusal::Total(number, total.0))
}

// The first total, by item, that the trailer, record `number`, does not say as it is summed.
pub(crate) fn sums_tell(
    kind: Kind,
    trailer: &[u8],
    sums: [u64; MOST_TOTALS],
    number: u64,
) -> Result<(), Refusal>
    requires { 120 ≤ length trailer.now }
    ensures { answer_of result ≡ sums_told kind trailer.now sums number }
{
    for (total, sum) in totals::totals_of(kind).iter().zip(&sums) {
        total_tells(trailer, number, *total, *sum)?;
    }
    Ok(())
}
