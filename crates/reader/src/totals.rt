// The trailer's totals against what the data records give.
ghost use Rattle.std.specs.Prelude.{◌≡◌, ◌+◌, ◌≤◌};
ghost use Rattle.kinds.specs.Kinds.{limit};
ghost use Rattle.records.specs.Records.{count_of};
ghost use Rattle.answers.specs.Refusing.{answer_of};
ghost use Rattle.reader.specs.Totals.{total_holds, total_told, totals_tell};

use answers::refusing::Refusal;
use kinds::of_files::Kind;
use numbers::base_ten;
use records::{listed, quantities};
use tables::totals;
use tables::totals::Total;
use text::parts;

fn total_holds(kind: Kind, file: &[u8], total: Total) -> bool
    requires bound { 2 ≤ count_of kind file.now }
    requires file_bound { count_of kind file.now ≤ limit + 2 }
    requires total_bound { total.1 + total.2 ≤ 120 }
    ensures { result ≡ total_holds kind file.now total }
{
    let trailer = listed::record_of(kind, file, listed::count(kind, file) - 1);
    let item = parts::part(trailer, total.1, total.2);
    let quantity = total.3;
    base_ten::says(item, quantities::quantity_of(kind, file, quantity))
}

fn total_tells(kind: Kind, file: &[u8], total: Total) -> Result<(), Refusal>
    requires bound { 2 ≤ count_of kind file.now }
    requires file_bound { count_of kind file.now ≤ limit + 2 }
    requires total_bound { total.1 + total.2 ≤ 120 }
    ensures { answer_of result ≡ total_told kind file.now total }
{
    if total_holds(kind, file, total) {
        return Ok(());
    }
    let trailer = listed::count(kind, file) - 1;
    Err(Refusal::Total(trailer as u64, total.0))
}

// The first total, by item, that is not what the records give.
pub(crate) fn totals_tell(kind: Kind, file: &[u8]) -> Result<(), Refusal>
    requires bound { 2 ≤ count_of kind file.now }
    requires file_bound { count_of kind file.now ≤ limit + 2 }
    ensures { answer_of result ≡ totals_tell kind file.now }
{
    for total in totals::totals_of(kind) {
        total_tells(kind, file, *total)?;
    }
    Ok(())
}
