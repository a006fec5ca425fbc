// The two lent lists, filled once the pair is accepted.
ghost use Rattle.std.specs.Prelude.{◌≡◌, ◌++◌, ◌+◌, ◌≤◌, length, drop};
ghost use Rattle.laws.specs.Tabulate.{tabulate};
ghost use Rattle.kinds.specs.Kinds.{limit};
ghost use Rattle.records.specs.Records.{count_of, data_of};
ghost use Rattle.kinds.specs.Pairs.{request_kind, result_kind};
ghost use Rattle.matching.specs.Amounts.{taken_at, not_taken_at};

use kinds::of_pairs;
use kinds::of_pairs::PairKind;
use matching::{amounts, lookup};
use records::listed;

// One place for each request, in file order; places past them stay.
pub(crate) fn fill(
    pair: PairKind,
    request: &[u8],
    res: &[u8],
    taken: &mut [u64],
    not_taken: &mut [u64],
)
    requires bound { 2 ≤ count_of (request_kind pair) request.now }
    requires request_bound { count_of (request_kind pair) request.now ≤ limit + 2 }
    requires bound_2 { 2 ≤ count_of (result_kind pair) res.now }
    requires res_bound { count_of (result_kind pair) res.now ≤ limit + 2 }
    requires request_in_bounds { data_of (request_kind pair) request.now ≤ length taken.old }
    requires request_in_bounds_2 { data_of (request_kind pair) request.now ≤ length not_taken.old }
    ensures taken_after { taken.new ≡ tabulate (taken_at pair request.now res.now) (data_of (request_kind pair) request.now) ++ drop (data_of (request_kind pair) request.now) taken.old }
    ensures not_taken_after { not_taken.new ≡ tabulate (not_taken_at pair request.now res.now) (data_of (request_kind pair) request.now) ++ drop (data_of (request_kind pair) request.now) not_taken.old }
{
    let n = listed::data_count(of_pairs::request_kind(pair), request);
    let results = lookup::results_for(pair, request, res);
    for i in 0..n {
        let left = amounts::not_taken_by(pair, res, results[i] as usize);
        taken[i] = amounts::rest(amounts::asked_at(pair, request, i), left);
        not_taken[i] = left;
    }
}
