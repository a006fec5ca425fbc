// What was taken of each request, into a lent list, once the pair is accepted.
ghost use Rattle.std.specs.Prelude.{◌≡◌, ◌++◌, ◌+◌, ◌≤◌, length, drop};
ghost use Rattle.laws.specs.Tabulate.{tabulate};
ghost use Rattle.kinds.specs.Kinds.{limit};
ghost use Rattle.kinds.specs.Pairs.{request_kind, result_kind};
ghost use Rattle.records.specs.Records.{count_of, data_of};
ghost use Rattle.matching.specs.Amounts.{taken_at};

use kinds::of_pairs::PairKind;
use matching::{amounts, lookup};

// One place for each of n requests, in file order; places past them stay.
// Kept: beside `fill` of `pair`, which fills a second list: here it would be room for nothing.
#[inline(never)]
pub(crate) fn fill(pair: PairKind, request: &[u8], res: &[u8], n: usize, taken: &mut [u64])
    requires bound { 2 ≤ count_of (request_kind pair) request.now }
    requires request_bound { count_of (request_kind pair) request.now ≤ limit + 2 }
    requires bound_2 { 2 ≤ count_of (result_kind pair) res.now }
    requires res_bound { count_of (result_kind pair) res.now ≤ limit + 2 }
    requires n_value { n ≡ data_of (request_kind pair) request.now }
    requires n_in_bounds { n ≤ length taken.old }
    ensures { taken.new ≡ tabulate (taken_at pair request.now res.now) n ++ drop n taken.old }
{
    let results = lookup::results_for(pair, request, res);
    for i in 0..n {
        let left = amounts::not_taken_by(pair, res, results[i] as usize);
        taken[i] = amounts::rest(amounts::asked_at(pair, request, i), left);
    }
}
