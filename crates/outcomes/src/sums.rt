// What all requests asked, what was taken and what was not.
ghost use Rattle.std.specs.Prelude.{◌≡◌, ◌+◌, ◌≤◌};
ghost use Rattle.kinds.specs.Kinds.{limit};
ghost use Rattle.records.specs.Records.{count_of};
ghost use Rattle.kinds.specs.Pairs.{request_kind};
ghost use Rattle.matching.specs.Matching.{results_for};
ghost use Rattle.outcomes.specs.Sums.{sums_of};

use kinds::of_pairs;
use kinds::of_pairs::PairKind;
use matching::amounts;
use records::listed;

#[derive(Clone, Copy)]
pub struct Sums {
    pub asked: u64,
    pub taken: u64,
    pub not_taken: u64,
}

// True sums over all requests, whose results were found; they fit since there are few.
pub fn sums_of(pair: PairKind, request: &[u8], res: &[u8], results: &[u16]) -> Sums
    requires request_bound { count_of (request_kind pair) request.now ≤ limit + 2 }
    requires results_value { results.now ≡ results_for pair request.now res.now }
    ensures { result ≡ sums_of pair request.now res.now }
{
    let mut sums = Sums {
        asked: 0,
        taken: 0,
        not_taken: 0,
    };
    for i in 0..listed::data_count(of_pairs::request_kind(pair), request) {
        let asked = amounts::asked_at(pair, request, i);
        let left = amounts::not_taken_by(pair, res, results[i] as usize);
        sums.asked += asked;
        sums.taken += amounts::rest(asked, left);
        sums.not_taken += left;
    }
    sums
}
