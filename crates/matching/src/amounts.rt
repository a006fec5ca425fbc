// What a request asks, what its result says was not taken, and what was taken.
ghost use Rattle.std.specs.Prelude.{◌≡◌, ◌-◌, ◌<◌, ◌^◌};
ghost use Rattle.records.specs.Records.{data_of};
ghost use Rattle.kinds.specs.Pairs.{request_kind};
ghost use Rattle.agreement.specs.Amounts.{asks};
ghost use Rattle.matching.specs.Amounts.{asked_at, not_taken_by};

use kinds::of_pairs;
use kinds::of_pairs::{Family, PairKind};
use records::{listed, quantities};
use tables::totals::Quantity;

// What a request asks, and what its result says was not taken.
fn asks(pair: PairKind) -> Quantity
    ensures { result ≡ asks pair }
{
    match pair.family {
        Family::Enrolment => Quantity::Records,
        Family::Debit => Quantity::Amounts,
    }
}

// What request i + 1 asks.
#[tactic(auto, unfolding(crate::specs::Amounts::asked_at))]
pub fn asked_at(pair: PairKind, request: &[u8], i: usize) -> u64
    requires { i < data_of (request_kind pair) request.now }
    ensures value { result ≡ asked_at pair request.now i }
    ensures upper_bound { result < 10 ^ 13 }
{
    quantities::worth_at(of_pairs::request_kind(pair), request, asks(pair), i)
}

// What result j + 1 says was not taken; nothing where there is no such result.
#[tactic(auto, unfolding(crate::specs::Amounts::not_taken_by))]
pub fn not_taken_by(pair: PairKind, res: &[u8], j: usize) -> u64
    ensures value { result ≡ not_taken_by pair res.now j }
    ensures upper_bound { result < 10 ^ 13 }
{
    let kind = of_pairs::result_kind(pair);
    if j < listed::data_count(kind, res) {
        quantities::worth_at(kind, res, asks(pair), j)
    } else {
        0
    }
}

// What was taken: the rest.
pub fn rest(asked: u64, not_taken: u64) -> u64
    ensures { result ≡ asked - not_taken }
{
    asked.saturating_sub(not_taken)
}
