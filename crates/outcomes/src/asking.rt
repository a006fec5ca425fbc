// One request's outcome, with no lists lent.
ghost use Rattle.std.specs.Prelude.{◌≡◌, ◌+◌, ◌≤◌, ◌<◌, length};
ghost use Rattle.records.specs.Records.{data_of};
ghost use Rattle.kinds.specs.Pairs.{request_kind, mark_start};
ghost use Rattle.matching.specs.Matching.{result_for};
ghost use Rattle.outcomes.specs.Outcomes.{told_of, failed_by, outcome_at, asks_for, outcome_as, outcome_told};

use crate::cases::{Outcome, Told};
use answers::of_two::OfTwo;
use answers::refusing::Refusal;
use kinds::of_files::Fixed;
use kinds::of_pairs;
use kinds::of_pairs::PairKind;
use matching::{amounts, lookup};
use numbers::base_ten;
use pair::pairing;
use records::listed;
use tables::makers;
use text::parts;

// Where a result's mark stands in its record; its code follows.
fn mark_start(pair: PairKind) -> usize
    ensures { result ≡ mark_start pair }
{
    Fixed::of(of_pairs::result_kind(pair)).mark
}

// "P" is a part, else the whole was refused.
#[tactic(auto, unfolding(crate::specs::Outcomes::failed_by, agreement::specs::Marks::mark_in, agreement::specs::Marks::code_in))]
fn failed_by(pair: PairKind, rec: &[u8], taken: u64, not_taken: u64) -> Outcome
    requires { 120 ≤ length rec.now }
    ensures { result ≡ failed_by pair rec.now taken not_taken }
{
    let mark = mark_start(pair);
    let code = base_ten::word(parts::part(rec, mark + 1, 4));
    let maker = makers::maker_of(code);
    if parts::byte(rec, mark) == b'P' {
        return Outcome::Part(taken, not_taken, code, maker);
    }
    Outcome::Refused(not_taken, code, maker)
}

// The outcome of request i + 1, whose result, if it has one, is j + 1.
#[tactic(auto, unfolding(crate::specs::Outcomes::outcome_at, matching::specs::Amounts::taken_at, matching::specs::Amounts::not_taken_at))]
pub fn outcome_at(pair: PairKind, request: &[u8], res: &[u8], i: usize, j: usize) -> Outcome
    requires i_bound { i < data_of (request_kind pair) request.now }
    requires j_value { j ≡ result_for pair request.now res.now i }
    ensures { result ≡ outcome_at pair request.now res.now i }
{
    let kind = of_pairs::result_kind(pair);
    let asked = amounts::asked_at(pair, request, i);
    if j < listed::data_count(kind, res) {
        let left = amounts::not_taken_by(pair, res, j);
        return failed_by(
            pair,
            listed::record_of(kind, res, j + 1),
            amounts::rest(asked, left),
            left,
        );
    }
    Outcome::Whole(asked)
}

// The record is one of the requests 1 to n.
#[tactic(auto, unfolding(crate::specs::Outcomes::asks_for))]
fn asks_for(n: u64, rec: u64) -> bool
    ensures { result ≡ asks_for n rec }
{
    (1..=n).contains(&rec)
}

fn outcome_as(pair: PairKind, request: &[u8], res: &[u8], rec: u64) -> Result<Outcome, OfTwo>
    ensures { told_of result ≡ outcome_as pair request.now res.now rec }
{
    pairing::pair_by(pair, request, res, true)?;
    let n = listed::data_count(of_pairs::request_kind(pair), request);
    if !asks_for(n as u64, rec) {
        return Err(OfTwo::Both(Refusal::NoRecord));
    }
    let i = (rec - 1) as usize;
    let results = lookup::results_for(pair, request, res);
    Ok(outcome_at(pair, request, res, i, results[i] as usize))
}

// What became of one request, by its record number.
#[tactic(auto, unfolding(crate::specs::Outcomes::outcome_told))]
pub fn outcome(kind: u64, request: &[u8], res: &[u8], rec: u64) -> Told
    ensures { result ≡ outcome_told kind request.now res.now rec }
{
    let Some(known) = of_pairs::pair_of(kind) else {
        return Told::of(Err(OfTwo::Both(Refusal::UnknownKind)));
    };
    Told::of(outcome_as(known, request, res, rec))
}
