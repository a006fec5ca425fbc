// What is told of each result record.
ghost use Rattle.std.specs.Prelude.{◌≡◌, ◌+◌, ◌≤◌, ◌<◌};
ghost use Rattle.kinds.specs.Kinds.{limit};
ghost use Rattle.records.specs.Records.{count_of};
ghost use Rattle.kinds.specs.Pairs.{result_kind};
ghost use Rattle.matching.specs.Matching.{request_for, requests_for};
ghost use Rattle.answers.specs.Refusing.{answer_of};
ghost use Rattle.pair.specs.Results.{result_tells, results_tell};

use agreement::meeting;
use answers::refusing::Refusal;
use kinds::of_files::Fixed;
use kinds::of_pairs;
use kinds::of_pairs::PairKind;
use records::listed;

// Result j + 1, whose request is i + 1.
fn result_tells(
    pair: PairKind,
    request: &[u8],
    res: &[u8],
    j: usize,
    i: usize,
) -> Result<(), Refusal>
    requires j_bound { j + 2 < count_of (result_kind pair) res.now }
    requires i_value { i ≡ request_for pair request.now res.now j }
    ensures { answer_of result ≡ result_tells pair request.now res.now j }
{
    let rec = (j + 1) as u64;
    let asked = of_pairs::request_kind(pair);
    let answered = of_pairs::result_kind(pair);
    if listed::data_count(asked, request) <= i {
        return Err(Refusal::Unanswered(rec, Fixed::of(answered).key.item));
    }
    meeting::meets_tell(
        pair,
        rec,
        listed::record_of(asked, request, i + 1),
        listed::record_of(answered, res, j + 1),
    )
}

// The first result record that cannot stand.
pub(crate) fn results_tell(
    pair: PairKind,
    request: &[u8],
    res: &[u8],
    requests: &[u16],
) -> Result<(), Refusal>
    requires res_bound { count_of (result_kind pair) res.now ≤ limit + 2 }
    requires requests_value { requests.now ≡ requests_for pair request.now res.now }
    ensures { answer_of result ≡ results_tell pair request.now res.now }
{
    for j in 0..listed::data_count(of_pairs::result_kind(pair), res) {
        result_tells(pair, request, res, j, requests[j] as usize)?;
    }
    Ok(())
}
