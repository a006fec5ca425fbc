// The two headers, and a result record against its request.
ghost use Rattle.std.specs.Prelude.{◌≡◌, ◌≤◌, length};
ghost use Rattle.kinds.specs.Kinds.{fixed_of};
ghost use Rattle.records.specs.Records.{count_of};
ghost use Rattle.kinds.specs.Pairs.{request_kind, result_kind};
ghost use Rattle.answers.specs.Refusing.{answer_of};
ghost use Rattle.agreement.specs.Meeting.{headers_tell, meets_tell};

use crate::{amounts, items};
use answers::refusing::Refusal;
use kinds::of_pairs;
use kinds::of_pairs::PairKind;
use records::listed;
use tables::copied;

// The first item of the headers that differs, of those that must agree.
pub fn headers_tell(pair: PairKind, request: &[u8], res: &[u8]) -> Result<(), Refusal>
    requires bound { 2 ≤ count_of (request_kind pair) request.now }
    requires bound_2 { 2 ≤ count_of (result_kind pair) res.now }
    ensures { answer_of result ≡ headers_tell pair request.now res.now }
{
    let asked = listed::record_of(of_pairs::request_kind(pair), request, 0);
    let answered = listed::record_of(of_pairs::result_kind(pair), res, 0);
    match items::first_differing(items::header_items(pair), asked, answered) {
        Some(item) => Err(Refusal::Headers(item)),
        None => Ok(()),
    }
}

// A result record against its request: copied items, then amounts.
pub fn meets_tell(pair: PairKind, rec: u64, request: &[u8], res: &[u8]) -> Result<(), Refusal>
    requires request_len { length request.now ≡ (fixed_of (request_kind pair)).size }
    requires res_len { length res.now ≡ (fixed_of (request_kind pair)).size }
    ensures { answer_of result ≡ meets_tell pair rec request.now res.now }
{
    let copied = copied::copied_of(of_pairs::request_kind(pair));
    if let Some(item) = items::first_differing(copied, request, res) {
        return Err(Refusal::Unanswered(rec, item));
    }
    amounts::amounts_tell(pair, rec, request, res)
}
