// The lines of the posting program, each put behind a text.
ghost use Rattle.std.specs.Prelude.{◌≡◌, ◌+◌, ◌≤◌, ◌++◌, length};
ghost use Rattle.posting.specs.Lines.{word_for, maker_end, refusal_line, accepted_line, request_line, line_most};
ghost use Rattle.posting.specs.Posting.{longest};

use crate::puts::Text;
use answers::told::Answer;
use outcomes::cases;
use outcomes::cases::Outcome;
use outcomes::sums::Sums;
use tables::makers::Maker;

// No request's line is longer.
pub(crate) const LINE: usize = 84;

// refused SIDE NUMBER RECORD ITEM CODE
pub(crate) fn put_refusal(text: &mut Text, answer: Answer)
    requires { length text.old + 100 ≤ longest }
    ensures { text.new ≡ text.old ++ refusal_line answer }
{
    text.put(b"refused ");
    text.put_number(answer.side, b' ');
    text.put_number(answer.number, b' ');
    text.put_number(answer.rec, b' ');
    text.put_number(answer.item, b' ');
    text.put_code(answer.code, b'\n');
}

// accepted REQUESTS ASKED TAKEN NOT-TAKEN
pub(crate) fn put_accepted(text: &mut Text, n: u64, sums: Sums)
    requires { length text.old + 100 ≤ longest }
    ensures text { text.new ≡ text.old ++ accepted_line n sums }
    ensures upper_bound { length text.new ≤ length text.old + 100 }
{
    text.put(b"accepted ");
    text.put_number(n, b' ');
    text.put_number(sums.asked, b' ');
    text.put_number(sums.taken, b' ');
    text.put_number(sums.not_taken, b'\n');
}

// The word of an outcome; no request has none.
fn word(outcome: Outcome) -> &'static [u8]
    ensures value { result.now ≡ word_for outcome }
    ensures upper_bound { length result.now ≤ 8 }
{
    match outcome {
        Outcome::None => b"",
        Outcome::Whole(_) => b"whole ",
        Outcome::Part(_, _, _, _) => b"part ",
        Outcome::Refused(_, _, _) => b"refused ",
    }
}

// The last word of a request's line.
fn last_word(maker: Maker) -> &'static [u8]
    ensures value { result.now ≡ maker_end maker }
    ensures upper_bound { length result.now ≤ 7 }
{
    match maker {
        Maker::None => b"----\n",
        Maker::Bank => b"bank\n",
        Maker::Centre => b"centre\n",
    }
}

// NUMBER OUTCOME TAKEN NOT-TAKEN CODE MAKER
pub(crate) fn put_request(text: &mut Text, number: u64, outcome: Outcome)
    requires { length text.old + line_most ≤ longest }
    ensures text { text.new ≡ text.old ++ request_line number outcome }
    ensures upper_bound { length text.new ≤ length text.old + line_most }
{
    let [_, taken, not_taken, code, _] = cases::numbers(outcome);
    text.put_number(number, b' ');
    text.put(word(outcome));
    text.put_number(taken, b' ');
    text.put_number(not_taken, b' ');
    text.put_code(code, b' ');
    text.put(last_word(cases::maker_in(outcome)));
}
