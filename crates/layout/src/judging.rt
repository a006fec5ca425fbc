// One record against its rows.
ghost use Rattle.std.specs.Prelude.{◌≡◌, ℕ, ◌+◌, ◌≤◌, length, get_or};
ghost use Rattle.kinds.specs.Kinds.{fixed_of};
ghost use Rattle.tables.specs.Rows.{blank};
ghost use Rattle.answers.specs.Refusing.{told_by, answer_of};
ghost use Rattle.layout.specs.Judging.{broken_at, judge_by, judge_of};

use crate::rules;
use answers::refusing::Refusal;
use answers::told::Answer;
use kinds::of_files::{Kind, Own, Role};
use rows::by_record;
use tables::row::Row;

// A row with no code is one in which the item disagrees with the kind or the header.
fn broken_at(number: u64, row: Row) -> Refusal
    ensures { told_by result ≡ broken_at number row }
{
    let item = row.0 as u64;
    let code = row.4 as u64;
    if code == Answer::UNUSED {
        return Refusal::Disagrees(number, item);
    }
    Refusal::Broken(number, item, code)
}

// The first of these rows that the record breaks, as refusal 4 or 5. `number` is the record's number in its file.
pub fn judge_rows(
    rows: &[Row],
    own: Own,
    rec: &[u8],
    header: &[u8],
    number: u64,
) -> Result<(), Refusal>
    requires by_index { (i : ℕ) → (get_or rows.now i blank).1 + (get_or rows.now i blank).2 ≤ length rec.now }
    requires by_index_2 { (i : ℕ) → (get_or rows.now i blank).1 + (get_or rows.now i blank).2 ≤ length header.now }
    requires in_bounds { 55 ≤ length rec.now }
    requires in_bounds_2 { 55 ≤ length header.now }
    ensures { answer_of result ≡ judge_by own rows.now rec.now header.now number }
{
    for row in rows {
        if !rules::holds(own, *row, rec, header, number) {
            return Err(broken_at(number, *row));
        }
    }
    Ok(())
}

// The same by the rows of the record's kind.
pub fn judge(kind: Kind, role: Role, rec: &[u8], header: &[u8], number: u64) -> Result<(), Refusal>
    requires rec_len { length rec.now ≡ (fixed_of kind).size }
    requires header_len { length header.now ≡ (fixed_of kind).size }
    ensures { answer_of result ≡ judge_of kind role rec.now header.now number }
{
    judge_rows(
        by_record::rows_of(kind, role),
        kind.own,
        rec,
        header,
        number,
    )
}
