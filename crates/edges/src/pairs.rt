// A case of pairing: pair NAME KIND TAKEN NOT-TAKEN |REQUEST |RESULT |RECORDS, where both are files as for reading, and
// the outcome of each of the records is asked.
use crate::cases::Case;
use crate::lists::{List, PLACES, UNTOUCHED};
use crate::told::{Became, Told};
use crate::{ROOM, good, values};
use answers::told::Answer;
use outcomes::asking;
use pair::pairing;
use std::io;
use std::io::Print;
use words::fields;

#[derive(Clone, Copy)]
struct Pair<'a> {
    kind: u64,
    request: &'a [u8],
    res: &'a [u8],
}

// Tells the answer and what became of the lists, which are as long as the line says.
fn tell_answer(rt: &impl Print, case: Case<'_>, pair: Pair<'_>) -> io::Result<()> {
    let mut taken = [UNTOUCHED; PLACES];
    let mut not_taken = [UNTOUCHED; PLACES];
    let taken = &mut taken[..case.count(3).min(PLACES)];
    let not_taken = &mut not_taken[..case.count(4).min(PLACES)];
    let told = pairing::pair(pair.kind, pair.request, pair.res, taken, not_taken);
    let answer = Told(Answer::of_two(told));
    let name = case.name(rt)?;
    let taken = List(taken);
    let not_taken = List(not_taken);
    println!(rt; "{name} {answer} taken{taken} not{not_taken}")
}

// Tells what became of one request.
fn tell_outcome(rt: &impl Print, case: Case<'_>, pair: Pair<'_>, rec: u64) -> io::Result<()> {
    let told = asking::outcome(pair.kind, pair.request, pair.res, rec);
    let name = case.name(rt)?;
    let answer = Told(told.answer);
    let outcome = Became(told.outcome);
    println!(rt; "{name} of {rec} {answer} {outcome}")
}

// Every case has files and lists of its own, so that none sees another's.
pub(crate) fn run(rt: &impl Print, case: Case<'_>) -> io::Result<()> {
    let mut request = [0u8; ROOM];
    let mut res = [0u8; ROOM];
    let pair = Pair {
        kind: case.kind(),
        request: good::build(case.samples, case.part(1), &mut request),
        res: good::build(case.samples, case.part(2), &mut res),
    };
    tell_answer(rt, case, pair)?;
    // No word is left out: an empty one asks for record 0. Nothing follows a blank at the end.
    for word in case.part(3).split_inclusive(|b| *b == b' ') {
        let rec = values::number(fields::head(b' ', word));
        tell_outcome(rt, case, pair, rec)?;
    }
    Ok(())
}
