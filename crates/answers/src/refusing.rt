// Why something is refused, with the place to telephone about. An answer is a `Result`: what was wanted, or a refusal.

// A record is its number, an item its number, a code its four bytes as one number.
#[derive(Clone, Copy, PartialEq, Eq, Debug)]
pub enum Refusal {
    // 1: the kind of file or of pair is unknown
    UnknownKind,
    // 2: no whole number of records, or too few
    Length,
    // 3: too many records
    TooMany,
    // 4: an item breaks its rule: record, item, code
    Broken(u64, u64, u64),
    // 5: an item disagrees with the kind or the header: record, item
    Disagrees(u64, u64),
    // 6: a count or a sum is not what the records give: record, item
    Total(u64, u64),
    // 7: the key of an earlier record: record, key item
    Repeated(u64, u64),
    // 8: lent room is too short
    ShortRoom,
    // 9: the file has ended before
    Ended,
    // 12: the headers of two files differ: item
    Headers(u64),
    // 13: a result has no request, or a copied item differs: result record, item
    Unanswered(u64, u64),
    // 14: an impossible amount: result record, item
    Amount(u64, u64),
    // 15: there is no record of that number
    NoRecord,
    // 20: an enrolment lacks its evidence: record
    Lacking(u64),
    // 21: evidence belongs to no enrolment: record
    Foreign(u64),
    // 22: signed evidence has no frame: record
    Unsigned(u64),
    // 40: the day was posted before
    PostedBefore,
    // 41: the payer of a request is no member: record
    NoMember(u64),
    // 42: more was taken of a payer than it owes: record
    Over(u64),
    // 43: a member has an earlier one's payer: member
    SamePayer(u64),
    // 50: a change has no other half: record
    Lonely(u64),
    // 51: the answers are not one for each record
    Answers,
    // 52: the halves of a change have other answers: record
    Split(u64),
}
