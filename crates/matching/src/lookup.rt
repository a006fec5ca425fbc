// Which request a result answers, and which result answers a request: by key, never by serial.
ghost use Rattle.std.specs.Prelude.{◌≡◌, [], ◌+◌, ◌≤◌, replicate};
ghost use Rattle.kinds.specs.Kinds.{limit};
ghost use Rattle.keys.specs.Keys.{places_in};
ghost use Rattle.keys.specs.Stands.{key_in};
ghost use Rattle.records.specs.Records.{count_of, data_of};
ghost use Rattle.reader.specs.Keys.{spacing_of};
ghost use Rattle.kinds.specs.Pairs.{request_kind, result_kind};
ghost use Rattle.matching.specs.Matching.{requests_for, results_for};

use keys::chains::LINKS;
use keys::linked::Linked;
use kinds::of_files::{Kind, LIMIT};
use kinds::of_pairs;
use kinds::of_pairs::PairKind;
use reader::repeats;

// For each data record of the other file, the place of its key among the data records of the file.
fn places_in(kind: Kind, file: &[u8], other_kind: Kind, other: &[u8], list: &mut [u16; LIMIT])
    requires bound { 2 ≤ count_of kind file.now }
    requires file_bound { count_of kind file.now ≤ limit + 2 }
    requires other_bound { 2 ≤ count_of other_kind other.now }
    requires list_value { list.old ≡ replicate limit 0 }
    ensures { list.new ≡ places_in (key_in [] (spacing_of kind) file.now) (data_of kind file.now) (key_in [] (spacing_of other_kind) other.now) (data_of other_kind other.now) limit }
{
    let keys = repeats::keys_of(kind, file);
    let mut links = [0u16; LINKS];
    keys.chain(&mut links);
    let linked = Linked {
        keys,
        links: &links,
    };
    linked.places(repeats::keys_of(other_kind, other), list);
}

// The request of each result. Its list is on no stack but while the keys are looked up.
#[inline(never)]
#[tactic(auto, unfolding(crate::specs::Matching::requests_for))]
pub fn requests_for(pair: PairKind, request: &[u8], res: &[u8]) -> [u16; LIMIT]
    requires bound { 2 ≤ count_of (request_kind pair) request.now }
    requires request_bound { count_of (request_kind pair) request.now ≤ limit + 2 }
    requires bound_2 { 2 ≤ count_of (result_kind pair) res.now }
    ensures { result ≡ requests_for pair request.now res.now }
{
    let mut list = [0u16; LIMIT];
    places_in(
        of_pairs::request_kind(pair),
        request,
        of_pairs::result_kind(pair),
        res,
        &mut list,
    );
    list
}

// The result of each request.
#[inline(never)]
#[tactic(auto, unfolding(crate::specs::Matching::results_for))]
pub fn results_for(pair: PairKind, request: &[u8], res: &[u8]) -> [u16; LIMIT]
    requires bound { 2 ≤ count_of (request_kind pair) request.now }
    requires bound_2 { 2 ≤ count_of (result_kind pair) res.now }
    requires res_bound { count_of (result_kind pair) res.now ≤ limit + 2 }
    ensures { result ≡ results_for pair request.now res.now }
{
    let mut list = [0u16; LIMIT];
    places_in(
        of_pairs::result_kind(pair),
        res,
        of_pairs::request_kind(pair),
        request,
        &mut list,
    );
    list
}
