// The records of an EB12, each as its own 120 bytes: those of the EB11, with other bytes stored at some places.
#![tactic(auto, unfolding(crate::specs::Building::name, crate::specs::Building::header_for, crate::specs::Building::result_for, crate::specs::Building::refused_for, crate::specs::Building::trailer_for, numbers::specs::Numbers::letter_of))]

ghost use Rattle.std.specs.Prelude.{◌≡◌, length};
ghost use Rattle.changes_writer.specs.Building.{header_for, result_for, refused_for, totals_to, trailer_for};
ghost use Rattle.kinds.specs.Kinds.{EB11};
ghost use Rattle.tables.specs.Totals.{totals_of};

use crate::counting::Reply;
use kinds::of_files::{Fixed, Kind};
use numbers::base_ten;
use records::listed;
use tables::totals;
use text::parts;

// Bytes of a record.
pub(crate) const SIZE: usize = Fixed::ENROLMENT_SIZE;

// The four letters of the file that is written.
const NAME: [u8; 4] = *b"EB12";

// A record as its own bytes.
fn own(rec: &[u8]) -> [u8; SIZE]
    requires { length rec.now ≡ 120 }
    ensures { result ≡ rec.now }
{
    let mut copy = [0u8; SIZE];
    copy.copy_from_slice(rec);
    copy
}

// Item 12 of a refused record: "N" and the code.
fn result(code: u64) -> [u8; 5]
    ensures { result ≡ result_for code }
{
    let [_, _, _, _, a, b, c, d] = code.to_be_bytes();
    [b'N', a, b, c, d]
}

// A refused record: as it was, but for its serial and its result.
pub(crate) fn refused(rec: &[u8], serial: u64, code: u64) -> [u8; SIZE]
    requires { length rec.now ≡ 120 }
    ensures { result ≡ refused_for rec.now serial code }
{
    let mut copy = own(rec);
    base_ten::put_digits(&mut copy, 1, 8, serial);
    parts::put(&mut copy, 91, &result(code));
    copy
}

impl Reply<'_> {
    // The header: that of the EB11 under the other name.
    pub fn header(self) -> [u8; SIZE]
        ensures { result ≡ header_for self.entry.file.now }
    {
        let mut rec = own(listed::record_of(Kind::EB11, self.file, 0));
        parts::put(&mut rec, 19, &NAME);
        rec
    }

    // Each total of the trailer, of the refused records.
    fn put_totals(self, rec: &mut [u8])
        requires { length rec.old ≡ 120 }
        ensures { rec.new ≡ totals_to self.entry.file.now self.entry.answers.now rec.old (length (totals_of EB11)) }
    {
        for total in totals::totals_of(Kind::EB11) {
            let quantity = total.3;
            base_ten::put_digits(rec, total.1, total.2, self.refused_of(quantity));
        }
    }

    // The trailer: that of the EB11 under the other name, with the totals of the refused records and no MAC.
    pub fn trailer(self) -> [u8; SIZE]
        ensures { result ≡ trailer_for self.entry.file.now self.entry.answers.now }
    {
        let last = listed::count(Kind::EB11, self.file) - 1;
        let mut rec = own(listed::record_of(Kind::EB11, self.file, last));
        parts::put(&mut rec, 19, &NAME);
        parts::put(&mut rec, 110, &[b' '; 10]);
        self.put_totals(&mut rec);
        rec
    }
}
