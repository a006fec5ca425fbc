// An EB12 written into lent room: decided before the first byte is stored.
ghost use Rattle.std.specs.Prelude.{◌≡◌, ◌+◌, ◌*◌, ◌≤◌, ◌<◌, length};
ghost use Rattle.laws.specs.Joined.{joined};
ghost use Rattle.laws.specs.Stored.{stored};
ghost use Rattle.answers.specs.Storing.{stored_by, at_front};
ghost use Rattle.changes_writer.specs.Building.{refused_to, record_for, file_for};
ghost use Rattle.changes_writer.specs.Writing.{write_of, room_after};

use crate::building;
use crate::building::SIZE;
use crate::counting::Reply;
use answers::refusing::Refusal;
use changes::deciding;
use kinds::of_files::Kind;
use records::listed;
use text::parts;

impl Reply<'_> {
    // Record i + 1, where it is refused, behind the k that are stored; how many are then.
    fn put_record(self, i: usize, k: usize, room: &mut [u8]) -> usize
        requires i_in_bounds { i < length self.answers.now }
        requires k_value { k ≡ refused_to self.answers.now i }
        requires k_le_i { k ≤ i }
        requires k_in_bounds { k * 120 + 240 ≤ length room.old }
        ensures value { result ≡ refused_to self.entry.answers.now (i + 1) }
        ensures upper_bound { result ≤ i + 1 }
        ensures room_after { room.new ≡ stored (k * 120 + 120) (record_for self.entry.file.now self.entry.answers.now i) room.old }
    {
        let code = self.answers[i];
        if code == 0 {
            return k;
        }
        let from = listed::record_of(Kind::EB11, self.file, i + 1);
        let rec = building::refused(from, (k + 1) as u64, code);
        parts::put(room, k * SIZE + SIZE, &rec);
        k + 1
    }

    // The refused records, one behind the other, behind the header; how many there are.
    fn put_records(self, room: &mut [u8]) -> usize
        requires { refused_to self.answers.now (length self.answers.now) * 120 + 240 ≤ length room.old }
        ensures value { result ≡ refused_to self.entry.answers.now (length self.entry.answers.now) }
        ensures room_after { room.new ≡ stored 120 (joined (record_for self.entry.file.now self.entry.answers.now) (length self.entry.answers.now)) room.old }
    {
        let mut k = 0;
        for i in 0..self.answers.len() {
            k = self.put_record(i, k, room);
        }
        k
    }

    // Header, refused records, trailer.
    fn put(self, room: &mut [u8])
        requires { refused_to self.answers.now (length self.answers.now) * 120 + 240 ≤ length room.old }
        ensures { room.new ≡ at_front (file_for self.entry.file.now self.entry.answers.now) room.old }
    {
        parts::put(room, 0, &self.header());
        let m = self.put_records(room);
        parts::put(room, m * SIZE + SIZE, &self.trailer());
    }
}

// Answers any bytes as an EB11: its refused records are written as an EB12 at the front of the room; or it is said why not, and
// the room is left as it was. An answer is 0 for yes, or one of the institution's codes.
pub fn write(file: &[u8], answers: &[u64], room: &mut [u8]) -> Result<usize, Refusal>
    ensures value { stored_by result ≡ write_of file.now answers.now (length room.old) }
    ensures room_after { room.new ≡ room_after file.now answers.now room.old }
{
    deciding::decide(file, answers)?;
    let reply = Reply { file, answers };
    let size = (reply.refused_count() + 2) * SIZE;
    if room.len() < size {
        return Err(Refusal::ShortRoom);
    }
    reply.put(room);
    Ok(size)
}
