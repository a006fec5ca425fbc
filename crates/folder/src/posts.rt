// What is posted of the folder's day.
ghost use Rattle.std.specs.Prelude.{◌≡◌, ◌≤◌, length, IfOk};
ghost use Rattle.posting.specs.Posting.{longest, post_text};

use crate::files;
use posting::posting::LONGEST;
use std::fs::Files;
use std::io;
use std::io::Print;

// One byte more than the longest file that is taken: of a longer one so many are lent, and it shows.
const ROOM: usize = 64_801;

// What is printed of the two files: the text, whole, since every text fits the output.
fn printed<'a>(request: &[u8], res: &[u8], output: &'a mut [u8]) -> &'a [u8]
    requires { longest ≤ length output.old }
    ensures { result.now ≡ post_text request.now res.now }
{
    let size = posting::posting::post(request, res, output);
    &output[..size]
}

// Reads `request` and `result` and prints what `printed` gives of them. No contract can say what a folder holds, or that
// something is printed; it answers only whether printing failed.
pub fn post(rt: &(impl Files + Print)) -> io::Result<()>
    ensures { IfOk result (λ x. x ≡ tt) }
{
    let mut request = [0u8; ROOM];
    let mut result = [0u8; ROOM];
    let mut output = [0u8; LONGEST];
    // None of a file that is missing or cannot be read.
    let request = files::read(rt, "request", &mut request).unwrap_or(&[]);
    let result = files::read(rt, "result", &mut result).unwrap_or(&[]);
    rt.write_all(printed(request, result, &mut output))
}
