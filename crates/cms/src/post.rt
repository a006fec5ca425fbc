// The posting program's output.
ghost use Rattle.std.specs.Prelude.{◌≡◌, length};
ghost use Rattle.posting.specs.Posting.{post_size, post_after};

use posting::posting as output;

// Puts what the posting program prints for two files into the text. Returns how many bytes that is; 0 where the text is too
// short for it, and stays as it was.
#[unsafe(no_mangle)]
pub extern "C" fn cms_post(request: &[u8], res: &[u8], text: &mut [u8]) -> u64
    ensures value { result ≡ post_size request.now res.now (length text.old) }
    ensures text_after { text.new ≡ post_after request.now res.now text.old }
{
    output::post(request, res, text) as u64
}
