// A debit pair posted on the members' board.
ghost use Rattle.std.specs.Prelude.{◌≡◌};
ghost use Rattle.dues.specs.Posting.{board_told, board_after, dates_after};
ghost use Rattle.telling.specs.Numbers.{five};

use answers::told::Answer;
use payers::members::Member;
use telling::answer::tell;

// Posts a debit pair on the board. Returns the refusal's number, 0 when accepted; a refusal leaves members and dates as they were.
#[unsafe(no_mangle)]
pub extern "C" fn cms_board_post(
    pair: u32,
    request: &[u8],
    res: &[u8],
    board: &mut [Member],
    dates: &mut [u8; 12],
    answer: &mut [u64; 5],
) -> u64
    ensures { (result ≡ (board_told pair request.now res.now board.old dates.old).number) × ((board.new ≡ board_after pair request.now res.now board.old dates.old) × ((dates.new ≡ dates_after pair request.now res.now board.old dates.old) × (answer.new ≡ five (board_told pair request.now res.now board.old dates.old)))) }
{
    let posted = board::posting::post(pair as u64, request, res, board, *dates);
    if let Ok(days) = posted {
        *dates = days;
    }
    tell(Answer::of_two(posted), answer)
}
