// One member of the board.

// In C the same struct: 20 bytes, four of padding, and two numbers. State 0 is paused, 1 is running.
#[repr(C)]
#[derive(Clone, Copy)]
pub struct Member {
    pub payer: [u8; 20],
    pub owed: u64,
    pub state: u64,
}
