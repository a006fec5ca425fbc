// Who set a failure code.
ghost use Rattle.std.specs.Prelude.{◌≡◌};
ghost use Rattle.tables.specs.Makers.{maker_of};

use crate::codes;

// Banks set the codes that come first in the table.
const BANKS: usize = 25;

#[derive(Clone, Copy)]
pub enum Maker {
    // the code is blank
    None,
    Bank,
    Centre,
}

// Who set the code, by its place in the table.
pub fn maker_of(code: u64) -> Maker
    ensures { result ≡ maker_of code }
{
    match codes::place(code) {
        Some(place) if place < BANKS => Maker::Bank,
        Some(_) => Maker::Centre,
        None => Maker::None,
    }
}
