// The failure codes: four bytes as one number.
ghost use Rattle.std.specs.Prelude.{◌≡◌, cond};
ghost use Rattle.tables.specs.Among.{place_among};
ghost use Rattle.tables.specs.Codes.{table_codes, is_table_code};

// The table codes: the 25 set by banks, then the 23 set by the centre.
const CODES: [u64; 48] = [
    0x3030_3132,
    0x3030_3134,
    0x3030_3135,
    0x3030_3137,
    0x3030_3138,
    0x3030_3139,
    0x3030_3230,
    0x3030_3231,
    0x3030_3232,
    0x3030_3234,
    0x3030_3331,
    0x3030_3332,
    0x3030_3333,
    0x3030_3334,
    0x3030_3335,
    0x3030_3336,
    0x3030_3337,
    0x3030_3338,
    0x3030_3431,
    0x3030_3531,
    0x3030_3635,
    0x3030_3636,
    0x4130_3131,
    0x4130_3136,
    0x4130_3138,
    0x4130_3132,
    0x3030_3131,
    0x3030_3631,
    0x3030_3632,
    0x3030_3638,
    0x3030_3735,
    0x3030_3737,
    0x3030_3738,
    0x3030_3739,
    0x3030_3831,
    0x3030_3837,
    0x3030_3838,
    0x3030_3839,
    0x3030_3930,
    0x3030_3931,
    0x3030_3936,
    0x3030_3938,
    0x3031_3031,
    0x3031_3032,
    0x3031_3033,
    0x3031_3035,
    0x3939_3938,
    0x3939_3939,
];

// Where the code stands in the table, where it is one of it.
pub(crate) fn place(code: u64) -> Option<usize>
    ensures { result ≡ cond (is_table_code code) (Some (place_among table_codes code)) None }
{
    CODES.iter().position(|c| *c == code)
}

// The code is one of the table.
pub fn table_code(code: u64) -> bool
    ensures { result ≡ is_table_code code }
{
    CODES.contains(&code)
}
