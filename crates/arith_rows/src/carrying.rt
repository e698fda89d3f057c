//! The carries of a product with a rest, digit by digit.
ghost use Rattle.std.specs.Prelude.{◌≡◌, ◌≤◌, ◌*◌};
ghost use Rattle.step_rows.specs.Words.{digit};
ghost use Rattle.arith_rows.specs.Cells.{carries, carry};

use row_columns::digit;

/// What is carried out of each column of x * y + r.
#[derive(Clone, Copy, Debug, PartialEq, Eq)]
pub struct Carries {
    pub c0: u64,
    pub c1: u64,
    pub c2: u64,
    pub c3: u64,
    pub c4: u64,
    pub c5: u64,
    pub c6: u64,
}

// The product of two digits.
#[inline(always)]
fn times(x: u64, i: u32, y: u64, j: u32) -> u64
    ensures value { result ≡ digit x i * digit y j }
    ensures below { result ≤ 4294836225 }
{
    digit(x, i) * digit(y, j)
}

/// The carries of x * y + r.
#[inline(always)]
pub fn carries_of(x: u64, y: u64, r: u64) -> Carries
    ensures { result ≡ carries x y r }
{
    let c0 = (times(x, 0, y, 0) + digit(r, 0)) >> 16;
    let c1 = (times(x, 0, y, 1) + times(x, 1, y, 0) + digit(r, 1) + c0) >> 16;
    let c2 = (times(x, 0, y, 2) + times(x, 1, y, 1) + times(x, 2, y, 0) + digit(r, 2) + c1) >> 16;
    let c3 = (times(x, 0, y, 3)
        + times(x, 1, y, 2)
        + times(x, 2, y, 1)
        + times(x, 3, y, 0)
        + digit(r, 3)
        + c2)
        >> 16;
    let c4 = (times(x, 1, y, 3) + times(x, 2, y, 2) + times(x, 3, y, 1) + c3) >> 16;
    let c5 = (times(x, 2, y, 3) + times(x, 3, y, 2) + c4) >> 16;
    let c6 = (times(x, 3, y, 3) + c5) >> 16;
    Carries {
        c0,
        c1,
        c2,
        c3,
        c4,
        c5,
        c6,
    }
}

/// The carry of a column.
#[inline(always)]
pub fn carry_at(carries: &Carries, i: u32) -> u64
    ensures { result ≡ carry i carries.now }
{
    match i {
        0 => carries.c0,
        1 => carries.c1,
        2 => carries.c2,
        3 => carries.c3,
        4 => carries.c4,
        5 => carries.c5,
        _ => carries.c6,
    }
}
