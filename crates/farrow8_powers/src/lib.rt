// Farrow8's table of constants, which is Lagrange's basis, and the sums of eight samples by each of its columns (K6).
#![tactic(auto)]

mod quotients;

ghost use Rattle.std.specs.Prelude.{◌≡◌, ◌<◌};
ghost use Rattle.farrow8_powers.specs.Table.{column_in};
ghost use Rattle.farrow8_powers.specs.Sums.{dot_of, powers_of};

use quotients::table;

// 000's `dot!`: eight products, added from the first on.
fn dot(x: [f64; 8], c: [f64; 8]) -> f64
    ensures { result ≡ dot_of x c }
{
    x[0] * c[0]
        + x[1] * c[1]
        + x[2] * c[2]
        + x[3] * c[3]
        + x[4] * c[4]
        + x[5] * c[5]
        + x[6] * c[6]
        + x[7] * c[7]
}

// A column of such a table: the quotients that belong to the n-th power.
fn column(c: [[f64; 8]; 8], n: usize) -> [f64; 8]
    requires { n < 8 }
    ensures { result ≡ column_in c n }
{
    [
        c[0][n], c[1][n], c[2][n], c[3][n], c[4][n], c[5][n], c[6][n], c[7][n],
    ]
}

// The sums of the powers; s0 is the sample itself. Fields that are neighbours in memory have quotients of the same
// signs, so that the compiler computes two sums at once.
#[derive(Clone, Copy)]
pub struct Powers {
    pub s2: f64,
    pub s6: f64,
    pub s4: f64,
    pub s7: f64,
    pub s1: f64,
    pub s3: f64,
    pub s5: f64,
    pub s0: f64,
}

// The constant is named once and its columns are taken at literal powers, so that the compiler keeps no copy of it.
pub fn sums(x: [f64; 8]) -> Powers
    ensures { result ≡ powers_of x }
{
    let c = table();
    Powers {
        s2: dot(x, column(c, 2)),
        s6: dot(x, column(c, 6)),
        s4: dot(x, column(c, 4)),
        s7: dot(x, column(c, 7)),
        s1: dot(x, column(c, 1)),
        s3: dot(x, column(c, 3)),
        s5: dot(x, column(c, 5)),
        s0: x[3],
    }
}
