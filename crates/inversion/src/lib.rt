// The inverse of a field matrix, by elimination with row operations, and the test for the zero matrix.
#![tactic(auto)]

ghost use Rattle.std.specs.Prelude.{◌≡◌, ◌<◌, T};
ghost use Rattle.forms.specs.Numbers.{prime};
ghost use Rattle.matrices.specs.Rows.{plus_row};
ghost use Rattle.inversion.specs.RowAddition.{RowAdded};
ghost use Rattle.inversion.specs.Inversion.{PlaceReady, PlacedIn, PivotReady, Pivoted, Cleared, Inverted};
ghost use Rattle.inversion.specs.Zeros.{zero_entries, is_zero};

use forms::ORDER;
use matrices::{Mat, Order, Row, identity, unit_row};
use residues::modulus::Modulus;
use residues::residue::{plus_multiple, reciprocal_of};

// M and S, with S A = M.
#[derive(Clone, Copy)]
struct Pair {
    m: Mat,
    s: Mat,
}

// Row x plus k times row y.
pub fn plus_row(x: Row, k: u8, y: Row, order: Order, m: Modulus) -> Row
    ensures { result ≡ plus_row m.p order.n x k y }
{
    let mut r = [0u8; ORDER];
    for j in 0..order.n {
        r[j] = plus_multiple(x[j], k, y[j], m);
    }
    r
}

// a with k times row `from` added to row i.
fn add_row(a: Mat, i: usize, k: u8, from: usize, order: Order, m: Modulus) -> Mat
    requires { (i < order.n) × (from < order.n) }
    ensures { RowAdded m.p order.n i k from a result }
{
    let mut r = a;
    r[i] = plus_row(a[i], k, a[from], order, m);
    r
}

// The entry (i, j) of M becomes that of E, by a multiple of row `from`, where d is the reciprocal of the entry (from, j).
fn place(pair: Pair, i: usize, j: usize, from: usize, d: u8, order: Order, m: Modulus) -> Pair
    requires { PlaceReady m.p order.n i j from d pair.m }
    ensures { PlacedIn m.p order.n i j pair.m pair.s result.m result.s }
{
    let e = unit_row(j);
    let x = pair.m[i][j] % m.p;
    let y = plus_multiple(m.p - x, 1, e[i], m);
    let k = plus_multiple(0, y, d, m);
    Pair {
        m: add_row(pair.m, i, k, from, order, m),
        s: add_row(pair.s, i, k, from, order, m),
    }
}

// The first row from j on with a non-zero entry in column j.
fn pivot(a: Mat, j: usize, order: Order, m: Modulus) -> Option<usize>
    requires { j < order.n }
    ensures { Pivoted m.p order.n j a result }
{
    (j..order.n).find(|i| a[*i][j] % m.p != 0)
}

// Column j becomes that of E, from the pivot in row q.
fn clear(pair: Pair, j: usize, q: usize, order: Order, m: Modulus) -> Pair
    requires { T (prime m.p) × PivotReady m.p order.n j q pair.m }
    ensures { Cleared m.p order.n j pair.m pair.s result.m result.s }
{
    let d = reciprocal_of(pair.m[q][j] % m.p, m.p);
    let mut cleared = place(pair, j, j, q, d, order, m);
    for i in 0..order.n {
        cleared = place(cleared, i, j, j, 1, order, m);
    }
    cleared
}

// The inverse of a, if it has one.
pub fn inverse(a: Mat, order: Order, m: Modulus) -> Option<Mat>
    requires { T (prime m.p) }
    ensures { Inverted m.p order.n a result }
{
    let mut pair = Pair {
        m: a,
        s: identity(order),
    };
    for j in 0..order.n {
        let Some(q) = pivot(pair.m, j, order, m) else {
            return None;
        };
        pair = clear(pair, j, q, order, m);
    }
    Some(pair.s)
}

// Whether the first n entries of v are zero.
fn is_zero_row(v: Row, order: Order) -> bool
    ensures { result ≡ zero_entries order.n v }
{
    v[..order.n].iter().all(|x| *x == 0)
}

// Whether m is zero, which no inverse is.
pub fn is_zero(m: Mat, order: Order) -> bool
    ensures { result ≡ is_zero order.n m }
{
    m[..order.n].iter().all(|row| is_zero_row(*row, order))
}
