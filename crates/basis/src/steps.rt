// Rows, columns, row and column operations on a whole state, and the change of basis that replaces one vector.
ghost use Rattle.std.specs.Prelude.{◌≡◌, ◌≢◌, ◌≤◌, ◌<◌, get_or, set};
ghost use Rattle.forms.specs.Numbers.{order_limit};
ghost use Rattle.algebra.specs.Sum.{delta};
ghost use Rattle.algebra.specs.Modular.{modulo};
ghost use Rattle.matrices.specs.Matrices.{vector, FieldRow, FieldMatrix};
ghost use Rattle.matrices.specs.Rows.{plus_row};
ghost use Rattle.basis.specs.Shear.{OnColumns, OnRows};
ghost use Rattle.basis.specs.Replace.{added, Replaced};
ghost use Rattle.basis.specs.State.{frame, Fields, Given};
ghost use Rattle.basis.specs.Steps.{entry_of, Combination};
ghost use Rattle.basis.specs.Searches.{column_of, Found};

use forms::ORDER;
use matrices::{Mat, Order, Row, unit_row};
use residues::modulus::Modulus;
use residues::residue::{plus_multiple, reciprocal_of};

// A in another basis: B, T and the inverse of T, with A T = T B.
#[derive(Clone, Copy)]
pub struct State {
    pub b: Mat,
    pub t: Mat,
    pub back: Mat,
}

// x · y
pub fn inner(x: Row, y: Row, m: Modulus) -> u8
    ensures { result ≡ entry_of m.p order_limit x y }
{
    let mut sum = 0;
    for k in 0..ORDER {
        sum += u32::from(x[k]) * u32::from(y[k]);
    }
    m.remainder(sum)
}

// x + k y
pub fn add_multiple(x: Row, k: u8, y: Row, m: Modulus) -> Row
    ensures { result ≡ plus_row m.p order_limit x k y }
{
    let mut r = [0; ORDER];
    for j in 0..ORDER {
        r[j] = plus_multiple(x[j], k, y[j], m);
    }
    r
}

// x + k y; there is nothing to do where k is 0.
fn plus_multiple_row(x: Row, k: u8, y: Row, m: Modulus) -> Row
    requires { FieldRow m.p order_limit x }
    ensures { result ≡ plus_row m.p order_limit x k y }
{
    if k == 0 {
        return x;
    }
    add_multiple(x, k, y, m)
}

// v x; rows for which v has 0 are passed over.
pub fn combination(v: Row, x: Mat, order: Order, m: Modulus) -> Row
    requires { FieldMatrix m.p order.n x }
    ensures { Combination m.p order.n v x result }
{
    let mut r = [0; ORDER];
    for i in 0..order.n {
        let sum = plus_multiple_row(r, v[i], x[i], m);
        r = sum;
    }
    r
}

// x with v at one place.
pub fn with_entry(mut x: Row, at: usize, v: u8) -> Row
    requires { at < order_limit }
    ensures { result ≡ set x at v }
{
    x[at] = v;
    x
}

// Column `at` of B and of T becomes B w and T w.
fn set_columns(mut s: State, at: usize, w: Row, order: Order, m: Modulus) -> State
    requires { (at < order.n) × Fields m.p order.n s }
    ensures { Fields m.p order.n result × OnColumns (modulo m.p) order.n (added (modulo m.p) at (vector m.p order.n w)) (delta (modulo m.p) at) (frame m.p order.n s) (frame m.p order.n result) }
{
    for i in 0..order.n {
        s.b[i][at] = inner(s.b[i], w, m);
        s.t[i][at] = inner(s.t[i], w, m);
    }
    s
}

// Row `at` of B and of the inverse of T is added to each row, as often as c says; rows for which c has 0 stay as they are.
fn add_rows(mut s: State, c: Row, at: usize, order: Order, m: Modulus) -> State
    requires { (at < order.n) × Fields m.p order.n s }
    ensures { Fields m.p order.n result × OnRows (modulo m.p) order.n (vector m.p order.n c) (delta (modulo m.p) at) (frame m.p order.n s) (frame m.p order.n result) }
{
    let x = s.b[at];
    let y = s.back[at];
    for i in 0..order.n {
        if c[i] != 0 {
            s.b[i] = add_multiple(s.b[i], c[i], x, m);
            s.back[i] = add_multiple(s.back[i], c[i], y, m);
        }
    }
    s
}

// Column a of B and of T is added to each column, as often as v says.
pub fn add_columns(mut s: State, a: usize, v: Row, order: Order, m: Modulus) -> State
    requires { (a < order.n) × Fields m.p order.n s × FieldRow m.p order.n v }
    ensures { Fields m.p order.n result × OnColumns (modulo m.p) order.n (delta (modulo m.p) a) (vector m.p order.n v) (frame m.p order.n s) (frame m.p order.n result) }
{
    for i in 0..order.n {
        s.b[i] = plus_multiple_row(s.b[i], s.b[i][a], v, m);
        s.t[i] = plus_multiple_row(s.t[i], s.t[i][a], v, m);
    }
    s
}

// The basis vector e_at is replaced by w.
pub fn replace(s: State, at: usize, w: Row, order: Order, m: Modulus) -> State
    requires { Given m.p order.n order.n s × (at < order.n) × FieldRow m.p order.n w × (get_or w at 0 ≢ 0) }
    ensures { Fields m.p order.n result × Replaced (modulo m.p) order.n at (vector m.p order.n w) (frame m.p order.n s) (frame m.p order.n result) }
{
    let d = reciprocal_of(w[at], m.p);
    let v = add_multiple([0; ORDER], m.p - d, w, m);
    let c = add_multiple(v, d, unit_row(at), m);
    add_rows(set_columns(s, at, w, order, m), c, at, order, m)
}

// Column j.
pub fn column(b: &Mat, j: usize, order: Order) -> Row
    requires { j < order_limit }
    ensures { result ≡ column_of order.n b.now j }
{
    let mut r = [0; ORDER];
    for i in 0..order.n {
        r[i] = b[i][j];
    }
    r
}

// The first place from `from` on, below k, where x is not zero.
pub fn first_nonzero(x: Row, from: usize, k: usize) -> Option<usize>
    requires { (from ≤ k) × (k ≤ order_limit) }
    ensures { Found (λ i. get_or x i 0) from k result }
{
    (from..k).find(|&i| x[i] != 0)
}
