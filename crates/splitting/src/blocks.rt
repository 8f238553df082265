// The block at the head of the window grows until its polynomial kills the window.
ghost use Rattle.std.specs.Prelude.{◌≡◌, true, [], ℕ, ◌+◌, ◌≤◌, ◌<◌, get_or};
ghost use Rattle.forms.specs.Numbers.{order_limit};
ghost use Rattle.algebra.specs.Modular.{modulo};
ghost use Rattle.matrices.specs.Matrices.{matrix, FieldRow, FieldMatrix};
ghost use Rattle.basis.specs.Frame.{Window};
ghost use Rattle.splitting.specs.Shapes.{CompanionRows};
ghost use Rattle.splitting.specs.Settle.{Headed, Wiped, Cleared, Settled};
ghost use Rattle.splitting.specs.Probe.{Joined, Probed, Split};
ghost use Rattle.basis.specs.State.{frame, Fields, Given};
ghost use Rattle.splitting.specs.Tails.{tail_of};
ghost use Rattle.splitting.specs.Powers.{applied, KilledTest};
ghost use Rattle.splitting.specs.Tests.{NothingBehind, FirstUnkilled, FoundUnkilled};

use crate::passes::{chain, first_pivot, reach};
use basis::steps::{
    State, add_columns, add_multiple, column, combination, first_nonzero, inner, replace,
    with_entry,
};
use forms::ORDER;
use matrices::{Mat, Order, Row, unit_row};
use ordering::turning::rotate;
use residues::modulus::Modulus;

// Minus the entries m .. k - 1 of x, and zeros.
fn tail(x: Row, m: usize, k: usize, order: Order, modulus: Modulus) -> Row
    requires { (k ≤ order.n) × FieldRow modulus.p order.n x }
    ensures { result ≡ tail_of modulus.p m k x }
{
    let mut r = [0; ORDER];
    for j in m..k {
        r[j] = (modulus.p - x[j]) % modulus.p;
    }
    r
}

// Row a + 1 is wiped from column m on, by multiples of e_a.
fn wipe(s: State, a: usize, m: usize, k: usize, order: Order, modulus: Modulus) -> State
    requires { Given modulus.p order.n k s × Headed (modulo modulus.p) k m (frame modulus.p order.n s) × (a + 1 < m) }
    ensures { Fields modulus.p order.n result × Wiped (modulo modulus.p) order.n k m a (frame modulus.p order.n s) (frame modulus.p order.n result) }
{
    let v = tail(s.b[a + 1], m, k, order, modulus);
    let mut c = add_columns(s, a, v, order, modulus);
    c.b[a] = add_multiple(
        c.b[a],
        modulus.p - 1,
        combination(v, c.b, order, modulus),
        modulus,
    );
    c.back[a] = add_multiple(
        c.back[a],
        modulus.p - 1,
        combination(v, c.back, order, modulus),
        modulus,
    );
    c
}

// Rows 1 .. m - 1 are wiped where they have something from column m on.
fn clear(mut s: State, m: usize, k: usize, order: Order, modulus: Modulus) -> State
    requires { Given modulus.p order.n k s × Headed (modulo modulus.p) k m (frame modulus.p order.n s) }
    ensures { Fields modulus.p order.n result × Cleared (modulo modulus.p) order.n k m 0 (frame modulus.p order.n s) (frame modulus.p order.n result) }
{
    for r in (1..m).rev() {
        if first_nonzero(s.b[r], m, k).is_some() {
            let next = wipe(s, r - 1, m, k, order, modulus);
            s = next;
        }
    }
    s
}

// Nothing is left behind the block, or a longer one is made.
fn settle(s: State, m: usize, k: usize, order: Order, modulus: Modulus) -> State
    requires { Given modulus.p order.n k s × Headed (modulo modulus.p) k m (frame modulus.p order.n s) }
    ensures { Fields modulus.p order.n result × ((h : ℕ) × Settled (modulo modulus.p) order.n k m (frame modulus.p order.n s) h (frame modulus.p order.n result)) }
{
    let c = clear(s, m, k, order, modulus);
    let Some(j) = first_nonzero(c.b[0], m, k) else {
        return c;
    };
    chain(rotate(c, j, j + 1, order), k, order, modulus)
}

// b g
fn apply(b: &Mat, g: Row, order: Order, modulus: Modulus) -> Row
    requires { FieldMatrix modulus.p order.n b.now }
    ensures { result ≡ applied modulus.p order.n b.now g }
{
    let mut r = [0; ORDER];
    for i in 0..order.n {
        r[i] = inner(b[i], g, modulus);
    }
    r
}

// Whether the first n entries of x and y are the same.
pub fn same_row(x: Row, y: Row, n: usize) -> bool
    requires { n ≤ order_limit }
    ensures { result ≡ true → (i : ℕ) → i < n → get_or x i 0 ≡ get_or y i 0 }
{
    x[..n] == y[..n]
}

// Whether the polynomial of the block of m kills e_j, tried by powers of b.
fn killed(b: &Mat, j: usize, m: usize, order: Order, modulus: Modulus) -> bool
    requires { (j < order.n) × (0 < m) × (m ≤ order.n) × FieldMatrix modulus.p order.n b.now }
    ensures { KilledTest modulus.p order.n m j b.now result }
{
    let mut g = column(b, j, order);
    let mut v = with_entry([0; ORDER], j, b[0][m - 1]);
    for e in 1..m {
        let sum = add_multiple(v, b[e][m - 1], g, modulus);
        let power = apply(b, g, order, modulus);
        v = sum;
        g = power;
    }
    same_row(g, v, order.n)
}

// A pass from e_0 + e_j.
fn join(s: State, j: usize, k: usize, order: Order, modulus: Modulus) -> State
    requires { Given modulus.p order.n k s × (0 < j) × (j < k) × Window (modulo modulus.p) k (matrix modulus.p order.n s.b) }
    ensures { Fields modulus.p order.n result × Joined (modulo modulus.p) order.n k j (frame modulus.p order.n s) (frame modulus.p order.n result) }
{
    let w = with_entry(unit_row(0), j, 1);
    chain(replace(s, 0, w, order, modulus), k, order, modulus)
}

// The first vector from e_from on, below k, that the polynomial of the block of m is not found to kill.
fn first_unkilled(
    b: &Mat,
    from: usize,
    m: usize,
    k: usize,
    order: Order,
    modulus: Modulus,
) -> Option<usize>
    requires { (from ≤ k) × (k ≤ order.n) × (0 < m) × (m ≤ order.n) × FieldMatrix modulus.p order.n b.now }
    ensures { FoundUnkilled modulus.p order.n m from k b.now result }
{
    (from..k).find(|&j| !killed(b, j, m, order, modulus))
}

// Nothing is left behind the block, and e_from is the first vector that is not found killed: a longer block is made, or the block's polynomial
// kills the window.
fn probe(mut s: State, from: usize, m: usize, k: usize, order: Order, modulus: Modulus) -> State
    requires { Given modulus.p order.n k s × Headed (modulo modulus.p) k m (frame modulus.p order.n s) × CompanionRows (modulo modulus.p) m (matrix modulus.p order.n s.b) × (from < k) × FirstUnkilled modulus.p order.n m m k s.b from }
    ensures { Fields modulus.p order.n result × ((h : ℕ) × Probed (modulo modulus.p) order.n k m (frame modulus.p order.n s) h (frame modulus.p order.n result)) }
{
    let mut j = from;
    loop {
        let next = join(s, j, k, order, modulus);
        s = next;
        if m < reach(&s.b, k) {
            return s;
        }
        let Some(q) = first_unkilled(&s.b, j + 1, m, k, order, modulus) else {
            return s;
        };
        j = q;
    }
}

// Whether rows 0 .. m - 1 have nothing in the columns m .. k - 1.
fn is_settled(b: &Mat, m: usize, k: usize) -> bool
    requires { (m ≤ k) × (k ≤ order_limit) }
    ensures { result ≡ true → NothingBehind m k b.now }
{
    (0..m).all(|i| first_nonzero(b[i], m, k).is_none())
}

// The window becomes a block whose polynomial kills all of it, and the rest: each turn makes a longer block or is the last.
// A state is handed on only where the matrix shows that there is something to do.
pub fn split(mut s: State, k: usize, order: Order, modulus: Modulus) -> State
    requires { Given modulus.p order.n k s × (0 < k) × Window (modulo modulus.p) k (matrix modulus.p order.n s.b) }
    ensures { Fields modulus.p order.n result × ((m : ℕ) × Split (modulo modulus.p) order.n k (frame modulus.p order.n s) m (frame modulus.p order.n result)) }
{
    if first_pivot(&s.b, 0, k).is_some() {
        let next = chain(s, k, order, modulus);
        s = next;
    }
    let mut m = reach(&s.b, k);
    loop {
        if !is_settled(&s.b, m, k) {
            let next = settle(s, m, k, order, modulus);
            s = next;
            let h = reach(&s.b, k);
            if m < h {
                m = h;
                continue;
            }
        }
        let Some(j) = first_unkilled(&s.b, m, m, k, order, modulus) else {
            return s;
        };
        let next = probe(s, j, m, k, order, modulus);
        s = next;
        let h = reach(&s.b, k);
        if h <= m {
            return s;
        }
        m = h;
    }
}
