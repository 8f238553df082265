// The elimination: block after block is split off, the largest first, and brought to the end of the window.
ghost use Rattle.std.specs.Prelude.{◌≡◌, true, ◌≤◌, ◌<◌, T};
ghost use Rattle.forms.specs.Numbers.{prime, order_limit};
ghost use Rattle.matrices.specs.Matrices.{FieldMatrix};
ghost use Rattle.elimination.specs.Reduced.{Reduced};
ghost use Rattle.elimination.specs.Scalar.{ScalarWindow};

use basis::steps::{State, with_entry};
use forms::ORDER;
use matrices::{Mat, Order, identity};
use ordering::turning::rotate;
use residues::modulus::Modulus;
use splitting::blocks::{same_row, split};
use splitting::passes::reach;

// The window [0,k) is a multiple of E.
fn is_scalar(b: &Mat, k: usize) -> bool
    requires { (0 < k) × (k ≤ order_limit) }
    ensures { result ≡ true → ScalarWindow k b.now }
{
    let d = b[0][0];
    (0..k).all(|i| same_row(b[i], with_entry([0; ORDER], i, d), k))
}

// F, T and the inverse of T, with A T = T F and F the companion blocks of f_1 | f_2 | ..
pub fn reduce(a: Mat, order: Order, m: Modulus) -> State
    requires { T (prime m.p) × FieldMatrix m.p order.n a }
    ensures { Reduced m.p order.n a result }
{
    let e = identity(order);
    let mut s = State {
        b: a,
        t: e,
        back: e,
    };
    let mut k = order.n;
    while k > 0 {
        if is_scalar(&s.b, k) {
            return s;
        }
        let c = split(s, k, order, m);
        let length = reach(&c.b, k);
        let next = rotate(c, length, k, order);
        s = next;
        k -= length;
    }
    s
}
