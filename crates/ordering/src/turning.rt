// The basis in another order: m, .., k-1, 0, .., m-1, k, ..
ghost use Rattle.std.specs.Prelude.{◌≡◌, ◌≤◌, ◌<◌};
ghost use Rattle.forms.specs.Numbers.{order_limit};
ghost use Rattle.matrices.specs.Filling.{filled};
ghost use Rattle.matrices.specs.Matrices.{zero_row};
ghost use Rattle.ordering.specs.Rotation.{rotation};
ghost use Rattle.ordering.specs.Orders.{InOrder};
ghost use Rattle.ordering.specs.Turning.{Places, picked};

use basis::steps::State;
use forms::ORDER;
use matrices::{Order, Row};

// Which place goes to each place.
type Permutation = [usize; ORDER];

// The place that goes to place i.
fn turned(i: usize, m: usize, k: usize) -> usize
    requires { (i < order_limit) × (m ≤ k) × (k ≤ order_limit) }
    ensures { result ≡ rotation m k i }
{
    if i < k - m {
        return i + m;
    }
    if i < k {
        return i - (k - m);
    }
    i
}

// The table of the rotation.
fn rotation_of(m: usize, k: usize) -> Permutation
    requires { (m ≤ k) × (k ≤ order_limit) }
    ensures { (result ≡ filled order_limit (rotation m k) zero_row) × Places order_limit result }
{
    let mut r = [0; ORDER];
    for j in 0..ORDER {
        r[j] = turned(j, m, k);
    }
    r
}

// A row's entries in the order of a table.
fn turn_row(x: Row, q: Permutation) -> Row
    requires { Places order_limit q }
    ensures { result ≡ picked q x }
{
    let mut r = [0; ORDER];
    for j in 0..ORDER {
        r[j] = x[q[j]];
    }
    r
}

// The first m basis vectors of [0,k) go behind the others: B moves its rows and columns, T its columns, the inverse its rows.
pub fn rotate(s: State, m: usize, k: usize, order: Order) -> State
    requires { (m ≤ k) × (k ≤ order.n) }
    ensures { InOrder order.n (rotation m k) s result }
{
    if m == k {
        return s;
    }
    let q = rotation_of(m, k);
    let mut r = s;
    for i in 0..order.n {
        r.b[i] = turn_row(s.b[q[i]], q);
        r.t[i] = turn_row(s.t[i], q);
        r.back[i] = s.back[q[i]];
    }
    r
}
