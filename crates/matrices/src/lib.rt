// Field matrices by value: twelve rows of twelve residues, with rows and columns from n on zero.
#![tactic(auto)]

ghost use Rattle.std.specs.Prelude.{◌≡◌, ◌*◌, ◌%◌, ◌≤◌, ◌<◌, get_or};
ghost use Rattle.forms.specs.Numbers.{total, order_limit};
ghost use Rattle.matrices.specs.Matrices.{cell};
ghost use Rattle.matrices.specs.Products.{product_row, Multiplied};
ghost use Rattle.matrices.specs.Rows.{unit_row, IsIdentity};

use forms::ORDER;
use residues::modulus::Modulus;

pub mod loading; // a matrix from its bytes

pub type Row = [u8; ORDER];

pub type Mat = [Row; ORDER];

// How many rows and columns of a matrix are in use, at most ORDER; the others are zero.
#[derive(Clone, Copy)]
pub struct Order {
    pub n: usize,
    pub ghost limited: { n ≤ order_limit },
}

impl Order {
    // The order n.
    pub fn new(n: usize) -> Order
        requires { n ≤ order_limit }
        ensures { result.n ≡ n }
    {
        Order { n }
    }
}

// Row v times column j of b.
fn inner_product(v: Row, b: &Mat, j: usize, order: Order, m: Modulus) -> u8
    requires { j < order_limit }
    ensures { result ≡ total order.n (λ k. get_or v k 0 * cell b.now k j) % m.p }
{
    let mut sum = 0;
    for k in 0..order.n {
        sum += u32::from(v[k]) * u32::from(b[k][j]);
    }
    m.remainder(sum)
}

// Row v times b.
fn product_row(v: Row, b: &Mat, order: Order, m: Modulus) -> Row
    ensures { result ≡ product_row m.p order.n v b.now }
{
    let mut r = [0u8; ORDER];
    for j in 0..order.n {
        r[j] = inner_product(v, b, j, order, m);
    }
    r
}

// a b
pub fn product(a: Mat, b: Mat, order: Order, m: Modulus) -> Mat
    ensures { Multiplied m.p order.n a b result }
{
    let mut r = [[0u8; ORDER]; ORDER];
    for i in 0..order.n {
        r[i] = product_row(a[i], &b, order, m);
    }
    r
}

// Row i of E.
pub fn unit_row(i: usize) -> Row
    requires { i < order_limit }
    ensures { result ≡ unit_row i }
{
    let mut r = [0u8; ORDER];
    r[i] = 1;
    r
}

// E
pub fn identity(order: Order) -> Mat
    ensures { IsIdentity order.n result }
{
    let mut e = [[0u8; ORDER]; ORDER];
    for i in 0..order.n {
        e[i][i] = 1;
    }
    e
}
