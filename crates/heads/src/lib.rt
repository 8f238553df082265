// The blocks of the Frobenius form: which rows begin one, where each ends, and the rows in the order of D.
#![tactic(auto)]

ghost use Rattle.std.specs.Prelude.{◌≡◌, cond, ◌+◌, ◌-◌, ◌≤◌, ◌<◌};
ghost use Rattle.forms.specs.Numbers.{order_limit};
ghost use Rattle.heads.specs.Heads.{begins, LastRow, LastRows, others, place, Ordered};

use forms::ORDER;
use matrices::{Mat, Order, Row};

// Row i begins a block: nothing stands just below the diagonal there.
pub fn is_head(f: &Mat, i: usize) -> bool
    requires { i < order_limit }
    ensures { result ≡ begins f.now i }
{
    i == 0 || f[i][i - 1] == 0
}

// The last row of the block of row i, where `next` is that of row i + 1.
fn last_row(f: &Mat, i: usize, next: u8, order: Order) -> u8
    requires { (i < order.n) × (i + 1 < order.n → LastRow f.now order.n (i + 1) next) }
    ensures { LastRow f.now order.n i result }
{
    if i + 1 == order.n || is_head(f, i + 1) {
        i as u8
    } else {
        next
    }
}

// The last row of the block of each row.
pub fn last_rows(f: &Mat, order: Order) -> Row
    ensures { LastRows f.now order.n 0 result }
{
    let mut rows = [0; ORDER];
    let mut next = 0;
    for i in (0..order.n).rev() {
        next = last_row(f, i, next, order);
        rows[i] = next;
    }
    rows
}

// How many rows begin no block.
fn others(f: &Mat, order: Order) -> usize
    ensures { result ≡ others f.now order.n }
{
    (0..order.n).filter(|i| !is_head(f, *i)).count()
}

// Where row i stands in D: `passed` of the rows before it begin no block, and `ones` of all.
fn place(f: &Mat, i: usize, passed: usize, ones: usize) -> usize
    requires { (i < order_limit) × (passed ≤ i) × (ones ≤ order_limit) }
    ensures { result ≡ cond (begins f.now i) (ones + (i - passed)) passed }
{
    if is_head(f, i) {
        ones + (i - passed)
    } else {
        passed
    }
}

// The row of F for each row of D: first the rows that begin no block, then the others.
pub fn order(f: &Mat, order: Order) -> Row
    requires { 0 < order.n }
    ensures { Ordered f.now order.n order.n result }
{
    let ones = others(f, order);
    let mut rows = [0; ORDER];
    let mut passed = 0;
    for i in 0..order.n {
        rows[place(f, i, passed, ones)] = i as u8;
        passed += usize::from(!is_head(f, i));
    }
    rows
}
