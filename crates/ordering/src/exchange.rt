// Two basis vectors exchange their places.
ghost use Rattle.std.specs.Prelude.{◌<◌};
ghost use Rattle.ordering.specs.Exchange.{exchange};
ghost use Rattle.ordering.specs.Orders.{ColumnsIn, RowsIn, InOrder};

use basis::steps::State;
use matrices::{Mat, Order};

// Columns a and b exchange their places.
fn exchange_columns(mut x: Mat, a: usize, b: usize, order: Order) -> Mat
    requires { (a < order.n) × (b < order.n) }
    ensures { ColumnsIn order.n (exchange a b) x result }
{
    for row in &mut x[..order.n] {
        row.swap(a, b);
    }
    x
}

// Rows a and b exchange their places.
fn exchange_rows(mut x: Mat, a: usize, b: usize, order: Order) -> Mat
    requires { (a < order.n) × (b < order.n) }
    ensures { RowsIn order.n (exchange a b) x result }
{
    x.swap(a, b);
    x
}

// e_a and e_b exchange their places.
pub fn exchange_vectors(s: State, a: usize, b: usize, order: Order) -> State
    requires { (a < order.n) × (b < order.n) }
    ensures { InOrder order.n (exchange a b) s result }
{
    State {
        b: exchange_rows(exchange_columns(s.b, a, b, order), a, b, order),
        t: exchange_columns(s.t, a, b, order),
        back: exchange_rows(s.back, a, b, order),
    }
}
