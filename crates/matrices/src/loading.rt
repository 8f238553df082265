// A field matrix by value, from its bytes row by row, and one row of bytes, of any width.
ghost use Rattle.std.specs.Prelude.{◌≡◌, ◌+◌, ◌*◌, ◌<◌, length};
ghost use Rattle.forms.specs.Numbers.{at};
ghost use Rattle.matrices.specs.Filling.{filled};
ghost use Rattle.matrices.specs.Loading.{loaded};
ghost use Rattle.matrices.specs.Matrices.{zero_row};
ghost use Rattle.matrices.specs.Parts.{row_of, HasRow};

use crate::{Mat, Order, Row};
use forms::ORDER;

// Row i of bytes in rows of this width.
pub fn row(bytes: &[u8], i: usize, width: usize) -> &[u8]
    requires { HasRow bytes.now i width }
    ensures { result.now ≡ row_of bytes.now i width }
{
    let start = i * width;
    &bytes[start..start + width]
}

// The entry (i, j) of n by n bytes.
pub fn field_entry(bytes: &[u8], i: usize, j: usize, order: Order) -> u8
    requires { (i < order.n) × (j < order.n) × (length bytes.now ≡ order.n * order.n) }
    ensures { result ≡ at bytes.now (i * order.n + j) }
{
    bytes[i * order.n + j]
}

// Row i.
fn field_row(bytes: &[u8], i: usize, order: Order) -> Row
    requires { (i < order.n) × (length bytes.now ≡ order.n * order.n) }
    ensures { result ≡ filled order.n (λ j. at bytes.now (i * order.n + j)) zero_row }
{
    let mut row = [0u8; ORDER];
    for j in 0..order.n {
        row[j] = field_entry(bytes, i, j, order);
    }
    row
}

// All rows.
pub fn field_matrix(bytes: &[u8], order: Order) -> Mat
    requires { length bytes.now ≡ order.n * order.n }
    ensures { result ≡ loaded order.n bytes.now }
{
    let mut m = [[0u8; ORDER]; ORDER];
    for i in 0..order.n {
        m[i] = field_row(bytes, i, order);
    }
    m
}
