// The pass: column after column takes the place of the next basis vector, as long as it has a pivot in the window [0,k).
ghost use Rattle.std.specs.Prelude.{ℕ, ◌+◌, ◌≤◌, ◌<◌};
ghost use Rattle.forms.specs.Numbers.{order_limit};
ghost use Rattle.algebra.specs.Modular.{modulo};
ghost use Rattle.matrices.specs.Matrices.{cell};
ghost use Rattle.splitting.specs.Pass.{Ready, Chained};
ghost use Rattle.basis.specs.State.{frame, Fields, Given};
ghost use Rattle.basis.specs.Searches.{Found};
ghost use Rattle.splitting.specs.Reaching.{Reach};

use basis::steps::{State, column, replace};
use matrices::{Mat, Order};
use ordering::exchange::exchange_vectors;
use residues::modulus::Modulus;

// The first row from j + 1 on, below k, where column j is not zero.
pub fn first_pivot(b: &Mat, j: usize, k: usize) -> Option<usize>
    requires { (j < k) × (k ≤ order_limit) }
    ensures { Found (λ i. cell b.now i j) (j + 1) k result }
{
    (j + 1..k).find(|&i| b[i][j] != 0)
}

// From column 0 on, as far as there are pivots: the first pivot of column j comes to row j + 1, and column j takes the place of e_(j+1).
pub fn chain(mut s: State, k: usize, order: Order, modulus: Modulus) -> State
    requires { Given modulus.p order.n k s × (0 < k) × Ready (modulo modulus.p) k 0 (frame modulus.p order.n s) }
    ensures { Fields modulus.p order.n result × ((m : ℕ) × Chained (modulo modulus.p) order.n k (frame modulus.p order.n s) m (frame modulus.p order.n result)) }
{
    for j in 0..k - 1 {
        let Some(q) = first_pivot(&s.b, j, k) else {
            return s;
        };
        if j + 1 < q {
            let pulled = exchange_vectors(s, j + 1, q, order);
            s = pulled;
        }
        let w = column(&s.b, j, order);
        let next = replace(s, j + 1, w, order, modulus);
        s = next;
    }
    s
}

// How long the block at the head of the window is: up to the first column with no pivot.
pub fn reach(b: &Mat, k: usize) -> usize
    requires { (0 < k) × (k ≤ order_limit) }
    ensures { Reach k b.now result }
{
    for j in 0..k - 1 {
        if first_pivot(b, j, k).is_none() {
            return j + 1;
        }
    }
    k
}
