// Rule 6, P(XE-A)Q = D: once rule 5 has held it is P(XE-A) = D QI, which takes no product of polynomial matrices.
ghost use Rattle.std.specs.Prelude.{◌≡◌, suc, ◌*◌, length};
ghost use Rattle.forms.specs.Numbers.{at};
ghost use Rattle.forms.specs.Polynomials.{convolution};
ghost use Rattle.forms.specs.Matrices.{matrix, polynomial_matrix, polynomial_product, characteristic, diagonal, diagonal_matrix};
ghost use Rattle.forms.specs.Rules.{polynomial_equal};
ghost use Rattle.products.specs.Indices.{Inside};
ghost use Rattle.products.specs.Lines.{PlusLine, HoldingLine};
ghost use Rattle.products.specs.Products.{Holding, same_modulo};
ghost use Rattle.products.specs.Searches.{failing};
ghost use Rattle.rules.specs.Moved.{AddingField, AddingMoved, Moving, field_term};
ghost use Rattle.rules.specs.SmithEntries.{SmithPayloads, moved_entries, returned_entries};

use crate::diagonal::Diagonal;
use forms::ORDER;
use matrices::Order;
use matrices::loading::field_entry;
use products::{Line, Sums, TERMS, add_product, entry, is_equal};
use residues::modulus::Modulus;

// Adds x X^k times row l of -A to the row.
fn add_field_row(
    line: &mut Line,
    x: u32,
    k: usize,
    field: &[u8],
    l: usize,
    order: Order,
    m: Modulus,
)
    requires { AddingField m.p order.n x k l field.now line.old }
    ensures { PlusLine order.n line.new line.old (field_term m.p (matrix order.n field.now) x k l) }
{
    let p = u32::from(m.p);
    for j in 0..order.n {
        let a = u32::from(field_entry(field, l, j, order));
        line[j][k] += x * (p - a);
    }
}

// Adds f times row l of XE-A to the row.
fn add_moved(line: &mut Line, f: &[u8], field: &[u8], l: usize, order: Order, m: Modulus)
    requires { AddingMoved m.p order.n l f.now field.now line.old }
    ensures { PlusLine order.n line.new line.old (λ j. convolution (at f.now) (characteristic m.p (matrix order.n field.now) l j)) }
{
    for (k, x) in f.iter().enumerate() {
        let x = u32::from(*x);
        if x != 0 {
            line[l][k + 1] += x;
            add_field_row(line, x, k, field, l, order, m);
        }
    }
}

// Row i of P(XE-A).
fn moved_line(left: &[u8], field: &[u8], i: usize, order: Order, m: Modulus) -> Line
    requires { Moving m.p order.n i left.now field.now }
    ensures { HoldingLine order.n result (moved_entries m.p order.n left.now field.now i) }
{
    let mut line = [[0u32; TERMS]; ORDER];
    for l in 0..order.n {
        add_moved(&mut line, entry(left, i, l, order), field, l, order, m);
    }
    line
}

// The entry (i, j) of D QI.
fn returned_entry(d: &Diagonal, right: &[u8], i: usize, j: usize) -> Sums
    requires { Inside d.now.order.n i j × (length right.now ≡ d.now.order.n * d.now.order.n * d.now.order.n) }
    ensures { Holding result (returned_entries d.now.order.n d.now.bytes.now right.now i j) }
{
    let mut sums = [0u32; TERMS];
    add_product(&mut sums, d.polynomial(i), entry(right, i, j, d.order));
    sums
}

// The first 2n + 1 coefficients are those of the entry (i, j) of D QI modulo p.
fn is_returned(moved: &Sums, d: &Diagonal, right: &[u8], i: usize, j: usize, m: Modulus) -> bool
    requires { Inside d.now.order.n i j × (length right.now ≡ d.now.order.n * d.now.order.n * d.now.order.n) }
    ensures { result ≡ same_modulo m.p (suc (2 * d.now.order.n)) (at moved.now) (returned_entries d.now.order.n d.now.bytes.now right.now i j) }
{
    is_equal(moved, &returned_entry(d, right, i, j), d.order, m)
}

// Rule 6, with the payloads of P, A, D and QI. The first wrong entry ends the search with the rule.
pub fn smith_rule(
    left: &[u8],
    field: &[u8],
    d: &Diagonal,
    right: &[u8],
    m: Modulus,
) -> Result<(), u8>
    requires { SmithPayloads m.p d.now.order.n left.now field.now right.now }
    ensures { result ≡ failing (polynomial_equal m.p d.now.order.n (polynomial_product d.now.order.n (polynomial_matrix d.now.order.n left.now) (characteristic m.p (matrix d.now.order.n field.now))) (polynomial_product d.now.order.n (diagonal_matrix (diagonal d.now.order.n d.now.bytes.now)) (polynomial_matrix d.now.order.n right.now))) 6 }
{
    let failed = 'rows: {
        for i in 0..d.order.n {
            let line = moved_line(left, field, i, d.order, m);
            for j in 0..d.order.n {
                if !is_returned(&line[j], d, right, i, j, m) {
                    break 'rows Err(6);
                }
            }
        }
        Ok(())
    };
    failed
}
