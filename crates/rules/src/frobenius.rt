// Rule 7: FB is the matrix built from D.
ghost use Rattle.std.specs.Prelude.{◌≡◌, ℕ, ◌<◌};
ghost use Rattle.forms.specs.Numbers.{at};
ghost use Rattle.forms.specs.Matrices.{matrix, diagonal};
ghost use Rattle.forms.specs.Frobenius.{companion, frobenius};
ghost use Rattle.forms.specs.Rules.{field_equal};
ghost use Rattle.rules.specs.FrobeniusSearch.{FrobeniusPayloads};
ghost use Rattle.products.specs.Searches.{failing};

use crate::diagonal::Diagonal;
use matrices::loading::field_entry;
use residues::modulus::Modulus;

// The entry (i, j) of the companion block of f_b.
fn companion_entry(d: &Diagonal, b: usize, i: usize, j: usize, m: Modulus) -> u8
    requires { ((k : ℕ) → at d.now.bytes.now k < m.p) × (b < d.now.order.n) × (i < at d.now.degrees b) × (j < at d.now.degrees b) }
    ensures { result ≡ companion m.p (at d.now.degrees b) (diagonal d.now.order.n d.now.bytes.now b) i j }
{
    if j + 1 == d.degrees[b] {
        return (m.p - d.polynomial(b)[i]) % m.p;
    }
    u8::from(i == j + 1)
}

// The entry (i, j) of the Frobenius form: past each block before it, then in its block or beside it.
fn frobenius_entry(d: &Diagonal, i: usize, j: usize, m: Modulus) -> u8
    requires { (k : ℕ) → at d.now.bytes.now k < m.p }
    ensures { result ≡ frobenius m.p d.now.order.n (diagonal d.now.order.n d.now.bytes.now) i j }
{
    let mut row = i;
    let mut column = j;
    for b in 0..d.order.n {
        let degree = d.degrees[b];
        if row < degree && column < degree {
            return companion_entry(d, b, row, column, m);
        }
        if row < degree || column < degree {
            return 0;
        }
        row -= degree;
        column -= degree;
    }
    0
}

// Rule 7, which fails at the first entry of F that is not that of the Frobenius form.
pub fn frobenius_rule(d: &Diagonal, field: &[u8], m: Modulus) -> Result<(), u8>
    requires { FrobeniusPayloads m.p d.now.order.n d.now.bytes.now field.now }
    ensures { result ≡ failing (field_equal m.p d.now.order.n (matrix d.now.order.n field.now) (frobenius m.p d.now.order.n (diagonal d.now.order.n d.now.bytes.now))) 7 }
{
    let failed = 'rows: {
        for i in 0..d.order.n {
            for j in 0..d.order.n {
                if field_entry(field, i, j, d.order) != frobenius_entry(d, i, j, m) {
                    break 'rows Err(7);
                }
            }
        }
        Ok(())
    };
    failed
}
