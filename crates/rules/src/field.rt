// The rules on field matrices: TB times TI is E (8), and A T = T F (9).
ghost use Rattle.std.specs.Prelude.{◌≡◌};
ghost use Rattle.forms.specs.Matrices.{matrix, unit, field_product};
ghost use Rattle.forms.specs.Rules.{field_equal};
ghost use Rattle.rules.specs.FieldRules.{BasePayloads, SimilarPayloads, same_cells};
ghost use Rattle.products.specs.Searches.{failing};

use matrices::loading::field_matrix;
use matrices::{Mat, Order, identity, product};
use residues::modulus::Modulus;

// Fails with the rule at the first entry in which a and b differ.
fn differing(a: Mat, b: Mat, order: Order, rule: u8) -> Result<(), u8>
    ensures { result ≡ failing (same_cells order.n a b) rule }
{
    let failed = 'rows: {
        for i in 0..order.n {
            for j in 0..order.n {
                if a[i][j] != b[i][j] {
                    break 'rows Err(rule);
                }
            }
        }
        Ok(())
    };
    failed
}

// Rule 8, with the payloads of T and its inverse.
pub fn base_rule(base: &[u8], back: &[u8], order: Order, m: Modulus) -> Result<(), u8>
    requires { BasePayloads m.p order.n base.now back.now }
    ensures { result ≡ failing (field_equal m.p order.n (field_product order.n (matrix order.n base.now) (matrix order.n back.now)) unit) 8 }
{
    let t = field_matrix(base, order);
    let unit = product(t, field_matrix(back, order), order, m);
    differing(unit, identity(order), order, 8)
}

// Rule 9, with the payloads of A, T and F.
pub fn similar_rule(
    field: &[u8],
    base: &[u8],
    form: &[u8],
    order: Order,
    m: Modulus,
) -> Result<(), u8>
    requires { SimilarPayloads order.n field.now base.now form.now }
    ensures { result ≡ failing (field_equal m.p order.n (field_product order.n (matrix order.n field.now) (matrix order.n base.now)) (field_product order.n (matrix order.n base.now) (matrix order.n form.now))) 9 }
{
    let t = field_matrix(base, order);
    let left = product(field_matrix(field, order), t, order, m);
    let right = product(t, field_matrix(form, order), order, m);
    differing(left, right, order, 9)
}
