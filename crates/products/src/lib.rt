// Products of polynomial matrices on the lent bytes, a row at a time: coefficients are summed without reduction, and those of the left
// factor that are zero are skipped.
#![tactic(auto)]

ghost use Rattle.std.specs.Prelude.{◌≡◌, suc, ◌*◌, ◌%◌, ◌<◌, eqb, length};
ghost use Rattle.forms.specs.Numbers.{at};
ghost use Rattle.forms.specs.Polynomials.{convolution};
ghost use Rattle.forms.specs.Matrices.{polynomial_matrix, polynomial_product, polynomial_unit};
ghost use Rattle.forms.specs.Rules.{polynomial_equal};
ghost use Rattle.products.specs.Indices.{Inside};
ghost use Rattle.products.specs.Lines.{ScalingLine, MultiplyingLine, PlusLine, HoldingLine};
ghost use Rattle.products.specs.Products.{Inverses, same_modulo};
ghost use Rattle.products.specs.Searches.{failing};
ghost use Rattle.products.specs.Sums.{shifted, Scaling, Multiplying, Plus};

use forms::ORDER;
use matrices::Order;
use matrices::loading::row;
use residues::modulus::Modulus;

// No product of the rules has more coefficients.
pub const TERMS: usize = 2 * ORDER + 1;

// The coefficients of an entry.
pub type Sums = [u32; TERMS];

// The entries of a row.
pub type Line = [Sums; ORDER];

// Adds x X^shift g to the sums.
fn add_scaled(sums: &mut Sums, x: u32, shift: usize, g: &[u8])
    requires { Scaling x shift g.now sums.old }
    ensures { Plus sums.new sums.old (λ k. x * shifted shift (at g.now) k) }
{
    for (k, y) in g.iter().enumerate() {
        sums[shift + k] += x * u32::from(*y);
    }
}

// Adds f g to the sums.
pub fn add_product(sums: &mut Sums, f: &[u8], g: &[u8])
    requires { Multiplying f.now g.now sums.old }
    ensures { Plus sums.new sums.old (convolution (at f.now) (at g.now)) }
{
    for (k, x) in f.iter().enumerate() {
        if *x != 0 {
            add_scaled(sums, u32::from(*x), k, g);
        }
    }
}

// The n coefficients of the entry (i, j), in a matrix of n by n entries of n coefficients.
pub fn entry(bytes: &[u8], i: usize, j: usize, order: Order) -> &[u8]
    requires { Inside order.n i j × (length bytes.now ≡ order.n * order.n * order.n) }
    ensures { (length result.now ≡ order.n) × (at result.now ≡ polynomial_matrix order.n bytes.now i j) }
{
    row(bytes, i * order.n + j, order.n)
}

// Adds x X^shift times row l of `right` to the row.
fn add_scaled_line(line: &mut Line, x: u32, shift: usize, right: &[u8], l: usize, order: Order)
    requires { ScalingLine x shift l order.n right.now line.old }
    ensures { PlusLine order.n line.new line.old (λ j k. x * shifted shift (polynomial_matrix order.n right.now l j) k) }
{
    for j in 0..order.n {
        add_scaled(&mut line[j], x, shift, entry(right, l, j, order));
    }
}

// Adds f times row l of `right` to the row.
fn add_product_line(line: &mut Line, f: &[u8], right: &[u8], l: usize, order: Order)
    requires { MultiplyingLine l order.n f.now right.now line.old }
    ensures { PlusLine order.n line.new line.old (λ j. convolution (at f.now) (polynomial_matrix order.n right.now l j)) }
{
    for (k, x) in f.iter().enumerate() {
        if *x != 0 {
            add_scaled_line(line, u32::from(*x), k, right, l, order);
        }
    }
}

// Row i of a product of matrices of n by n entries of n coefficients.
fn product_line(left: &[u8], right: &[u8], i: usize, order: Order) -> Line
    requires { Inverses order.n left.now right.now × (i < order.n) }
    ensures { HoldingLine order.n result (polynomial_product order.n (polynomial_matrix order.n left.now) (polynomial_matrix order.n right.now) i) }
{
    let mut line = [[0u32; TERMS]; ORDER];
    for l in 0..order.n {
        add_product_line(&mut line, entry(left, i, l, order), right, l, order);
    }
    line
}

// x and y are equal modulo p. Most are equal as they stand.
fn is_congruent(x: u32, y: u32, m: Modulus) -> bool
    ensures { result ≡ eqb (x % m.p) (y % m.p) }
{
    x == y || x % u32::from(m.p) == y % u32::from(m.p)
}

// The first 2n + 1 coefficients are equal modulo p.
pub fn is_equal(f: &Sums, g: &Sums, order: Order, m: Modulus) -> bool
    ensures { result ≡ same_modulo m.p (suc (2 * order.n)) (at f.now) (at g.now) }
{
    (0..2 * order.n + 1).all(|k| is_congruent(f[k], g[k], m))
}

// Coefficient k of the entry (i, j) of E.
fn unit_coefficient(i: usize, j: usize, k: usize) -> u32
    ensures { result ≡ polynomial_unit i j k }
{
    u32::from(k == 0 && i == j)
}

// The first 2n + 1 coefficients are those of the entry (i, j) of E modulo p: only the constant term can be other than 0 there.
fn is_unit_entry(sums: &Sums, i: usize, j: usize, order: Order, m: Modulus) -> bool
    ensures { result ≡ same_modulo m.p (suc (2 * order.n)) (at sums.now) (polynomial_unit i j) }
{
    is_congruent(sums[0], unit_coefficient(i, j, 0), m)
        && (1..2 * order.n + 1).all(|k| is_congruent(sums[k], 0, m))
}

// The given rule, 4 or 5: left times right is E. The first wrong entry ends the search with the rule.
pub fn inverse_rule(left: &[u8], right: &[u8], order: Order, m: Modulus, rule: u8) -> Result<(), u8>
    requires { Inverses order.n left.now right.now }
    ensures { result ≡ failing (polynomial_equal m.p order.n (polynomial_product order.n (polynomial_matrix order.n left.now) (polynomial_matrix order.n right.now)) polynomial_unit) rule }
{
    let failed = 'rows: {
        for i in 0..order.n {
            let line = product_line(left, right, i, order);
            for j in 0..order.n {
                if !is_unit_entry(&line[j], i, j, order, m) {
                    break 'rows Err(rule);
                }
            }
        }
        Ok(())
    };
    failed
}
