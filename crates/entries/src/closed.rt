// D, P, Q and their inverses, entry by entry: read off F, T and the inverse of T, with no product of polynomials. Row i of F ends its block
// at row `end`.
ghost use Rattle.std.specs.Prelude.{◌≡◌, false, ◌+◌, ◌*◌, ◌-◌, ◌%◌, ◌≤◌, ◌<◌, length};
ghost use Rattle.forms.specs.Numbers.{order_limit};
ghost use Rattle.matrices.specs.Filling.{filled};
ghost use Rattle.heads.specs.Heads.{begins};
ghost use Rattle.entries.specs.PutEntries.{ShortPut};
ghost use Rattle.entries.specs.Coefficients.{SmallState, Tables, block_coefficient, D_coefficient, P_coefficient, PI_coefficient, head_sum, Q_coefficient, QI_coefficient, side, closed_entry, D_entry, zero_entry};

use basis::steps::State;
use forms::ORDER;
use heads::is_head;
use matrices::{Order, Row};
use residues::modulus::Modulus;

// The most coefficients that an entry of D has.
const COEFFICIENTS: usize = ORDER + 1;

type Entry = [u8; COEFFICIENTS];

// The matrices of polynomials beside D.
#[derive(Clone, Copy)]
pub enum Factor {
    P,
    PInverse,
    Q,
    QInverse,
}

// A matrix of order n in its Frobenius form: F, T and the inverse of T, the row of F for each row of D, and the end of each row's block.
#[derive(Clone, Copy)]
pub struct Reduction<'a> {
    pub state: &'a State,
    pub from: Row,
    pub last: Row,
    pub order: Order,
    pub modulus: Modulus,
    pub ghost tables: { Tables order.n from last },
    pub ghost small: { SmallState modulus.p state.now },
}

// -x
fn opposite(x: u8, p: u8) -> u8
    requires { x < p }
    ensures { result ≡ (p - x) % p }
{
    if x == 0 {
        return 0;
    }
    p - x
}

impl Factor {
    // The row of D that the row of F belongs to, for the entry (r, c).
    fn side(self, r: usize, c: usize) -> usize
        ensures { result ≡ side self r c }
    {
        match self {
            Factor::P | Factor::QInverse => r,
            Factor::PInverse | Factor::Q => c,
        }
    }
}

impl Reduction<'_> {
    // The coefficients of P, in row i and column c. Here and below they are put into the entry as far as they can be other than zero.
    fn p_entry(&self, entry: &mut [u8], end: usize, i: usize, c: usize)
        requires { (length entry.old ≡ self.now.order.n) × (end < self.now.order.n) × (i < self.now.order.n) × (c < self.now.order.n) }
        ensures { ShortPut (P_coefficient self.now.state.now.back end i c) entry.old entry.new }
    {
        for row in i..end + 1 {
            entry[row - i] = self.state.back[row][c];
        }
    }

    // The coefficients of the inverse of P, in row r and column i.
    fn pi_entry(&self, entry: &mut [u8], r: usize, i: usize)
        requires { (length entry.old ≡ self.now.order.n) × (r < self.now.order.n) × (i < self.now.order.n) }
        ensures { ShortPut (PI_coefficient self.now.modulus.p self.now.state.now.b self.now.state.now.t r i) entry.old entry.new }
    {
        let t = &self.state.t;
        entry[0] = t[r][i];
        if is_head(&self.state.b, i) {
            return;
        }
        entry[1] = opposite(t[r][i - 1], self.modulus.p);
    }

    // Row r of T times the polynomial of the block of row i, from coefficient k + 1 on, with the leading 1 first.
    fn head_sum(&self, end: usize, r: usize, i: usize, k: usize) -> u8
        requires { (end < order_limit) × (r < order_limit) × (i + k ≤ end) }
        ensures { result ≡ head_sum self.now.modulus.p self.now.state.now.b self.now.state.now.t end r i k }
    {
        let f = &self.state.b;
        let t = &self.state.t;
        let mut sum = u32::from(t[r][end - k]);
        for j in i..end - k {
            sum += u32::from(t[r][j]) * u32::from(opposite(f[j + 1 + k][end], self.modulus.p));
        }
        self.modulus.remainder(sum)
    }

    // The coefficients of Q, in row r and the column of row i, which begins a block.
    fn head_entry(&self, entry: &mut [u8], end: usize, r: usize, i: usize)
        requires { (length entry.old ≡ self.now.order.n) × (end < self.now.order.n) × (r < self.now.order.n) × (i < self.now.order.n) }
        ensures { ShortPut (head_sum self.now.modulus.p self.now.state.now.b self.now.state.now.t end r i) entry.old entry.new }
    {
        for row in i..end + 1 {
            let k = row - i;
            entry[k] = self.head_sum(end, r, i, k);
        }
    }

    // The coefficients of Q, in row r and column i.
    fn q_entry(&self, entry: &mut [u8], end: usize, r: usize, i: usize)
        requires { (length entry.old ≡ self.now.order.n) × (end < self.now.order.n) × (r < self.now.order.n) × (i < self.now.order.n) }
        ensures { ShortPut (Q_coefficient self.now.modulus.p self.now.state.now.b self.now.state.now.t end r i) entry.old entry.new }
    {
        if is_head(&self.state.b, i) {
            self.head_entry(entry, end, r, i);
            return;
        }
        entry[0] = opposite(self.state.t[r][i - 1], self.modulus.p);
    }

    // The coefficients of the inverse of Q, in row i, which begins no block, and column c.
    fn multiple_entry(&self, entry: &mut [u8], end: usize, i: usize, c: usize)
        requires { (length entry.old ≡ self.now.order.n) × (end < self.now.order.n) × (i ≤ end) × (c < self.now.order.n) × (begins self.now.state.now.b i ≡ false) }
        ensures { ShortPut (QI_coefficient self.now.modulus.p self.now.state.now.b self.now.state.now.back end i c) entry.old entry.new }
    {
        let f = &self.state.b;
        let ti = &self.state.back;
        let last = ti[end][c];
        let scale = u32::from(last);
        let mut more = u32::from(self.modulus.p - ti[i - 1][c]);
        for row in i..end + 1 {
            let b = u32::from(opposite(f[row][end], self.modulus.p));
            entry[row - i] = self.modulus.remainder(more + b * scale);
            more = 0;
        }
        entry[end + 1 - i] = last;
    }

    // The coefficients of the inverse of Q, in row i and column c.
    fn qi_entry(&self, entry: &mut [u8], end: usize, i: usize, c: usize)
        requires { (length entry.old ≡ self.now.order.n) × (end < self.now.order.n) × (i ≤ end) × (c < self.now.order.n) }
        ensures { ShortPut (QI_coefficient self.now.modulus.p self.now.state.now.b self.now.state.now.back end i c) entry.old entry.new }
    {
        let ti = &self.state.back;
        if is_head(&self.state.b, i) {
            entry[0] = ti[end][c];
            return;
        }
        if ti[end][c] == 0 {
            entry[0] = opposite(ti[i - 1][c], self.modulus.p);
            return;
        }
        self.multiple_entry(entry, end, i, c);
    }

    // The coefficients of the entry (r, c) of P, Q or an inverse. Row i of F, whose block ends at `end`, belongs to row r of P and of the
    // inverse of Q, and to column c of the other two.
    pub fn closed_entry(&self, entry: &mut [u8], factor: Factor, r: usize, c: usize)
        requires { (length entry.old ≡ self.now.order.n) × (r < self.now.order.n) × (c < self.now.order.n) }
        ensures { ShortPut (closed_entry self.now.modulus.p self.now.state.now self.now.from self.now.last factor r c) entry.old entry.new }
    {
        let i = usize::from(self.from[factor.side(r, c)]);
        let end = usize::from(self.last[i]);
        match factor {
            Factor::P => self.p_entry(entry, end, i, c),
            Factor::PInverse => self.pi_entry(entry, r, i),
            Factor::Q => self.q_entry(entry, end, r, i),
            Factor::QInverse => self.qi_entry(entry, end, i, c),
        }
    }

    // The polynomial of a block, with its constant term at j = the block's first row: minus the last column, and 1 behind it.
    fn block_coefficient(&self, end: usize, j: usize) -> u8
        requires { end < order_limit }
        ensures { result ≡ block_coefficient self.now.modulus.p self.now.state.now.b end j }
    {
        if j <= end {
            return opposite(self.state.b[j][end], self.modulus.p);
        }
        if j == end + 1 {
            return 1;
        }
        0
    }

    // Coefficient k of an entry of D, to which row i of F belongs: 1 where that begins no block.
    fn d_coefficient(&self, i: usize, end: usize, k: usize) -> u8
        requires { (i < order_limit) × (end < order_limit) × (k ≤ order_limit) }
        ensures { result ≡ D_coefficient self.now.modulus.p self.now.state.now.b i end k }
    {
        if is_head(&self.state.b, i) {
            return self.block_coefficient(end, i + k);
        }
        if k == 0 {
            return 1;
        }
        0
    }

    // The n + 1 coefficients of entry b of D.
    pub fn d_entry(&self, b: usize) -> Entry
        requires { b < self.now.order.n }
        ensures { result ≡ filled (self.now.order.n + 1) (D_entry self.now.modulus.p self.now.state.now.b self.now.from self.now.last b) zero_entry }
    {
        let i = usize::from(self.from[b]);
        let end = usize::from(self.last[i]);
        let mut e = [0u8; COEFFICIENTS];
        for k in 0..self.order.n + 1 {
            e[k] = self.d_coefficient(i, end, k);
        }
        e
    }
}
