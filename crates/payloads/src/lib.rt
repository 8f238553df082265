// The payloads, put into the output row by row, and the ten records.
#![tactic(auto)]

ghost use Rattle.std.specs.Prelude.{◌≡◌, ◌++◌, ◌+◌, ◌*◌, ◌≤◌, ◌<◌, length, get_or, drop};
ghost use Rattle.forms.specs.Certificate.{payload, layout, size, certificate_length, joined};
ghost use Rattle.forms.specs.Words.{LaidOut};
ghost use Rattle.forms.specs.Listed.{listed};
ghost use Rattle.certificate.specs.Numbering.{number_of};
ghost use Rattle.writing.specs.Put.{Puts};
ghost use Rattle.entries.specs.Coefficients.{closed_entry};
ghost use Rattle.payloads.specs.Written.{matrix_payload, diagonal_payload, polynomial_payload, certificate_of};

use certificate::records::{RECORDS, Record};
use entries::closed::{Factor, Reduction};
use matrices::{Mat, Order, Row};
use writing::{put_bytes, put_head};

// A row of a field matrix.
fn put_row(out: &mut [u8], at: usize, row: &Row, order: Order) -> usize
    requires { at + order.n ≤ length out.old }
    ensures { Puts at (listed order.n (λ j. get_or row.now j 0)) out.old out.new result }
{
    put_bytes(out, at, &row[..order.n])
}

// A field matrix.
fn put_matrix(out: &mut [u8], at: usize, m: &Mat, order: Order) -> usize
    requires { at + order.n * order.n ≤ length out.old }
    ensures { Puts at (matrix_payload order.n m.now) out.old out.new result }
{
    let mut next = at;
    for row in &m[..order.n] {
        next = put_row(out, next, row, order);
    }
    next
}

// D.
fn put_diagonal(out: &mut [u8], at: usize, form: &Reduction) -> usize
    requires { at + form.now.order.n * (form.now.order.n + 1) ≤ length out.old }
    ensures { Puts at (diagonal_payload form.now.modulus.p form.now.order.n form.now.state.now.b form.now.from form.now.last) out.old out.new result }
{
    let mut next = at;
    for b in 0..form.order.n {
        let entry = form.d_entry(b);
        next = put_bytes(out, next, &entry[..form.order.n + 1]);
    }
    next
}

// Row r of P, Q or an inverse.
fn put_line(out: &mut [u8], at: usize, form: &Reduction, factor: Factor, r: usize) -> usize
    requires { (r < form.now.order.n) × (at + form.now.order.n * form.now.order.n ≤ length out.old) }
    ensures { Puts at (joined form.now.order.n (λ c. listed form.now.order.n (closed_entry form.now.modulus.p form.now.state.now form.now.from form.now.last factor r c))) out.old out.new result }
{
    let n = form.order.n;
    let end = at + n * n;
    out[at..end].fill(0);
    for c in 0..n {
        let start = at + c * n;
        form.closed_entry(&mut out[start..start + n], factor, r, c);
    }
    end
}

// P, Q or an inverse.
fn put_polynomials(out: &mut [u8], at: usize, form: &Reduction, factor: Factor) -> usize
    requires { at + form.now.order.n * form.now.order.n * form.now.order.n ≤ length out.old }
    ensures { Puts at (polynomial_payload form.now.modulus.p form.now.order.n form.now.state.now form.now.from form.now.last factor) out.old out.new result }
{
    let mut next = at;
    for r in 0..form.order.n {
        next = put_line(out, next, form, factor, r);
    }
    next
}

// The payload of a record.
#[tactic(auto, unfolding(forms::specs::Certificate::payload, forms::specs::Certificate::size, crate::specs::Written::written))]
fn put_payload(out: &mut [u8], at: usize, kind: Record, matrix: &[u8], form: &Reduction) -> usize
    requires { (length matrix.now ≡ form.now.order.n * form.now.order.n) × (at + size form.now.order.n (number_of kind) ≤ length out.old) }
    ensures { Puts at (payload (certificate_of form.now matrix.now) (number_of kind)) out.old out.new result }
{
    match kind {
        Record::HD => put_bytes(out, at, &[form.modulus.p, form.order.n as u8]),
        Record::MA => put_bytes(out, at, matrix),
        Record::DF => put_diagonal(out, at, form),
        Record::PL => put_polynomials(out, at, form, Factor::P),
        Record::PI => put_polynomials(out, at, form, Factor::PInverse),
        Record::QR => put_polynomials(out, at, form, Factor::Q),
        Record::QI => put_polynomials(out, at, form, Factor::QInverse),
        Record::FB => put_matrix(out, at, &form.state.b, form.order),
        Record::TB => put_matrix(out, at, &form.state.t, form.order),
        Record::TI => put_matrix(out, at, &form.state.back, form.order),
    }
}

// The ten records.
pub fn put_records(out: &mut [u8], matrix: &[u8], form: &Reduction) -> usize
    requires { (certificate_length form.now.order.n ≤ length out.old) × LaidOut (certificate_of form.now matrix.now) }
    ensures { (result ≡ certificate_length form.now.order.n) × (out.new ≡ layout (certificate_of form.now matrix.now) ++ drop (certificate_length form.now.order.n) out.old) }
{
    let mut at = 0;
    for &kind in &RECORDS {
        let start = put_head(out, at, kind, kind.payload_size(form.order.n as u8));
        at = put_payload(out, start, kind, matrix, form);
    }
    at
}
