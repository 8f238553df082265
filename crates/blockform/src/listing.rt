// The listing of document 01: p and n, D with the coefficients up to the leading one, F row by row, and the lead.
ghost use Rattle.std.specs.Prelude.{◌≡◌, ◌+◌, ◌*◌, ◌<◌, length};

use crate::diagonal::lead_of;
use matrices::loading::row;
use polynomials::degree_of;
use std::io;

// A letter, an index and numbers.
fn print_line(rt: &impl Print, letter: &str, index: usize, numbers: &[u8]) -> io::Result<()> {
    print!(rt; "{letter} {index}:")?;
    for number in numbers {
        print!(rt; " {number}")?;
    }
    println!(rt; "")
}

// The coefficients up to the leading one.
fn print_polynomial(rt: &impl Print, index: usize, f: &[u8]) -> io::Result<()>
    requires { 0 < length f.now }
{
    let end = degree_of(f) + 1;
    print_line(rt, "D", index, &f[..end])
}

fn print_diagonal(rt: &impl Print, d: &[u8], n: usize) -> io::Result<()>
    requires { (n < 256) × (length d.now ≡ n * (n + 1)) }
{
    for i in 0..n {
        print_polynomial(rt, i + 1, row(d, i, n + 1))?;
    }
    Ok(())
}

fn print_frobenius(rt: &impl Print, f: &[u8], n: usize) -> io::Result<()>
    requires { length f.now ≡ n * n }
{
    for i in 0..n {
        print_line(rt, "F", i + 1, row(f, i, n))?;
    }
    Ok(())
}

pub fn print_listing(rt: &impl Print, p: u8, n: u8, d: &[u8], f: &[u8]) -> io::Result<()>
    requires { (length d.now ≡ n * (n + 1)) × (length f.now ≡ n * n) }
{
    println!(rt; "p {p} n {n}")?;
    let order = usize::from(n);
    print_diagonal(rt, d, order)?;
    print_frobenius(rt, f, order)?;
    let lead = lead_of(d, order);
    println!(rt; "lead {lead}")
}
