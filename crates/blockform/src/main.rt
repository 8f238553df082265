// Reads an HD and an MA record from standard input and prints D, F and the lead of the matrix, or `refused` with the number and the
// place. Bytes behind the buffer would not change the answer (matrix_of_prefix).
#![tactic(auto)]

mod diagonal; // the lead
mod listing; // what is printed

ghost use Rattle.std.specs.Prelude.{◌≡◌, ◌≤◌, length};
ghost use Rattle.forms.specs.Numbers.{order_limit};
ghost use Rattle.forms.specs.Certificate.{certificate_length};

use crate::listing::print_listing;
use analysis::analysis;
use certificate::reading::{byte, read_matrix};
use certificate::records::Record;
use finding::payload;
use forms::ORDER;
use report::{print_refusal, read_input};
use std::io;

// The certificate of a matrix of the largest order.
const ROOM: usize = 4 * ORDER * ORDER * ORDER + 5 * ORDER * ORDER + ORDER + 42;

// The certificate stands at the front of the room.
fn print_certificate(rt: &impl Print, p: u8, n: u8, room: &[u8]) -> io::Result<()>
    requires { (n ≤ order_limit) × (length room.now ≡ certificate_length order_limit) }
{
    print_listing(
        rt,
        p,
        n,
        payload(room, n, Record::DF),
        payload(room, n, Record::FB),
    )
}

fn print_forms(rt: &impl Print, p: u8, n: u8, matrix: &[u8]) -> io::Result<()>
    requires { n ≤ order_limit }
{
    let mut room = [0u8; ROOM];
    match analysis(u64::from(p), u64::from(n), matrix, &mut room) {
        Ok(_) => print_certificate(rt, p, n, &room),
        Err(refusal) => print_refusal(rt, refusal),
    }
}

fn print_answer(rt: &impl Print, input: &[u8]) -> io::Result<()> {
    match read_matrix(input) {
        Ok(_) => {
            let n = byte(input, 5);
            print_forms(rt, byte(input, 4), n, payload(input, n, Record::MA))
        }
        Err(fault) => print_refusal(rt, fault),
    }
}

fn main(rt: HostRuntime) -> io::Result<()> {
    let mut buffer = [0u8; 65536];
    let count = read_input(&rt, &mut buffer)?;
    print_answer(&rt, &buffer[..count])
}
