// Reads a certificate from standard input and prints `accepted`, or `refused` with the number and the place. Bytes behind the buffer
// would not change the answer (verdict_of_prefix).
#![tactic(auto)]

use forms::Fault;
use report::{print_refusal, read_input};
use std::io;
use verdict::check::check;

fn print_verdict(rt: &impl Print, verdict: Result<u64, Fault>) -> io::Result<()> {
    match verdict {
        Ok(_) => println!(rt; "accepted"),
        Err(fault) => print_refusal(rt, fault),
    }
}

fn main(rt: HostRuntime) -> io::Result<()> {
    let mut buffer = [0u8; 65536];
    let count = read_input(&rt, &mut buffer)?;
    print_verdict(&rt, check(&buffer[..count]))
}
