// The report program: runs the script on standard input, and prints the lit time of each driver's cathodes on standard output.
#![tactic(auto)]

use std::io::{self, Write};

fn main(rt: HostRuntime) -> io::Result<()> {
    // One byte more than the longest script tells that a script is too long.
    let mut input = [0u8; 65537];
    let n = match streams::fill(&mut rt.stdin(), &mut input) {
        Ok(n) => n,
        Err(_) => return eprintln!(rt; "report: standard input can't be read to its end"),
    };
    let mut output = [0u8; 3328];
    let length = report_lines::print_report(&input[..n], &mut output);
    match rt.stdout().write_all(&output[..length]) {
        Ok(()) => Ok(()),
        Err(_) => eprintln!(rt; "report: standard output can't be written"),
    }
}
