// The report program: reads a schedule file on standard input, runs it over a store of its own and the depths of its messages, and writes its report on standard output, nothing else.
// It holds the arrays and lends them; what a report says is in the crate page. One byte more than a file may have is read, so that too long a file shows.
#![tactic(auto)]

use input::read_full;
use page::report::{Report, write_report};
use rules::store::Store;
use schedule::file::File;
use std::io;

// A read that fails is the end of the input. A write that fails ends the program with an error.
fn main(rt: HostRuntime) -> io::Result<()> {
    // All of it is of a size that is known, and nothing is allocated: so there is nothing that can fail to be.
    let mut file = [0u8; File::LONGEST + 1];
    let mut store = [0u64; Store::LENGTH];
    let mut depths = [0u16; Store::LENGTH];
    let mut out = [0u8; Report::LONGEST];
    let mut stdin = rt.stdin();
    let n = read_full(&mut stdin, &mut file);
    let k = write_report(&file[..n], &mut store, &mut depths, &mut out);
    rt.write_all(&out[..k])
}
