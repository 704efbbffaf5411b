// The sweep program: takes names of schedule files as arguments and writes, for each in turn, a line with its name and then its report.
// Of a file that cannot be read it says so in a line, and goes on with the rest. One store and the depths of its messages are lent to every report: each start clears them.
#![tactic(auto)]

use input::read_full;
use page::report::{Report, write_report};
use rules::store::Store;
use schedule::file::File;
use std::env::FillError;
use std::io::Read;
use std::rt::{Env, Files};
use std::{fs, io};

// The store and the depths of its messages, which every report is lent.
#[derive(Clone, Copy)]
struct Stores {
    store: [u64; Store::LENGTH],
    depths: [u16; Store::LENGTH],
}

// A write that fails ends the program with an error.
fn say(rt: &impl Print, text: &[u8]) -> io::Result<()> {
    rt.write_all(text)
}

fn say_unread(rt: &impl Print, name: &[u8]) -> io::Result<()> {
    say(rt, name)?;
    say(rt, b": cannot be read\n")
}

fn say_report(rt: &impl Print, file: &[u8], stores: &mut Stores) -> io::Result<()> {
    let mut out = [0u8; Report::LONGEST];
    let k = write_report(file, &mut stores.store, &mut stores.depths, &mut out);
    say(rt, &out[..k])
}

// Whether an open file has been read to its end: a read answers 0 there, and nowhere else.
fn at_end<R: Read>(from: &mut R) -> bool {
    let mut next = [0u8; 1];
    matches!(from.read(&mut next), Ok(0))
}

// One byte more than a schedule file may have is read, so that too long a file shows. Any other file must be read to its end.
fn sweep_open<R: Read>(
    rt: &impl Print,
    name: &[u8],
    from: &mut R,
    stores: &mut Stores,
) -> io::Result<()> {
    // Lent arrays of a size that is known: nothing is allocated, so there is nothing that can fail to be.
    let mut file = [0u8; File::LONGEST + 1];
    let n = read_full(from, &mut file);
    if n <= File::LONGEST && !at_end(from) {
        return say_unread(rt, name);
    }
    say(rt, name)?;
    say(rt, b"\n")?;
    say_report(rt, &file[..n], stores)
}

// A name that is not UTF-8 names no file here: a path is text.
fn sweep_name(rt: &(impl Print + Files), name: &[u8], stores: &mut Stores) -> io::Result<()> {
    let Ok(path) = str::from_utf8(name) else {
        return say_unread(rt, name);
    };
    match fs::open(rt, path) {
        Ok(mut file) => sweep_open(rt, name, &mut file, stores),
        Err(_) => say_unread(rt, name),
    }
}

// Sweeps argument i, and answers whether there is one. Of a name that is longer than any file's, the first 4,096 bytes are written.
fn sweep_argument(
    rt: &(impl Print + Files + Env),
    i: usize,
    stores: &mut Stores,
) -> io::Result<bool> {
    let mut name = [0u8; 4096];
    match rt.arg(i, &mut name) {
        Ok(length) => sweep_name(rt, &name[..length], stores)?,
        Err(FillError::TooLong) => say_unread(rt, &name)?,
        Err(FillError::NotPresent) => return Ok(false),
    }
    Ok(true)
}

// Argument 0 is the program's own name.
fn main(rt: HostRuntime) -> io::Result<()> {
    let mut stores = Stores {
        store: [0; Store::LENGTH],
        depths: [0; Store::LENGTH],
    };
    // By number: an iterator over the arguments would give strings, which are allocated.
    for i in 1..usize::MAX {
        if !sweep_argument(&rt, i, &mut stores)? {
            break;
        }
    }
    Ok(())
}
