//! The worked rows of the program `srv6`: what it must write for words, files and an input.
//!
//! `data/rows` lists the rows, a folder of `data/` a line, in the order in which they are run. A
//! row has the files `args` (one word a line), `stdin`, and what must come: `stdout`, `stderr` and
//! `status`, a decimal number. Beside them lie the files that its words name; a word that names no
//! file there is of a file that is missing, or of none. Each row is run by `serve` over files, an
//! input and outputs in memory.
//!
//! `data/packets` has packets byte by byte, and with each what must come of it at the node of
//! `data/packets.toml`.
//!
//! One line is printed for each row that differs: its name, and which of `out`, `err` and `status`
//! is another than what must come, or why the row was not run; and one for each packet of which
//! another line comes. The last two lines count the rows and the packets, and those that differ.
//! The exit status is 0.
//!
//! No contract says what the rows must give: what refuses a change of `srv6` is the output that is
//! expected of this program, and its own wrong bodies are those that the prover refuses as unsafe
//! or endless. One row, `wrong-on-purpose/another-status`, wants another status than comes, and so
//! differs in the status alone.
#![tactic(auto)]

mod compared;
mod packets;
mod row;
mod served;
mod trouble;

use compared::{Difference, compare};
use packets::{Packet, PacketFile, gives, packet_file, packets_in};
use row::{file_of, text_of};
use srx_edge::HostFiles;
use std::io;
use trouble::Trouble;

/// How many rows or packets were run, and how many of them differed.
#[derive(Clone, Copy)]
struct Counts {
    run: u64,
    differ: u64,
}

/// Prints a row that differs, with what differs.
fn print_difference(rt: &impl Print, name: &str, difference: &Difference) -> io::Result<()> {
    print!(rt; "{name}:")?;
    if difference.out {
        print!(rt; " out")?;
    }
    if difference.err {
        print!(rt; " err")?;
    }
    if difference.status {
        print!(rt; " status")?;
    }
    println!(rt; "")
}

/// Prints why a row was not run.
fn print_trouble(rt: &impl Print, name: &str, trouble: &Trouble) -> io::Result<()> {
    match trouble {
        Trouble::Unread(file) => println!(rt; "{name}: {file} was not read"),
        Trouble::NotText(file) => println!(rt; "{name}: {file} is no text"),
        Trouble::NotALine(file) => println!(rt; "{name}: {file} has a line that is none"),
        Trouble::TooBig(file) => println!(rt; "{name}: {file} is too big"),
        Trouble::NoMemory => println!(rt; "{name}: no memory"),
    }
}

/// Runs a row, and prints it if it differs; answers whether it does.
fn differs(rt: &HostRuntime, name: &str) -> io::Result<bool> {
    match compare(rt.alloc(), &mut HostFiles::new(rt), name) {
        Ok(difference) if difference.is_none() => Ok(false),
        Ok(difference) => {
            print_difference(rt, name, &difference)?;
            Ok(true)
        }
        Err(trouble) => {
            print_trouble(rt, name, &trouble)?;
            Ok(true)
        }
    }
}

/// Runs the rows of a list, a name a line; an empty line is none.
fn run_rows(rt: &HostRuntime, list: &str) -> io::Result<Counts> {
    let mut counts = Counts { run: 0, differ: 0 };
    for name in list.lines() {
        if name.is_empty() {
            continue;
        }
        counts.run = counts.run.saturating_add(1);
        if differs(rt, name)? {
            counts.differ = counts.differ.saturating_add(1);
        }
    }
    Ok(counts)
}

/// Runs a packet, and prints it if another line comes; answers whether one does.
fn packet_differs(rt: &HostRuntime, file: &PacketFile, packet: &Packet<'_>) -> io::Result<bool> {
    let name = packet.name.as_str();
    match gives(rt.alloc(), file, packet) {
        Ok(true) => Ok(false),
        Ok(false) => {
            println!(rt; "{name}: another line")?;
            Ok(true)
        }
        Err(trouble) => {
            print_trouble(rt, name, &trouble)?;
            Ok(true)
        }
    }
}

/// Runs the packets of a file.
fn run_packets(rt: &HostRuntime, file: &PacketFile, packets: &[Packet<'_>]) -> io::Result<Counts> {
    let mut counts = Counts { run: 0, differ: 0 };
    for packet in packets {
        counts.run = counts.run.saturating_add(1);
        if packet_differs(rt, file, packet)? {
            counts.differ = counts.differ.saturating_add(1);
        }
    }
    Ok(counts)
}

/// Prints how many rows or packets were run, and how many of them differed.
fn print_counts(rt: &impl Print, what: &str, counts: Counts) -> io::Result<()> {
    let (run, differ) = (counts.run, counts.differ);
    if differ == 1 {
        println!(rt; "{run} {what}, 1 differs")
    } else {
        println!(rt; "{run} {what}, {differ} differ")
    }
}

/// Runs all rows that `rows` lists.
fn all_rows(rt: &HostRuntime) -> io::Result<()> {
    let list = match file_of(rt.alloc(), &mut HostFiles::new(rt), "rows", "rows") {
        Ok(list) => list,
        Err(trouble) => return print_trouble(rt, "rows", &trouble),
    };
    match text_of(&list, "rows") {
        Ok(list) => print_counts(rt, "rows", run_rows(rt, list)?),
        Err(trouble) => print_trouble(rt, "rows", &trouble),
    }
}

/// Runs all packets of `packets`.
fn all_packets(rt: &HostRuntime) -> io::Result<()> {
    let file = match packet_file(rt.alloc(), &mut HostFiles::new(rt)) {
        Ok(file) => file,
        Err(trouble) => return print_trouble(rt, "packets", &trouble),
    };
    match packets_in(rt.alloc(), &file) {
        Ok(packets) => print_counts(rt, "packets", run_packets(rt, &file, packets.as_slice())?),
        Err(trouble) => print_trouble(rt, "packets", &trouble),
    }
}

/// Runs all rows, and then all packets.
fn main(rt: HostRuntime) -> io::Result<()> {
    all_rows(&rt)?;
    all_packets(&rt)
}
