//! The outside of a call of `serve` in memory: the files, a packet as the input, two sinks, and
//! which of their calls fail.

use srv6_cli::{Status, serve};
use srx_edge::{MemFiles, MemSink, MemSource, Sink, Source};
use std::alloc::{AllocError, Global};
use std::test::Fail;

/// A, B and C in a row, and a SID of C that hands packets of both families over.
pub const NET: &str = r#"
node = [
    { name = "A", address = "2001:db8::a" },
    { name = "B", address = "2001:db8::b" },
    { name = "C", address = "2001:db8::c" },
]
link = [
    { name = "ab", from = "A", to = "B" },
    { name = "bc", from = "B", to = "C" },
    { name = "out", from = "C" },
]
route = [
    { node = "A", prefix = "fcbb:bb00::/32", via = ["ab"] },
    { node = "B", prefix = "fcbb:bb00::/32", via = ["bc"] },
    { node = "C", table = 100, prefix = "::/0", via = ["out"] },
    { node = "C", table = 100, prefix = "0.0.0.0/0", via = ["out"] },
]
sid = [
    { node = "C", prefix = "fcbb:bb00:f001::/48", behaviour = "End.DT46", title = "vpn", table = 100 },
]
"#;

/// Over both links to the SID of C. B lowers the outer hop limit once, so 1 isn't enough.
const INTENT: &str = r#"
headend = "A"
source = "2001:db8::a"
inner = "ipv6"
mode = "reduced"
hop_limit = 1
step = [{ links = ["ab"] }, { links = ["bc"] }, { function = "vpn" }]
"#;

/// The same with an outer hop limit that is enough.
const ENOUGH: &str = r#"
headend = "A"
source = "2001:db8::a"
inner = "ipv6"
mode = "reduced"
hop_limit = 2
step = [{ links = ["ab"] }, { links = ["bc"] }, { function = "vpn" }]
"#;

/// The certificate of that list: the only path from the start to the end.
const CERT: &str = "srv6 certificate 1\npotential 0 - 0 1 1\npath new fcbb:bb00:f001::/48\nend\n";

/// To the SID of C, with nothing after the header: hop limit 64, next header 59.
const PACKET: &str = "\
    6000000000003b4020010db8000100000000000000000001fcbbbb00f00100000000000000000000";

/// The call that fails of the files, the input, `out` and `err`, counted from 1; 0: none.
#[derive(Drop)]
pub struct Faults {
    pub files: u64,
    pub input: u64,
    pub out: u64,
    pub err: u64,
}

/// Nothing fails.
pub const NONE: Faults = Faults {
    files: 0,
    input: 0,
    out: 0,
    err: 0,
};

/// What came of a command.
#[derive(Drop)]
pub struct Ran {
    pub status: Status,
    pub out: Vec<u8>,
    pub err: Vec<u8>,
}

/// The words of a command.
fn words_of(alloc: Global, words: &[&str]) -> Result<Vec<String>, AllocError> {
    let mut list = Vec::new(alloc);
    for word in words {
        list.push(String::from_str(alloc, *word)?)?;
    }
    Ok(list)
}

/// Files of these names and texts, of which the read of this number fails.
pub fn holding(alloc: Global, fails: u64, held: &[(&str, &str)]) -> Result<MemFiles, Fail> {
    let mut files = MemFiles::new(alloc, &[fails])?;
    for (name, text) in held {
        if !files.holds(*name) {
            files.hold(*name, (*text).as_bytes())?;
        }
    }
    Ok(files)
}

/// The files, of which the read of this number fails.
pub fn files_of(alloc: Global, fails: u64) -> Result<MemFiles, Fail> {
    let held = [
        ("net.toml", NET),
        ("intent.toml", INTENT),
        ("enough.toml", ENOUGH),
        ("none", "srv6 trace 1\nend\n"),
        ("cert", CERT),
    ];
    holding(alloc, fails, &held)
}

/// Runs a command over files, and any input and sinks.
pub fn served<S: Source, O: Sink, E: Sink>(
    alloc: Global,
    words: &[&str],
    files: MemFiles,
    input: &mut S,
    out: &mut O,
    err: &mut E,
) -> Result<Status, Fail> {
    let words = words_of(alloc, words)?;
    let mut files = files;
    Ok(serve(alloc, words.as_slice(), &mut files, input, out, err))
}

/// Runs a command over files and an input where these calls of the sinks fail.
pub fn serve_over(
    alloc: Global,
    words: &[&str],
    files: MemFiles,
    input: MemSource,
    faults: &Faults,
) -> Result<Ran, Fail> {
    let mut input = input;
    let mut out = MemSink::new(alloc, &[faults.out])?;
    let mut err = MemSink::new(alloc, &[faults.err])?;
    let status = served(alloc, words, files, &mut input, &mut out, &mut err)?;
    Ok(Ran {
        status,
        out: out.held().to_vec(alloc)?,
        err: err.held().to_vec(alloc)?,
    })
}

/// Runs a command over the packet where these calls fail.
pub fn serve_words(alloc: Global, words: &[&str], faults: &Faults) -> Result<Ran, Fail> {
    let files = files_of(alloc, faults.files)?;
    let packet = hex::decode(alloc, PACKET)?;
    let input = MemSource::new(alloc, packet.as_slice(), &[faults.input])?;
    serve_over(alloc, words, files, input, faults)
}
