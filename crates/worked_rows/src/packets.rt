//! Packets that one file has byte by byte, with what must come of each.
//!
//! From `#` on a line is a comment. `packet NAME` begins a packet, lines of hexadecimal digits in
//! lower case are its bytes, and `gives TEXT` says that of `run packets.toml N` over these bytes
//! must come the line `packet 1: TEXT` and the status of a whole run.

ghost use Rattle.std.specs.Prelude.{◌<◌, IfSome};

use crate::row::{file_of, text_of};
use crate::served::served;
use crate::trouble::Trouble;
use srv6_cli::Status;
use srx_edge::{Files, MemFiles};
use std::alloc::Global;

/// The file of packets, and the description of their node.
#[derive(Drop)]
pub(crate) struct PacketFile {
    net: Vec<u8>,
    text: Vec<u8>,
}

/// A packet, and what must come of it.
#[derive(Drop)]
pub(crate) struct Packet<'a> {
    /// Its name.
    pub(crate) name: String,
    bytes: Vec<u8>,
    wanted: &'a str,
}

/// What a line says.
#[derive(Clone, Copy)]
enum Line<'a> {
    /// A packet of this name begins.
    Begins(&'a str),
    /// Digits of its bytes, of which a comment and an empty line have none.
    Digits(&'a str),
    /// What must come of it.
    Gives(&'a str),
}

/// What a line says.
fn line_of(line: &str) -> Line<'_> {
    let said = match line.split_once('#') {
        Some((said, _)) => said.trim(),
        None => line.trim(),
    };
    if let Some(name) = said.strip_prefix("packet ") {
        return Line::Begins(name);
    }
    if let Some(wanted) = said.strip_prefix("gives ") {
        return Line::Gives(wanted);
    }
    Line::Digits(said)
}

/// The value of a hexadecimal digit.
fn digit_of(byte: u8) -> Option<u8>
    ensures { IfSome result (λ digit. digit < 16) }
{
    match byte {
        b'0'..=b'9' => Some(byte - b'0'),
        b'a'..=b'f' => Some(byte - b'a' + 10),
        _ => None,
    }
}

/// Appends the byte of two digits.
fn append_byte(bytes: &mut Vec<u8>, digits: &[u8]) -> Result<(), Trouble> {
    let [high, low] = digits else {
        return Err(Trouble::NotALine("packets"));
    };
    match (digit_of(*high), digit_of(*low)) {
        (Some(high), Some(low)) => {
            bytes.push(16 * high + low)?;
            Ok(())
        }
        _ => Err(Trouble::NotALine("packets")),
    }
}

/// Appends the bytes of digits, two a byte, with a space between bytes.
fn append_digits(bytes: &mut Vec<u8>, digits: &str) -> Result<(), Trouble> {
    for byte in digits.split_whitespace() {
        append_byte(bytes, byte.as_bytes())?;
    }
    Ok(())
}

/// Reads the file of packets, and the description of their node.
pub(crate) fn packet_file<F: Files>(alloc: Global, files: &mut F) -> Result<PacketFile, Trouble> {
    Ok(PacketFile {
        net: file_of(alloc, files, "packets.toml", "packets.toml")?,
        text: file_of(alloc, files, "packets", "packets")?,
    })
}

/// The packets that a file has.
pub(crate) fn packets_in(alloc: Global, file: &PacketFile) -> Result<Vec<Packet<'_>>, Trouble> {
    let text = text_of(file.text.as_slice(), "packets")?;
    let mut packets = Vec::new(alloc);
    let mut name = String::new(alloc);
    let mut bytes = Vec::new(alloc);
    for line in text.lines() {
        match line_of(line) {
            Line::Begins(next) => {
                name = next.to_string(alloc)?;
                bytes.clear();
            }
            Line::Digits(digits) => append_digits(&mut bytes, digits)?,
            Line::Gives(wanted) => packets.push(Packet {
                name: name.clone()?,
                bytes: bytes.clone()?,
                wanted,
            })?,
        }
    }
    Ok(packets)
}

/// Whether of a packet of a file comes what must come.
pub(crate) fn gives(
    alloc: Global,
    file: &PacketFile,
    packet: &Packet<'_>,
) -> Result<bool, Trouble> {
    let mut words = Vec::new(alloc);
    for word in ["run", "packets.toml", "N"] {
        words.push(word.to_string(alloc)?)?;
    }
    let mut files = MemFiles::new(alloc, &[])?;
    files.hold("packets.toml", file.net.as_slice())?;
    let came = served(alloc, words.as_slice(), &mut files, packet.bytes.as_slice())?;
    let wanted = packet.wanted;
    let line = format!(in alloc; "packet 1: {wanted}\n")?;
    Ok(matches!(came.status, Status::Done) && came.err.held() == line.as_bytes())
}
