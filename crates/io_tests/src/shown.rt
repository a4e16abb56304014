//! How a test tells a frame.

use pcap_io::{Body, Frame};
use std::alloc::AllocError;

/// Tells a frame: its number, its kind (6, 4, 1 for a short one and 0 for no packet), and how many
/// bytes its packet has.
pub(crate) fn show(shown: &mut Vec<u8>, frame: &Frame) -> Result<(), AllocError> {
    let (kind, len) = match &frame.body {
        Body::V6(bytes) => (6, bytes.as_slice().len()),
        Body::V4(bytes) => (4, bytes.as_slice().len()),
        Body::ShortFrame => (1, 0),
        Body::NotIp => (0, 0),
    };
    shown.extend_from_slice(&[(frame.number % 256) as u8, kind, (len % 256) as u8])
}
