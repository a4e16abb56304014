//! Whether the packet of a frame is to come, has entered, or is gone.

use pcap_io::Body;

/// The packet of a frame while the tables pass from one description to another.
#[derive(Debug, Drop)]
pub enum Seat {
    /// It is to come; what the frame holds.
    ToCome(Body),
    /// It entered, with this number among those that did.
    Entered(u32),
    /// It does not come: it stayed at the headend.
    Gone,
}
