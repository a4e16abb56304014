/// Four nodes in a row, two links between the second and the third, and the routes to the locators
/// of the second and the last; the last has a table of its own after a link that leaves the
/// network. SIDs may stand after it.
pub const ROW: &str = r#"
node = [
    { name = "A", address = "2001:db8::a" },
    { name = "B", address = "2001:db8::b" },
    { name = "C", address = "2001:db8::c" },
    { name = "D", address = "2001:db8::d" },
]
link = [
    { name = "ab", from = "A", to = "B" },
    { name = "bc1", from = "B", to = "C" },
    { name = "bc2", from = "B", to = "C" },
    { name = "cd", from = "C", to = "D" },
    { name = "ce", from = "D" },
]
route = [
    { node = "A", prefix = "fcbb:bb00:2::/48", via = ["ab"] },
    { node = "A", prefix = "fcbb:bb00:4::/48", via = ["ab"] },
    { node = "B", prefix = "fcbb:bb00:4::/48", via = ["bc1", "bc2"] },
    { node = "C", prefix = "fcbb:bb00:4::/48", via = ["cd"] },
    { node = "D", table = 100, prefix = "::/0", via = ["ce"] },
]
"#;

/// A block of NEXT-CSIDs of 16 bits, and End of it at the second node of `ROW` and at the last.
pub const NEXT_SIDS: &str = r#"
block = [{ prefix = "fcbb:bb00::/32", kind = "next", csid = 16 }]
sid = [
    { node = "B", prefix = "fcbb:bb00:2::/48", behaviour = "End", csid = "next" },
    { node = "D", prefix = "fcbb:bb00:4::/48", behaviour = "End", csid = "next" },
]
"#;
