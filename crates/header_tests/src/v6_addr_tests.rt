//! Texts of the RFCs and the values that a person gave them: what the grammars of `v6_addr` mean,
//! and where each fault of a text stands.

use std::alloc::{AllocError, Global};
use std::test::Fail;
use v6_addr::{Addr, BadAddr, Prefix, parse_addr, parse_addr4, parse_prefix, parse_prefix4};

/// The examples of RFC 5952 sections 1, 2 and 4, in the one text that it recommends.
#[test]
fn addresses_have_one_text(rt: HostRuntime) -> Result<(), Fail> {
    for (text, value) in [
        (
            "2001:db8::1:0:0:1",
            0x2001_0db8_0000_0000_0001_0000_0000_0001_u128,
        ),
        ("2001:db8::2:1", 0x2001_0db8_0000_0000_0000_0000_0002_0001),
        (
            "2001:db8:0:1:1:1:1:1",
            0x2001_0db8_0000_0001_0001_0001_0001_0001,
        ),
        ("2001:0:0:1::1", 0x2001_0000_0000_0001_0000_0000_0000_0001),
        (
            "2001:db8:aaaa:bbbb:cccc:dddd:eeee:1",
            0x2001_0db8_aaaa_bbbb_cccc_dddd_eeee_0001,
        ),
        ("ff01::101", 0xff01_0000_0000_0000_0000_0000_0000_0101),
        ("::1", 1),
        ("::", 0),
    ] {
        let address = Addr { value };
        let written = format!(in rt.alloc(); "{address}")?;
        assert_eq!(rt; written.as_str(), text);
        assert_eq!(rt; parse_addr(text.as_bytes()), Ok(address), "at {text}");
    }
    Ok(())
}

/// Other texts of one of them; and texts of none, each with the length of its longest beginning
/// that some address's text begins with.
#[test]
fn address_texts(rt: HostRuntime) {
    let one = Ok(Addr {
        value: 0x2001_0db8_0000_0000_0001_0000_0000_0001,
    });
    for (text, want) in [
        ("2001:db8:0:0:1:0:0:1", one),
        ("2001:0db8:0:0:1:0:0:1", one),
        ("2001:db8::0:1:0:0:1", one),
        ("2001:db8:0000:0:1::1", one),
        ("2001:DB8:0:0:1:0:0:1", one),
        ("", Err(BadAddr { at: 0 })),
        ("1:2:3:4:5:6:7", Err(BadAddr { at: 13 })),
        ("1:2:3:4:5:6:7:8:9", Err(BadAddr { at: 15 })),
        ("1:2:3:4::5:6:7:8", Err(BadAddr { at: 14 })),
        ("1::2::3", Err(BadAddr { at: 5 })),
        (":::", Err(BadAddr { at: 2 })),
        (":1", Err(BadAddr { at: 1 })),
        ("1:2:3:4:5:6:7:", Err(BadAddr { at: 14 })),
        ("12345::", Err(BadAddr { at: 4 })),
        ("::g", Err(BadAddr { at: 2 })),
        ("::1%1", Err(BadAddr { at: 3 })),
        ("1.2.3.4", Err(BadAddr { at: 1 })),
    ] {
        assert_eq!(rt; parse_addr(text.as_bytes()), want, "at {text}");
    }
}

#[test]
fn ipv4_texts(rt: HostRuntime) {
    for (text, want) in [
        (
            "192.0.2.1",
            Ok(Addr {
                value: 0xc000_0201 << 96,
            }),
        ),
        ("0.0.0.0", Ok(Addr { value: 0 })),
        (
            "255.10.100.9",
            Ok(Addr {
                value: 0xff0a_6409 << 96,
            }),
        ),
        ("", Err(BadAddr { at: 0 })),
        ("256.0.0.1", Err(BadAddr { at: 2 })),
        ("1.02.3.4", Err(BadAddr { at: 3 })),
        ("1.2.3", Err(BadAddr { at: 5 })),
        ("1.2.3.", Err(BadAddr { at: 6 })),
        ("1.2.3.4.5", Err(BadAddr { at: 7 })),
        ("1..2", Err(BadAddr { at: 2 })),
        ("1.2.3.4/8", Err(BadAddr { at: 7 })),
        ("::1", Err(BadAddr { at: 0 })),
    ] {
        assert_eq!(rt; parse_addr4(text.as_bytes()), want, "at {text}");
    }
}

/// A prefix as it is written, or the place of the fault.
fn told(alloc: Global, read: Result<Prefix, BadAddr>) -> Result<String, AllocError> {
    match read {
        Ok(prefix) => format!(in alloc; "{prefix}"),
        Err(BadAddr { at }) => format!(in alloc; "{at}"),
    }
}

/// The examples of RFC 4291 section 2.3, right and wrong, and others: the fault is the whole text's
/// where only a bit after the length is set.
#[test]
fn prefix_texts(rt: HostRuntime) -> Result<(), Fail> {
    for (text, want) in [
        (
            "2001:0DB8:0000:CD30:0000:0000:0000:0000/60",
            "2001:db8:0:cd30::/60",
        ),
        ("2001:0DB8::CD30:0:0:0:0/60", "2001:db8:0:cd30::/60"),
        ("2001:0DB8:0:CD30::/60", "2001:db8:0:cd30::/60"),
        ("::/0", "::/0"),
        ("::1/128", "::1/128"),
        ("2001:0DB8:0:CD3/60", "15"),
        ("2001:0DB8::CD30/60", "18"),
        ("2001:0DB8::CD3/60", "17"),
        ("2001:db8::/28", "13"),
        ("::", "2"),
        ("::/", "3"),
        ("::/00", "4"),
        ("1::/0", "5"),
        ("1::/00", "4"),
        ("::/129", "5"),
        ("::1/13", "6"),
        ("::1/13x", "5"),
        ("::/8/8", "4"),
        ("/8", "0"),
    ] {
        let read = told(rt.alloc(), parse_prefix(text.as_bytes()))?;
        assert_eq!(rt; read.as_str(), want, "at {text}");
    }
    Ok(())
}

/// An IPv4 prefix stands in the top 32 bits.
#[test]
fn ipv4_prefix_texts(rt: HostRuntime) -> Result<(), Fail> {
    for (text, want) in [
        ("192.0.2.0/24", "c000:200::/24"),
        ("192.0.2.0/", "10"),
        ("192.0.2/24", "7"),
        ("192.0.2.0/22", "12"),
        ("192.0.2.0/33", "11"),
        ("192.0.2.0/024", "10"),
        ("192.0.2.0/22x", "11"),
    ] {
        let read = told(rt.alloc(), parse_prefix4(text.as_bytes()))?;
        assert_eq!(rt; read.as_str(), want, "at {text}");
    }
    Ok(())
}
