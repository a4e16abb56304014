//! Talks with the client in memory.
use crate::counting::{LineCounter, count_lines};
use line_talk::{HostClient, MemClient, Status, serve_client};

#[test]
fn lines_are_counted_in_pieces_of_any_size(rt: HostRuntime) {
    let table: [(&[u8], &[u8], u64); 6] = [
        (b"", b"", 0),
        (b"\n", b"1\n", 1),
        (b"a", b"1\n", 1),
        (b"a\n", b"1\n", 1),
        (b"a\r\n\nbb\nccc", b"1\n2\n3\n4\n", 4),
        (
            b"1\n2\n3\n4\n5\n6\n7\n8\n9\n10\n",
            b"1\n2\n3\n4\n5\n6\n7\n8\n9\n0\n",
            10,
        ),
    ];
    for (input, want, lines) in table {
        for most in [1, 2, 3, 65_536] {
            assert!(rt; most > 0);
            let bytes = Vec::from_slice(rt.alloc(), input).expect(&rt, "memory");
            let mut client = MemClient::new(rt.alloc(), bytes, most, u64::MAX);
            let mut counter = LineCounter { count: 0 };
            let status = count_lines(rt.alloc(), &mut counter, &mut client);
            assert_eq!(rt; status, Status::Done);
            assert_eq!(rt; client.taken(), want);
            assert_eq!(rt; counter.count, lines);
        }
    }
}

#[test]
fn each_call_that_fails_leaves_a_front(rt: HostRuntime) {
    // Two reads give a line each, and the third finds the end; each reply goes out in one write.
    let table: [(u64, Status, &[u8]); 6] = [
        (0, Status::ReadFailed, b""),
        (1, Status::WriteFailed, b""),
        (2, Status::ReadFailed, b"1\n"),
        (3, Status::WriteFailed, b"1\n"),
        (4, Status::ReadFailed, b"1\n2\n"),
        (5, Status::Done, b"1\n2\n"),
    ];
    for (passes, want, said) in table {
        let bytes = Vec::from_slice(rt.alloc(), b"a\nb\n").expect(&rt, "memory");
        let mut client = MemClient::new(rt.alloc(), bytes, 2, passes);
        let mut counter = LineCounter { count: 0 };
        let status = count_lines(rt.alloc(), &mut counter, &mut client);
        assert_eq!(rt; status, want);
        assert_eq!(rt; client.taken(), said);
    }
}

#[test]
fn streams_of_std_are_a_client(rt: HostRuntime) {
    let input: &[u8] = b"a\nb";
    let mut out = Vec::new(rt.alloc());
    let mut counter = LineCounter { count: 8 };
    let status = serve_client(
        rt.alloc(),
        &mut counter,
        &mut HostClient::new(input, &mut out),
    );
    assert_eq!(rt; status, Status::Done);
    assert_eq!(rt; out.as_slice(), b"9\n0\n".as_slice());
}

#[test]
fn statuses_have_their_numbers(rt: HostRuntime) {
    for (status, want) in [
        (Status::Done, 0),
        (Status::ReadFailed, 5),
        (Status::WriteFailed, 5),
        (Status::NoMemory, 6),
        (Status::Endless, 5),
    ] {
        assert_eq!(rt; status.exit_number(), want);
    }
}
