//! Each public call once, where want of memory would otherwise pass.

use crate::id::Id;
use crate::line::read_request;
use crate::reply::{Answer, Compiled, ListReply, PathSid};
use crate::text::Text;
use crate::write::write_reply;
use base::Seq;
use std::test::Fail;
use v6_addr::{Addr, Prefix};

#[test]
fn lines_are_read(rt: HostRuntime) -> Result<(), Fail> {
    for line in [
        "{\"do\":\"version\"}",
        "{\"do\":\"drop\",\"as\":\"n\",\"id\":-7}",
        "{\"d\\u006f\":\"drop\",\"as\":\"n\",\"id\":\"a\\n\"}",
        "{\"do\":\"load\",\"as\":\"n\",\"file\":\"net.toml\"}",
        "{\"do\":\"without\",\"from\":\"n\",\"as\":\"m\",\"links\":[\"ab\"],\"nodes\":[]}",
        "{\"do\":\"compile\",\"in\":\"n\",\"intent\":\"\",\"certificate\":true}",
        "{\"do\":\"judge\",\"in\":\"n\",\"intent\":\"\",\"list\":[\"::1\"]}",
        "{\"do\":\"trace\",\"in\":\"n\",\"node\":\"B\",\"packet\":\"6A\",\"choices\":[1]}",
    ] {
        let read = read_request(rt.alloc(), line.as_bytes());
        assert!(rt; read.request.is_ok());
    }
    for line in [
        "[1]",
        "{\"id\":1.0,\"do\":\"none\"}",
        "{\"id\":true,\"do\":\"none\"}",
        "{\"do\":\"compile\",\"intents\":\"\"}",
        "{\"do\":\"load\",\"as\":\"n\"}",
    ] {
        let read = read_request(rt.alloc(), line.as_bytes());
        assert!(rt; read.request.is_err());
    }
    Ok(())
}

#[test]
fn a_compiled_list_is_written(rt: HostRuntime) -> Result<(), Fail> {
    let alloc = rt.alloc();
    let segment = Addr {
        value: 0xfcbb_bb00_0002 << 80,
    };
    let prefix = Prefix::new(segment, 48).expect(&rt, "a prefix");
    let mut path = Vec::new(alloc);
    path.push(PathSid {
        prefix,
        stays: false,
    })?;
    let mut segments = Vec::new(alloc);
    segments.push(segment)?;
    let list = ListReply {
        containers: 1,
        header: 40,
        need: 3,
        path: Seq::new(path),
        segments: Seq::new(segments),
        sids: 1,
    };
    let certificate = Text::new(String::from_str(alloc, "end\n")?);
    let reply = Ok(Answer::Compiled(Compiled::TooLong(list), Some(certificate)));
    let text = write_reply(alloc, &Id::Unsigned(3), &reply)?;
    let wanted =
        "{\"id\":3,\"ok\":{\"answer\":\"TooLong\",\"certificate\":\"end\\n\",\"containers\":1,\
        \"header\":40,\"need\":3,\"path\":[{\"prefix\":\"fcbb:bb00:2::/48\",\"stays\":false}],\
        \"segments\":[\"fcbb:bb00:2::\"],\"sids\":1}}";
    assert_eq!(rt; text.as_slice(), wanted.as_bytes());
    Ok(())
}
