//! A reply that only a server without memory gives.
use fsl_http::reply;
use fsl_outside::MemoryLink;
use std::alloc::Global;

/// Whether a link takes this reply.
fn takes_reply(alloc: Global, want: &[u8]) -> bool {
    let mut link = MemoryLink::new(alloc, Vec::new(alloc), Vec::new(alloc));
    let done = reply(&mut link, 503, b"").is_ok();
    done && link.sent() == want
}

#[test]
fn a_reply_may_be_that_there_is_no_memory(rt: HostRuntime) {
    let want =
        b"HTTP/1.1 503 Service Unavailable\r\nContent-Length: 0\r\nConnection: close\r\n\r\n";
    assert!(rt; takes_reply(rt.alloc(), want));
}
