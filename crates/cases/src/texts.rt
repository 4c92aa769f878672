//! The text of whole, torn and long logs, and of their pages.
use dump::dump;
use page_text::page_text;
use std::process::Abort;
use std::test::Fail;

fn text_is(rt: &(impl Abort + AllocGlobal), log: &[u8], text: &str) -> Result<(), Fail> {
    assert!(rt; dump(rt.alloc(), log)?.as_str() == text);
    Ok(())
}

fn page_is(rt: &(impl Abort + AllocGlobal), log: &[u8], text: &str) -> Result<(), Fail> {
    assert!(rt; page_text(rt.alloc(), log)?.as_str() == text);
    Ok(())
}

#[test]
fn of_logs(rt: HostRuntime) -> Result<(), Fail> {
    text_is(&rt, b"", "records 0\n")?;
    text_is(
        &rt,
        b"\x02\x00\x04\x01",
        "0 kind 0\n1 console 1\nrecords 2\n",
    )?;
    text_is(&rt, b"\x02\x07\x10\x03AB", "0 kind 7\nfault 1 4 1 6\n")?;
    text_is(&rt, b"\x02\x07\x00", "0 kind 7\nfault 1 3 1 2\n")?;
    text_is(&rt, b"\x02\x07\x10\x03A\x7FB", "0 kind 7\nfault 1 5 1 5\n")
}

#[test]
fn of_pages(rt: HostRuntime) -> Result<(), Fail> {
    page_is(&rt, b"", "8 0 0\n")?;
    page_is(&rt, b"\x02\x07\x10\x02A \x10\x02A ", "8 2 0\nA  2 2\n")?;
    page_is(&rt, b"\x10\x01A\x10\x03AB", "fault 1 4 1 7\n")
}

/// Of more bytes than the bound there is one text alone.
#[test]
fn of_long_logs(rt: HostRuntime) -> Result<(), Fail> {
    let most = vec![in rt.alloc(); 0u8; 65_536]?;
    let more = vec![in rt.alloc(); 0u8; 65_537]?;
    text_is(&rt, &most, "fault 1 3 0 0\n")?;
    page_is(&rt, &most, "fault 1 3 0 0\n")?;
    text_is(&rt, &more, "long\n")?;
    page_is(&rt, &more, "long\n")
}
