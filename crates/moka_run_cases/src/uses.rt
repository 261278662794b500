//! Callers of `moka_uses`: that memory suffices, which no clause says.

use bytes::{ByteStr, Bytes};
use moka_uses::{
    Page, Request, Shared, read_back, read_back_shared, read_back_text, read_replaced,
};
use std::test::Fail;

#[test]
fn bytes_are_read_back_under_the_text_of_a_string(rt: HostRuntime) -> Result<(), Fail> {
    let name = ByteStr::from_string(String::from_str(rt.alloc(), "index.html")?)?;
    let body = Bytes::from_static(b"<p>moka</p>");
    let found = read_back_text(rt.alloc(), name, body.clone()?)?;
    assert_eq!(rt; found, Some(body));
    Ok(())
}

#[test]
fn a_shared_text_is_read_back(rt: HostRuntime) -> Result<(), Fail> {
    let text = String::from_str(rt.alloc(), "moka")?;
    let shared = Shared::new(rt.alloc(), text)?;
    let found = read_back_shared(rt.alloc(), 7, shared.clone()?)?;
    assert_eq!(rt;
        found.as_ref().map(|same| same.get().as_str()),
        Some("moka")
    );
    Ok(())
}

#[test]
fn a_struct_and_an_enum_are_taken(rt: HostRuntime) -> Result<(), Fail> {
    let request = Request {
        name: ByteStr::from_static("index.html"),
        tries: 2,
    };
    let page = Page::MovedTo(ByteStr::from_static("home.html"));
    let found = read_back(rt.alloc(), request, page)?;
    assert!(rt; matches!(&found, Some(Page::MovedTo(name)) if name.as_str() == "home.html"));
    Ok(())
}

#[test]
fn a_value_in_the_place_of_another_is_found(rt: HostRuntime) -> Result<(), Fail> {
    let found = read_replaced(rt.alloc(), 7u16, 5u32, 9)?;
    assert_eq!(rt; found, Some(9));
    Ok(())
}
