// Codes and spans on examples.

use crate::faults::SpanFault;
use crate::kinds::Reading;
use crate::spans::Span;

#[test]
fn codes_agree_when_equal_or_blank(rt: HostRuntime) {
    assert!(rt; 3u8.agrees(&3));
    assert!(rt; !3u8.agrees(&4));
    assert!(rt; 3u8.agrees(&255) && 255u8.agrees(&4));
    assert!(rt; 255u8.is_blank() && !0u8.is_blank());
}

fn shares(a: u16, b: u16, c: u16, d: u16) -> Result<bool, SpanFault> {
    let x = Span::new(a, b)?;
    let y = Span::new(c, d)?;
    Ok(x.agrees(&y))
}

#[test]
fn spans_agree_when_they_share_a_number(rt: HostRuntime) {
    assert!(rt; shares(10, 20, 20, 30).unwrap_or(false));
    assert!(rt; !shares(10, 19, 20, 30).unwrap_or(true));
    assert!(rt; shares(0, 65535, 7, 7).unwrap_or(false));
}

#[test]
fn a_span_is_never_backward(rt: HostRuntime) {
    assert!(rt; Span::new(9, 8).is_err());
    assert!(rt; Span::new(9, 9).is_ok());
}
