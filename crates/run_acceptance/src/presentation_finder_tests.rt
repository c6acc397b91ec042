//! Presentations that are found of codes alone.
use octal_code::Code;
use presentation_finder::{find_presentation, present_code};

/// The presentation of 0.404 to heap 12.
const PRESENTED: &[u8] =
    b"mqp 1\ncode 0.404\nheaps 12\nletters 3 5 9 11 12\nwords 1 1 a a b b ab ab c a d e\nrelation a^2 1\nrelation b^3 b\nrelation abc^3 bc^2e\nrelation bc^4 bc^2\nrelation bd ab\nrelation d^2 b^2\nrelation be^2 b\nrelation c^3e ac^2\nrelation abc^2e bc^3\ncycle 2:1 3:1 3:2 2:1 2:2\nportion a ae b^2 c^2 de acd ae^2 bce ae^3 b^2c^2 c^4 c^2e^2 de^3 ac^3d ac^2de^2\nend\n";

#[test]
fn an_infinite_quotient_is_found(rt: HostRuntime) {
    let Ok(code) = Code::read(b"0.404") else {
        assert!(rt; false);
        return;
    };
    match find_presentation(rt.alloc(), &code, 12) {
        Ok(Ok(found)) => assert!(rt; found.into_text().as_slice() == PRESENTED),
        _ => assert!(rt; false),
    }
}

/// The presentation of 0.354 to heap 5.
const LEARNED: &[u8] =
    b"mqp 1\ncode 0.354\nheaps 5\nletters 1 2 4 5\nwords a b c^2 c d\nrelation a^2 1\nrelation bc^5 ab^3c^2\nrelation b^2d abc\nrelation c^3d^2 ac^2\nrelation c^2d^3 acd\nrelation cd^4 ad^2\nrelation bc^4d b^2c^2\ncycle 2:1 2:2 5:2 4:6\nportion a d b^2 bc c^2 ad^2 d^3 abcd ac^3 b^3c b^2c^2 bc^2d c^4 c^2d^2 acd^3 bd^4 ab^2c^3 abc^3d ac^5 b^2c^4 c^6 abd^5 bd^6 d^7 ad^8 d^9\nend\n";

#[test]
fn a_presentation_is_learned_from_the_code(rt: HostRuntime) {
    let Ok(code) = Code::read(b"0.354") else {
        assert!(rt; false);
        return;
    };
    match present_code(rt.alloc(), &code, 5) {
        Ok(Some(found)) => assert!(rt; found.into_text().as_slice() == LEARNED),
        _ => assert!(rt; false),
    }
}
