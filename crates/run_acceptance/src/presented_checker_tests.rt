//! Presentations that are checked: Nim with heaps of 1 and 2, the code 0.33 up to heap 2. Its quotient is
//! ⟨a, b | a² = 1, b³ = b⟩, and its P-portion {a, b²} (Plambeck and Siegel).
use given_quotients::{begins_presented, judged_presented};
use presented_checker::{PresentedQuotient, check_presented};
use std::alloc::Global;
use verdict_commands::yes_text;

/// Whether the line of a quotient is this one, if memory allows.
fn is_line(alloc: Global, quotient: &PresentedQuotient, line: &[u8]) -> bool {
    match yes_text(alloc, quotient) {
        Ok(text) => text.as_bytes() == line,
        Err(_) => false,
    }
}

/// Whether this line is said of a text, if memory allows.
fn is_said(alloc: Global, text: &[u8], line: &[u8]) -> bool {
    match judged_presented(alloc, text) {
        Ok(Ok(quotient)) => is_line(alloc, &quotient, line),
        Ok(Err(no)) => no.as_slice() == line,
        Err(_) => false,
    }
}

#[test]
fn nim_is_presented(rt: HostRuntime) {
    let text =
        b"mqp 1\ncode 0.33\nheaps 2\nletters 1 2\nwords a b\nrelation a^2 1\nrelation b^3 b\ncycle 2:1 3:1\nportion a b^2\nend\n";
    assert!(rt; begins_presented(text));
    assert!(rt; is_said(rt.alloc(), text, b"yes 0.33 order 6 heaps 2\n"));
    match check_presented(rt.alloc(), text) {
        Ok(quotient) => {
            assert_eq!(rt; quotient.order(), Some(6));
            assert_eq!(rt; quotient.heaps(), 2);
        }
        Err(_) => assert!(rt; false),
    }
}

#[test]
fn wrong_presentations_are_refused(rt: HostRuntime) {
    // A letter without a cycle.
    let text =
        b"mqp 1\ncode 0.33\nheaps 2\nletters 1 2\nwords a b\nrelation a^2 1\nrelation b^3 b\ncycle 2:1\nportion a b^2\nend\n";
    assert!(rt; is_said(rt.alloc(), text, b"no 1 Text\n"));
    // a³b is b and ab.
    let text =
        b"mqp 1\ncode 0.33\nheaps 2\nletters 1 2\nwords a b\nrelation a^3 1\nrelation a^2b b\nrelation b^3 b\ncycle 2:1 3:1\nportion a b^2\nend\n";
    assert!(rt; is_said(rt.alloc(), text, b"no 2 Law\n"));
    // b has no power among the left words; and b⁴ is said to be N, and leads to no P.
    let text =
        b"mqp 1\ncode 0.33\nheaps 2\nletters 1 2\nwords a b\nrelation a^2 1\ncycle 2:1 3:1\nportion a b^2\nend\n";
    assert!(rt;
        is_said(
            rt.alloc(),
            text,
            b"no 7 Outcome\nrule fails at 2 2 2 2\noutcome P\n"
        )
    );
    // Heap 1 is left out, and heap 2 leads to it.
    let text =
        b"mqp 1\ncode 0.33\nheaps 2\nletters 2\nwords - a\nrelation a^2 1\ncycle 2:1\nportion a\nend\n";
    assert!(rt; is_said(rt.alloc(), text, b"no 31 Part\n"));
    // b² is P.
    let text =
        b"mqp 1\ncode 0.33\nheaps 2\nletters 1 2\nwords a b\nrelation a^2 1\nrelation b^3 b\ncycle 2:1 3:1\nportion a\nend\n";
    assert!(rt;
        is_said(
            rt.alloc(),
            text,
            b"no 7 Outcome\nrule fails at 2 2\noutcome P\n"
        )
    );
    // b³ is another word than b, but no position tells them apart.
    let text =
        b"mqp 1\ncode 0.33\nheaps 2\nletters 1 2\nwords a b\nrelation a^2 1\nrelation b^5 b^3\ncycle 2:1 3:2\nportion a b^2 b^4\nend\n";
    assert!(rt; is_said(rt.alloc(), text, b"no 33 Undecided\n"));
    // The portion repeats along a from 2 on, and isn't said to from 3 on.
    let text =
        b"mqp 1\ncode 0.33\nheaps 2\nletters 1 2\nwords a b\nrelation a^2 1\nrelation b^3 b\ncycle 3:1 3:1\nportion a b^2\nend\n";
    assert!(rt; is_said(rt.alloc(), text, b"no 33 Undecided\n"));
    // The list ends with a heap that has no word.
    let text =
        b"mqp 1\ncode 0.33\nheaps 3\nletters 1 2\nwords a b -\nrelation a^2 1\nrelation b^3 b\ncycle 2:1 3:1\nportion a b^2\nend\n";
    assert!(rt; is_said(rt.alloc(), text, b"no 33 Undecided\n"));
}

#[test]
fn whole_games_are_presented(rt: HostRuntime) {
    // Each move takes one counter: the positions with an odd number of them are P.
    let text =
        b"mqp 1\ncode 0.3\nheaps 2 period 2\nletters 1\nwords a 1\nrelation a^2 1\ncycle 2:1\nportion a\nend\n";
    assert!(rt; is_said(rt.alloc(), text, b"yes 0.3 order 2 start 1 period 2\n"));
    match check_presented(rt.alloc(), text) {
        Ok(quotient) => {
            assert_eq!(rt; quotient.heaps(), 2);
            assert_eq!(rt; quotient.period(), 2);
        }
        Err(_) => assert!(rt; false),
    }
    // Heap 3 leads to heap 2, which is left out.
    let text =
        b"mqp 1\ncode 0.3\nheaps 2 period 2\nletters 1\nwords a -\nrelation a^2 1\ncycle 2:1\nportion a\nend\n";
    assert!(rt; is_said(rt.alloc(), text, b"no 31 Part\n"));
    // Heap 4 leads to heap 3 alone, which is P.
    let text =
        b"mqp 1\ncode 0.3\nheaps 3 period 3\nletters 1\nwords a 1 a\nrelation a^2 1\ncycle 2:1\nportion a\nend\n";
    assert!(rt;
        is_said(
            rt.alloc(),
            text,
            b"no 7 Outcome\nrule fails at 4\noutcome N\n"
        )
    );
}
