// The steps on a pair as it stands in its line, and on one whose parts are trimmed.
use crate::steps::{root_after, root_after_trimming, values_after, values_after_trimming};
use config_lines::kinds::{LineKind, kind_of};
use rules::{MaxLineLen, Resolved};

#[test]
fn a_pair_counts_as_it_stands_or_trimmed(rt: HostRuntime) {
    let spaced = kind_of(b"root = true");
    assert_eq!(rt; spaced, Some(LineKind::Pair(b"root ", b" true")));
    assert!(rt; !root_after(false, spaced));
    assert!(rt; root_after_trimming(false, spaced));
    let plain = Some(LineKind::Pair(b"ROOT", b"true"));
    assert!(rt; root_after(false, plain));
    assert!(rt; root_after_trimming(false, plain));

    let none = Resolved::default();
    let eighty = Some(MaxLineLen::Value(80));
    let spaced = kind_of(b"max_line_length = 80");
    assert_eq!(rt; values_after(true, none, spaced).max, None);
    assert_eq!(rt; values_after_trimming(true, none, spaced).max, eighty);
    let plain = Some(LineKind::Pair(b"max_line_length", b"80"));
    assert_eq!(rt; values_after(true, none, plain).max, eighty);
    assert_eq!(rt; values_after(false, none, plain).max, None);
}
