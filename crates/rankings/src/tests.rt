//! Both rankings on examples, at the ends of their ranges too.

use super::*;

/// The bytes of the four classes.
const REQUIRED: u8 = Class::Required as u8;

const STRONG: u8 = Class::Strong as u8;

const MEDIUM: u8 = Class::Medium as u8;

const WEAK: u8 = Class::Weak as u8;

#[test]
fn classes_rank_by_number(rt: HostRuntime) {
    let cases = [
        (REQUIRED, STRONG, Ordering::Less),
        (STRONG, STRONG, Ordering::Equal),
        (WEAK, MEDIUM, Ordering::Greater),
        (0, 3, Ordering::Less),
    ];
    for (a, b, order) in cases {
        assert_eq!(rt; Classes.compare(a, b), order);
    }
    assert!(rt; Classes.knows(REQUIRED) && Classes.knows(WEAK));
    assert!(rt; !Classes.knows(4) && !Classes.knows(255));
}

#[test]
fn dates_rank_before_classes(rt: HostRuntime) {
    let early_weak = DatedStrength {
        day: 7,
        class: WEAK,
    };
    let late_required = DatedStrength {
        day: 8,
        class: REQUIRED,
    };
    let late_weak = DatedStrength {
        day: 8,
        class: WEAK,
    };
    assert_eq!(rt; Dated.compare(early_weak, late_required), Ordering::Less);
    assert_eq!(rt; Dated.compare(late_required, early_weak), Ordering::Greater);
    assert_eq!(rt; Dated.compare(late_required, late_weak), Ordering::Less);
    assert_eq!(rt; Dated.compare(late_weak, late_weak), Ordering::Equal);
    assert!(rt;
        Dated.knows(DatedStrength {
            day: 65535,
            class: WEAK,
        })
    );
    assert!(rt; !Dated.knows(DatedStrength { day: 0, class: 4 }));
}
