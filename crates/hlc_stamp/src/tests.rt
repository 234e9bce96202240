use super::*;

#[test]
fn stamps_are_ordered_by_wall_time_and_then_by_count(rt: HostRuntime) {
    // Each stamp is earlier than the next.
    let ascending = [
        Stamp::EMPTY,
        Stamp {
            wall: 0,
            logical: 1,
        },
        Stamp {
            wall: 9,
            logical: 7,
        },
        Stamp {
            wall: 10,
            logical: 0,
        },
        Stamp {
            wall: 10,
            logical: 1,
        },
    ];
    for (i, a) in ascending.iter().enumerate() {
        for (j, b) in ascending.iter().enumerate() {
            assert_eq!(rt; a < b, i < j, "{a:?} and {b:?}");
            assert_eq!(rt; a <= b, i <= j, "{a:?} and {b:?}");
            assert_eq!(rt; a.cmp(b), i.cmp(&j), "{a:?} and {b:?}");
        }
        assert_eq!(rt; a.is_empty(), i == 0, "{a:?}");
    }
}
