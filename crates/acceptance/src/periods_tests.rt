//! Rows of numbers and their least periods.
use crate::comparing::compare;
use quotient_search::least_period;

#[test]
fn periods_are_least(rt: HostRuntime) {
    let rows: [(&[u16], Option<(usize, usize)>); 6] = [
        (&[1, 2, 1, 2, 3, 2, 3, 2, 4, 2, 4, 2], Some((8, 2))),
        (&[1, 2, 0, 1, 2, 0], Some((1, 3))),
        (&[1, 2, 0, 1, 2], None),
        (&[], None),
        (&[7], None),
        (&[7, 7], Some((1, 1))),
    ];
    for (entries, found) in rows {
        compare(
            &rt,
            "entries and period",
            (entries.len(), least_period(entries)),
            (entries.len(), found),
        );
    }
}
