//! Numbers of boards. Those of a board, and whether its issues clash, the tests in C show.

mod example;

use squall_status::Tally;

const TOLD: Tally = Tally {
    cells: 2,
    spans: 2,
    opened: 3,
    issues: 2,
};

/// No number of 64 bits is above these.
const MOST: Tally = Tally {
    cells: u64::MAX,
    spans: u64::MAX,
    opened: u64::MAX,
    issues: u64::MAX,
};

const ONE: Tally = Tally {
    cells: 1,
    spans: 1,
    opened: 1,
    issues: 1,
};

const MORE: Tally = Tally {
    cells: 3,
    spans: 3,
    opened: 4,
    issues: 3,
};

#[test]
fn sums_of_tallies(rt: HostRuntime) {
    assert!(rt; TOLD.plus(ONE) == Some(MORE));
    assert!(rt; MOST.plus(ONE).is_none() && ONE.plus(MOST).is_none());
}

/// These, and one number more in each place in turn.
const ABOVE: [Tally; 4] = [
    Tally { cells: 3, ..TOLD },
    Tally { spans: 3, ..TOLD },
    Tally { opened: 4, ..TOLD },
    Tally { issues: 3, ..TOLD },
];

#[test]
fn tallies_within_others(rt: HostRuntime) {
    assert!(rt; TOLD.is_within(&TOLD) && TOLD.is_within(&MORE) && MORE.is_within(&MOST));
    for above in ABOVE {
        assert!(rt; !above.is_within(&TOLD) && TOLD.is_within(&above));
    }
}
