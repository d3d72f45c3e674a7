//! What a service's clock shows beside a system's clock that jumps.
use service_clock::ServiceClock;
use std::time::Duration;
use types::LAST_MOMENT;

/// A reading of both clocks, in seconds and nanoseconds, and what is so after it, in seconds.
struct Row {
    system: Option<(u64, u32)>,
    monotonic: Option<(u64, u32)>,
    moment: u64,
    ahead: u64,
    behind: u64,
}

/// The system's clock is an hour ahead for a while, and then behind: the service's goes on by itself, and follows when it is back.
#[rattlefmt::skip]
const JUMPS: &[Row] = &[
    Row { system: Some((1_800_000_000, 0)), monotonic: Some((50, 0)),           moment: 1_800_000_000, ahead: 0,    behind: 0 },
    Row { system: Some((1_800_000_001, 0)), monotonic: Some((51, 0)),           moment: 1_800_000_001, ahead: 0,    behind: 0 },
    Row { system: Some((1_800_003_602, 0)), monotonic: Some((52, 0)),           moment: 1_800_000_002, ahead: 3600, behind: 0 },
    Row { system: Some((1_800_003_602, 0)), monotonic: Some((52, 500_000_000)), moment: 1_800_000_002, ahead: 3599, behind: 0 },
    Row { system: Some((1_800_000_003, 0)), monotonic: Some((53, 0)),           moment: 1_800_000_003, ahead: 0,    behind: 0 },
    Row { system: Some((1_799_996_404, 0)), monotonic: Some((54, 0)),           moment: 1_800_000_004, ahead: 0,    behind: 3600 },
    Row { system: Some((1_800_000_005, 0)), monotonic: Some((55, 0)),           moment: 1_800_000_005, ahead: 0,    behind: 0 },
];

/// A minute ahead or behind is followed, a nanosecond more is not.
#[rattlefmt::skip]
const MINUTES: &[Row] = &[
    Row { system: Some((1_000, 0)), monotonic: Some((0, 0)), moment: 1_000, ahead: 0,  behind: 0 },
    Row { system: Some((1_060, 0)), monotonic: Some((0, 0)), moment: 1_060, ahead: 0,  behind: 0 },
    Row { system: Some((1_120, 1)), monotonic: Some((0, 0)), moment: 1_060, ahead: 60, behind: 0 },
    Row { system: Some((1_000, 0)), monotonic: Some((0, 0)), moment: 1_000, ahead: 0,  behind: 0 },
    Row { system: Some((939, 999_999_999)), monotonic: Some((0, 0)), moment: 1_000, ahead: 0, behind: 60 },
];

/// A clock that can't be read changes nothing, and what went by meanwhile counts when the monotonic one is read again.
#[rattlefmt::skip]
const FAILURES: &[Row] = &[
    Row { system: None,              monotonic: Some((5, 0)),    moment: 0,      ahead: 0, behind: 0 },
    Row { system: Some((1_000, 0)),  monotonic: None,            moment: 1_000,  ahead: 0, behind: 0 },
    Row { system: None,              monotonic: None,            moment: 1_000,  ahead: 0, behind: 0 },
    Row { system: None,              monotonic: Some((105, 0)),  moment: 1_100,  ahead: 0, behind: 0 },
    Row { system: Some((9_000, 0)),  monotonic: Some((106, 0)),  moment: 1_101,  ahead: 7_899, behind: 0 },
    Row { system: None,              monotonic: Some((107, 0)),  moment: 1_102,  ahead: 7_899, behind: 0 },
    Row { system: None,              monotonic: Some((7, 0)),    moment: 1_102,  ahead: 7_899, behind: 0 },
];

fn reading(time: Option<(u64, u32)>) -> Option<Duration> {
    let (seconds, nanoseconds) = time?;
    Some(Duration::from_secs(seconds).saturating_add(Duration::from_nanos(u64::from(nanoseconds))))
}

/// The index of the first row after which the clock shows anything else.
fn first_wrong(rows: &[Row]) -> Option<usize> {
    let mut clock = ServiceClock::new();
    'rows: for (index, row) in rows.iter().enumerate() {
        clock.follow(reading(row.system), reading(row.monotonic));
        let shown = (clock.moment().seconds(), clock.ahead(), clock.behind());
        let is_apart = row.ahead > 0 || row.behind > 0;
        if shown != (row.moment, row.ahead, row.behind) || clock.is_apart() != is_apart {
            return Some(index);
        }
    }
    None
}

/// At the last moment the clock stands still.
fn stands_still() -> bool {
    let mut clock = ServiceClock::new();
    clock.follow(
        reading(Some((LAST_MOMENT, 999_999_999))),
        reading(Some((0, 0))),
    );
    let was_past_end = clock.is_past_end();
    clock.follow(None, reading(Some((0, 1))));
    !was_past_end && clock.is_past_end() && clock.moment().seconds() == LAST_MOMENT
}

#[test]
fn the_clock_follows_but_for_jumps(rt: HostRuntime) {
    assert_eq!(rt; first_wrong(JUMPS), None);
    assert_eq!(rt; first_wrong(MINUTES), None);
    assert_eq!(rt; first_wrong(FAILURES), None);
    assert!(rt; stands_still());
}
