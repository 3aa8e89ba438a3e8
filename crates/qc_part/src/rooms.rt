//! How many cranes must come as far as a hatch, and whether they have the time.

use crate::rest::Rest;
use qc_model::MOST_CRANES;

/// What the cranes are at: when each could be at place 0, in rising order; from when on each is ready
/// and how far it then stands from where it could be; how many they are.
#[derive(Clone, Copy)]
pub(crate) struct Cranes {
    pub(crate) lines: [i64; MOST_CRANES as usize],
    pub(crate) turns: [i64; MOST_CRANES as usize],
    pub(crate) count: u16,
}

/// The time of a crane from a start on.
fn room(start: i64, until: i64) -> i64 {
    until.wrapping_sub(start).max(0)
}

/// How few cranes have together as much time as a load takes; `None` where all have less.
fn fewest(lines: &[i64; MOST_CRANES as usize], until: i64, load: i64) -> Option<u16> {
    let mut time: i64 = 0;
    for cranes in 0..MOST_CRANES {
        if time >= load {
            return Some(cranes);
        }
        time = time.wrapping_add(room(lines[cranes as usize], until));
    }
    if time >= load {
        Some(MOST_CRANES)
    } else {
        None
    }
}

/// The time of all cranes together.
fn time_of_all(lines: &[i64; MOST_CRANES as usize], until: i64) -> i64 {
    let mut time: i64 = 0;
    for line in lines {
        time = time.wrapping_add(room(*line, until));
    }
    time
}

/// The work and the travel from the first hatch on, with as few cranes at each as can do what lies
/// behind it; `None` where all are too few.
fn load_of(rests: &[Rest], cranes: &Cranes, last: i64) -> Option<i64> {
    let mut load: i64 = 0;
    let mut behind: Option<(i64, u16)> = None;
    for done in 0..rests.len() {
        let rest = rests[rests.len() - 1 - done];
        if let Some((place, count)) = behind {
            let way = place.wrapping_sub(rest.place);
            load = load.wrapping_add(way.wrapping_mul(i64::from(count)));
        }
        load = load.wrapping_add(rest.work);
        let count = fewest(&cranes.lines, last.wrapping_sub(rest.place), load)?;
        behind = Some((rest.place, count));
    }
    Some(load)
}

/// How few cranes of so many can do the work in so much time each; `None` where all are too few.
fn sharers(work: i64, time: i64, cranes: u16) -> Option<u16> {
    for count in 0..cranes {
        if time.wrapping_mul(i64::from(count + 1)) >= work {
            return Some(count + 1);
        }
    }
    None
}

/// How many cranes need no way back to come to a place from where they stand, where so many come to one below.
fn near(cranes: &Cranes, place: i64, below: u16) -> u16 {
    let twice = place.wrapping_add(place);
    for crane in below..MOST_CRANES {
        if cranes.turns[crane as usize] >= twice {
            return crane;
        }
    }
    MOST_CRANES
}

/// The way back that cranes make which stand beyond the work; `None` where all cranes are too few to
/// begin with it.
fn back_of(rests: &[Rest], cranes: &Cranes, last: i64) -> Option<i64> {
    let mut back: i64 = 0;
    let mut least = i64::MAX;
    let mut work: i64 = 0;
    let mut close: u16 = 0;
    let mut behind: Option<Rest> = None;
    for rest in rests {
        if let Some(other) = behind {
            least = least.min(other.least);
            work = work.wrapping_add(other.work);
            let count = sharers(work, last.wrapping_sub(least), cranes.count)?;
            close = near(cranes, rest.place, close);
            let far = count.saturating_sub(close);
            let way = rest.place.wrapping_sub(other.place).wrapping_mul(2);
            back = back.wrapping_add(way.wrapping_mul(i64::from(far)));
        }
        behind = Some(*rest);
    }
    Some(back)
}

/// How many ticks a crane has left, on the mean, where all is worked up to the last tick; `None` where
/// the cranes are too few. All ticks where nothing is left to do.
pub(crate) fn room_slack(rests: &[Rest], cranes: &Cranes, last: i64) -> Option<i64> {
    let Some(first) = rests.first() else {
        return Some(last);
    };
    let load = load_of(rests, cranes, last)?;
    let back = back_of(rests, cranes, last)?;
    let time = time_of_all(&cranes.lines, last.wrapping_sub(first.place));
    if load.wrapping_add(back) > time {
        return None;
    }
    Some(time.wrapping_sub(load) / i64::from(cranes.count.max(1)))
}
