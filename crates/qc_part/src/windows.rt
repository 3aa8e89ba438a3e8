//! Hatches so near to each other that only one of them can be worked at a time.

use crate::rest::Rest;

/// How many ticks are left at the least where the hatches from the first on that lie less than a gap
/// from it are worked one after the other, up to the last tick; `None` where they don't fit.
fn slack_from(rests: &[Rest], gap: i64, last: i64) -> Option<i64> {
    let mut slack = last;
    let mut least = i64::MAX;
    let mut work: i64 = 0;
    let mut turn = i64::MAX;
    let mut behind: Option<Rest> = None;
    let first = rests.first()?.place;
    for rest in rests {
        let width = rest.place.wrapping_sub(first);
        if width >= gap {
            break;
        }
        if let Some(other) = behind {
            turn = turn.min(gap.wrapping_sub(rest.place.wrapping_sub(other.place)));
        }
        least = least.min(rest.least);
        work = work.wrapping_add(rest.work);
        let end = least.wrapping_add(work).wrapping_add(turn.min(width));
        slack = slack.min(last.wrapping_sub(end));
        behind = Some(*rest);
    }
    if slack < 0 { None } else { Some(slack) }
}

/// The same for all hatches from which one can begin; all ticks where nothing is left to do.
pub(crate) fn window_slack(rests: &[Rest], gap: i64, last: i64) -> Option<i64> {
    let mut slack = last;
    for first in 0..rests.len() {
        slack = slack.min(slack_from(&rests[first..], gap, last)?);
    }
    Some(slack)
}
