//! The costs and bounds that a text states, and how often a line stands in it.

/// The number that a line states after this word.
fn stated(line: &str, word: &str) -> Option<u64> {
    line.strip_prefix(word)?.parse().ok()
}

/// Whether the lines state no bound above the cost before it, and whether all bounds are equal to it, so that
/// the status is 0, and else 3.
pub(crate) fn are_bounds_right(lines: &[&str], status: u8) -> bool {
    let mut cost = 0;
    let mut due = 0;
    for line in lines {
        cost = stated(line, "cost ").unwrap_or(cost);
        let bound = stated(line, "bound ").unwrap_or(cost);
        if bound > cost {
            return false;
        }
        if bound < cost {
            due = 3;
        }
    }
    status == due
}

/// Whether a line is one of these as often as `N LINE` says, or more.
pub(crate) fn stand_often(lines: &[&str], said: &str) -> bool {
    let (least, wanted) = said.split_once(" ").unwrap_or((said, ""));
    let mut count: u64 = 0;
    for line in lines {
        if *line == wanted {
            count = count.saturating_add(1);
        }
    }
    count >= least.parse().unwrap_or(u64::MAX)
}
