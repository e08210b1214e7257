//! What a run with speculation records.

use crate::failure::PeriodFailure;
use pv_base::list::List;
use seq_machine::state::Header;

/// One thing that happened. Periods count from the start of their span.
#[derive(Clone, Copy, Debug)]
pub enum Entry {
    /// A span began, of a loop by its number in the profile.
    Span {
        number: u32,
        header: Header,
        turns: u64,
    },
    Commit {
        period: u32,
        turns: u64,
    },
    Fail {
        period: u32,
        failure: PeriodFailure,
    },
    /// The turns of the period that failed were run one after another, of which so many came back to the header.
    Recovered {
        period: u32,
        turns: u64,
    },
}

/// All of it, in order.
#[derive(Drop)]
pub struct Journal {
    pub entries: List<Entry>,
}
