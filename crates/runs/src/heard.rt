// What a client that keeps it has heard.

use search::verdict::Verdict;
use sheet::fault::Fault;

// What came of one choice.
#[derive(Debug, Drop)]
pub enum Heard {
    Done,
    Refused(Fault),
    Judged(Verdict),
}
