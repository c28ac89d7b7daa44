// What a run after a check comes to.
use tx_check::CheckFault;
use tx_script::Summary;

/// The script was run, or the checker said No.
#[derive(Clone, Copy)]
pub enum Checked {
    /// The run, whose states are all safe.
    Ran(Summary),
    /// The No of the checker: nothing was read or written.
    Denied(CheckFault),
}
