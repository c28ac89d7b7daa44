// What a check answers.
use crate::fault::CheckFault;

/// Whether a plan is certified by the ranks of a certificate.
#[derive(Clone, Copy, PartialEq, Eq)]
pub enum Verdict {
    /// It is.
    Yes,
    /// It is not, for this reason.
    No(CheckFault),
}
