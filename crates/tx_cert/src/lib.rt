//! A certificate of a plan: ranks of exchanges for each code, and its text both ways.
#![tactic(auto)]

mod cert;
mod cert_reader;
mod cert_writer;
mod declaring;
mod fault;
mod round_trip;

pub use cert::Cert;
pub use cert_reader::{read_cert, read_cert_from};
pub use cert_writer::write_cert;
pub use fault::{CertFault, CertWord, code_and_name};
pub use round_trip::written_reads_back;
