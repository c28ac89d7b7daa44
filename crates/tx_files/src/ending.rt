// How a command ends.
ghost use Rattle.std.specs.Prelude.{◌≡◌, None, Some};

use crate::made::{Made, MadeText, Shown};
use std::alloc::{Allocator, Global};
use tx_cert::Cert;

/// The exit status of a command, and what goes into its files, if anything does.
#[derive(Drop)]
pub struct Ending<A: Allocator = Global> {
    pub status: u8,
    pub made: Option<Made<A>>,
}

impl<A: Allocator> Ending<A> {
    /// An end without files.
    pub fn of(status: u8) -> Ending<A>
        ensures status { result.status ≡ status }
        ensures made { result.made ≡ None }
    {
        Ending { status, made: None }
    }

    /// An end with files: what is shown goes there, the text of its plan and a certificate of it, each
    /// if there is one.
    pub fn with(
        status: u8,
        shown: Shown<A>,
        text: Option<MadeText<A>>,
        cert: Option<Cert<A>>,
    ) -> Ending<A>
        ensures { result ≡ record {
          status = status;
          made = Some (record { shown = shown; text = text; cert = cert });
        } }
    {
        Ending {
            status,
            made: Some(Made { shown, text, cert }),
        }
    }
}
