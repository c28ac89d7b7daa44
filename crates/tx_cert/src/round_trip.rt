// The law of certificate texts that are written.
ghost use Rattle.tx_cert.specs.CertText.{ReadsBack};

/// What is written for a certificate of a plan reads back as that certificate. Does nothing: its
/// contract is a law.
pub fn written_reads_back()
    ensures { ReadsBack }
{}
