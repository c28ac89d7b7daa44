// Why calls end.
ghost use Rattle.std.specs.Prelude.{◌≡◌, Some, slice_get};
ghost use Rattle.tx_machine.specs.Causes.{index_of};

/// A service code: why a call was not put through.
#[derive(Clone, Copy, PartialEq, Eq)]
pub enum Service {
    /// OCC: the subscriber is engaged.
    Occ,
    /// NC: no circuits.
    Nc,
    /// NP: the called party is not, or is no longer, a subscriber.
    Np,
    /// DER: out of order.
    Der,
    /// ABS: the subscriber is absent, the office closed.
    Abs,
    /// NA: correspondence with this subscriber is not admitted.
    Na,
}

/// Why a call ended.
#[derive(Clone, Copy, PartialEq, Eq)]
pub enum Cause {
    /// It was answered with a service code.
    Service(Service),
    /// The caller cleared it.
    ClearedByCaller,
    /// The called party cleared it.
    ClearedByCalled,
    /// A group failed that it had a circuit of, carried or seized.
    Lost,
}

impl Cause {
    /// All causes, in the order in which they are told.
    pub const ALL: [Cause; 9] = [
        Cause::Service(Service::Occ),
        Cause::Service(Service::Nc),
        Cause::Service(Service::Np),
        Cause::Service(Service::Der),
        Cause::Service(Service::Abs),
        Cause::Service(Service::Na),
        Cause::ClearedByCaller,
        Cause::ClearedByCalled,
        Cause::Lost,
    ];

    /// Its index among them.
    pub fn index(self) -> usize
        ensures index { result ≡ index_of self }
        ensures there { slice_get Cause.ALL result ≡ Some self }
    {
        match self {
            Cause::Service(Service::Occ) => 0,
            Cause::Service(Service::Nc) => 1,
            Cause::Service(Service::Np) => 2,
            Cause::Service(Service::Der) => 3,
            Cause::Service(Service::Abs) => 4,
            Cause::Service(Service::Na) => 5,
            Cause::ClearedByCaller => 6,
            Cause::ClearedByCalled => 7,
            Cause::Lost => 8,
        }
    }
}
