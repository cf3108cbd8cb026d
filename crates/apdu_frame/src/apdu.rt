/// What the header of an APDU says.
#[derive(Clone, Copy, Debug, PartialEq, Eq)]
pub enum Apdu {
    /// A confirmed request.
    Request {
        /// The most octets that the requester takes in an answer.
        max_apdu: u16,
        /// The invoke ID, by which the answer is known.
        invoke: u8,
        /// The service.
        service: u8,
        /// The place at which the parameters begin.
        start: usize,
    },
    /// A segment of a confirmed request.
    Segmented {
        /// The invoke ID of the request.
        invoke: u8,
    },
    /// An unconfirmed request.
    Unconfirmed {
        /// The service.
        service: u8,
        /// The place at which the parameters begin.
        start: usize,
    },
    /// An acknowledgement without a result.
    SimpleAck {
        /// The invoke ID of the request.
        invoke: u8,
        /// The service of the request.
        service: u8,
    },
    /// An error.
    Error {
        /// The invoke ID of the request.
        invoke: u8,
        /// The service of the request.
        service: u8,
    },
    /// A reject.
    Reject {
        /// The invoke ID of the request.
        invoke: u8,
    },
    /// An abort, by the client or by the server.
    Abort {
        /// The invoke ID of the request.
        invoke: u8,
    },
    /// Another APDU, or one that is cut within its header.
    Other,
}
