/// Why a request is rejected (ANSI/ASHRAE 135-2020, BACnetRejectReason), by number.
#[derive(Clone, Copy, Debug, PartialEq, Eq)]
pub struct RejectReason(pub u8);

impl RejectReason {
    /// A tag isn't the one that stands there, or what stands behind it isn't of its form.
    pub const INVALID_TAG: RejectReason = RejectReason(4);
    /// The octets end where a parameter that must be there should begin.
    pub const MISSING_REQUIRED_PARAMETER: RejectReason = RejectReason(5);
    /// Octets follow the last parameter.
    pub const TOO_MANY_ARGUMENTS: RejectReason = RejectReason(7);
    /// The server doesn't know the service.
    pub const UNRECOGNIZED_SERVICE: RejectReason = RejectReason(9);
}

/// Why a request is aborted (ANSI/ASHRAE 135-2020, BACnetAbortReason), by number.
#[derive(Clone, Copy, Debug, PartialEq, Eq)]
pub struct AbortReason(pub u8);

impl AbortReason {
    /// None of the other reasons.
    pub const OTHER: AbortReason = AbortReason(0);
    /// The request is segmented, or its answer would be.
    pub const SEGMENTATION_NOT_SUPPORTED: AbortReason = AbortReason(4);
}
