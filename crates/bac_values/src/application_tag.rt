/// The number of an application tag (ANSI/ASHRAE 135-2020, 20.2.1.4).
#[derive(Clone, Copy, Debug, PartialEq, Eq)]
pub struct ApplicationTag(pub u8);

impl ApplicationTag {
    /// Null.
    pub const NULL: ApplicationTag = ApplicationTag(0);
    /// Boolean.
    pub const BOOLEAN: ApplicationTag = ApplicationTag(1);
    /// Unsigned.
    pub const UNSIGNED: ApplicationTag = ApplicationTag(2);
    /// Signed.
    pub const SIGNED: ApplicationTag = ApplicationTag(3);
    /// Real.
    pub const REAL: ApplicationTag = ApplicationTag(4);
    /// Double.
    pub const DOUBLE: ApplicationTag = ApplicationTag(5);
    /// OctetString.
    pub const OCTET_STRING: ApplicationTag = ApplicationTag(6);
    /// CharacterString.
    pub const CHARACTER_STRING: ApplicationTag = ApplicationTag(7);
    /// BitString.
    pub const BIT_STRING: ApplicationTag = ApplicationTag(8);
    /// Enumerated.
    pub const ENUMERATED: ApplicationTag = ApplicationTag(9);
    /// Date.
    pub const DATE: ApplicationTag = ApplicationTag(10);
    /// Time.
    pub const TIME: ApplicationTag = ApplicationTag(11);
    /// ObjectIdentifier.
    pub const OBJECT_IDENTIFIER: ApplicationTag = ApplicationTag(12);
}
