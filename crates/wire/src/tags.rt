// The tags of the fields of an APDU, in the order in which they stand.

/// Kind, one byte: invoke, result, error or reject.
pub const KIND: u8 = 0x01;

/// Invoke id, two bytes, 1 to 65,535.
pub const ID: u8 = 0x02;

/// Operation, one byte.
pub const OPERATION: u8 = 0x03;

/// User number, 1 to 15 ASCII digits.
pub const USER: u8 = 0x04;

/// canCompute, empty: the asker can compute responses.
pub const CAN_COMPUTE: u8 = 0x05;

/// Challenge, 8 bytes.
pub const CHALLENGE: u8 = 0x06;

/// An algorithm's number, one byte.
pub const ALGORITHM: u8 = 0x07;

/// Unit, 12 bytes: challenge 8, response 4.
pub const UNIT: u8 = 0x08;

/// Session, 24 bytes: session key 16, parameter 8.
pub const SESSION: u8 = 0x09;

/// Response, 4 bytes.
pub const RESPONSE: u8 = 0x0a;

/// Verdict, one byte.
pub const VERDICT: u8 = 0x0b;

/// Error, one byte.
pub const ERROR: u8 = 0x0c;

/// Problem of a reject, any byte.
pub const PROBLEM: u8 = 0x0d;
