/// The fields of an APDU, for a C program: numbers for kinds, bits for what is there, and zero for what is absent. Any may
/// hold any value; `apdu_write` says which of them make an APDU.
#[repr(C)]
#[derive(Clone, Copy)]
pub struct Fields {
    /// 04: count of digits × 10^15 + value.
    pub user: u64,
    /// Which of the fields 04 to 0D there are: bit t for tag t.
    pub present: u16,
    /// 02: the invoke id.
    pub id: u16,
    /// 01: 1 invoke, 2 result, 3 error, 4 reject.
    pub kind: u8,
    /// 03: 1 to 5; 0 in an error or a reject, which have none.
    pub operation: u8,
    /// 07.
    pub algorithm: u8,
    /// 0B: 0 correct, 1 incorrect.
    pub verdict: u8,
    /// 0C: 1 to 5.
    pub error: u8,
    /// 0D: any.
    pub problem: u8,
    /// 06.
    pub challenge: [u8; 8],
    /// 08, its first part.
    pub unit_challenge: [u8; 8],
    /// 08, its second part.
    pub unit_response: [u8; 4],
    /// 09, its first part.
    pub session_key: [u8; 16],
    /// 09, its second part.
    pub session_parameter: [u8; 8],
    /// 0A.
    pub response: [u8; 4],
}

// All zero: no field is there.
pub(crate) const BLANK: Fields = Fields {
    user: 0,
    present: 0,
    id: 0,
    kind: 0,
    operation: 0,
    algorithm: 0,
    verdict: 0,
    error: 0,
    problem: 0,
    challenge: [0; 8],
    unit_challenge: [0; 8],
    unit_response: [0; 4],
    session_key: [0; 16],
    session_parameter: [0; 8],
    response: [0; 4],
};
