// The code lists of records: what each tag, each kind of a report and each kind of a cause stands for.
ghost use Rattle.std.specs.Prelude.{◌≡◌};
ghost use Rattle.std.specs.Option.{ok_or};
ghost use Rattle.records.specs.Tags.{tape_tag_number, tape_tag_of, sheet_tag_number, sheet_tag_of, report_kind_number, report_kind_of, cause_kind_number, cause_kind_of};

use wire::UnknownNumber;

/// What a record of a tape asks, by its tag.
#[derive(Clone, Copy, PartialEq, Eq, Debug)]
pub enum TapeTag {
    /// The fit-out, 27 bytes: six timers of 4 bytes, Home, server, and 0 or 1 for computing.
    FitOut = 0x10,
    /// A link: its peer, 1 byte.
    Link = 0x11,
    /// A subscriber: the place of its key, 1 byte, its key, 16, and digits.
    Subscriber = 0x12,
    /// A plain initiation: a reading of 8 bytes, a peer, and digits.
    PlainInitiation = 0x20,
    /// An initiation with values, as a plain one.
    InitiationWithValues = 0x21,
    /// A Visitor start: a reading and digits.
    VisitorStart = 0x22,
    /// A network proof: a reading, a challenge of 8 bytes, and digits.
    NetworkProof = 0x23,
    /// A terminal's reply, 14 bytes: a reading, a dialogue's name of 2 bytes, and a response of 4.
    Reply = 0x24,
    /// A peer's bytes: a reading, a draw of 16 bytes, a peer, and the bytes.
    Delivery = 0x25,
    /// The time: a reading.
    Clock = 0x26,
}

impl From<TapeTag> for u8 {
    ghost from_gives = { λ tag n. n ≡ tape_tag_number tag };

    #[inline(always)]
    fn from(tag: TapeTag) -> u8 {
        tag as u8
    }
}

impl TryFrom<u8> for TapeTag {
    type Error = UnknownNumber;

    ghost try_from_gives = { λ n answer. answer ≡ ok_or (tape_tag_of n) (record { 0 = n }) };

    #[inline(always)]
    fn try_from(number: u8) -> Result<TapeTag, UnknownNumber> {
        match number {
            0x10 => Ok(TapeTag::FitOut),
            0x11 => Ok(TapeTag::Link),
            0x12 => Ok(TapeTag::Subscriber),
            0x20 => Ok(TapeTag::PlainInitiation),
            0x21 => Ok(TapeTag::InitiationWithValues),
            0x22 => Ok(TapeTag::VisitorStart),
            0x23 => Ok(TapeTag::NetworkProof),
            0x24 => Ok(TapeTag::Reply),
            0x25 => Ok(TapeTag::Delivery),
            0x26 => Ok(TapeTag::Clock),
            _ => Err(UnknownNumber(number)),
        }
    }
}

/// What a record of a sheet says, by its tag.
#[derive(Clone, Copy, PartialEq, Eq, Debug)]
pub enum SheetTag {
    /// An APDU that goes to a peer: the peer, and its bytes.
    Sent = 0x30,
    /// A report: its kind, the dialogue's name of 2 bytes, and what is told.
    Reported = 0x31,
    /// A refusal: its number, 1 byte.
    Refused = 0x32,
    /// Nothing is sent or reported; no bytes.
    Done = 0x33,
}

impl From<SheetTag> for u8 {
    ghost from_gives = { λ tag n. n ≡ sheet_tag_number tag };

    #[inline(always)]
    fn from(tag: SheetTag) -> u8 {
        tag as u8
    }
}

impl TryFrom<u8> for SheetTag {
    type Error = UnknownNumber;

    ghost try_from_gives = { λ n answer. answer ≡ ok_or (sheet_tag_of n) (record { 0 = n }) };

    fn try_from(number: u8) -> Result<SheetTag, UnknownNumber> {
        match number {
            0x30 => Ok(SheetTag::Sent),
            0x31 => Ok(SheetTag::Reported),
            0x32 => Ok(SheetTag::Refused),
            0x33 => Ok(SheetTag::Done),
            _ => Err(UnknownNumber(number)),
        }
    }
}

/// What is reported of a dialogue, by its number on a sheet.
#[derive(Clone, Copy, PartialEq, Eq, Debug)]
pub enum ReportKind {
    /// What the terminal is to answer, 8 bytes.
    Challenge = 1,
    /// A verdict, 1 byte.
    Verdict = 2,
    /// A failure: its cause's kind and number, 1 byte each.
    Failure = 3,
    /// The network's response, 4 bytes.
    Response = 4,
}

impl From<ReportKind> for u8 {
    ghost from_gives = { λ kind n. n ≡ report_kind_number kind };

    #[inline(always)]
    fn from(kind: ReportKind) -> u8 {
        kind as u8
    }
}

impl TryFrom<u8> for ReportKind {
    type Error = UnknownNumber;

    ghost try_from_gives = { λ n answer. answer ≡ ok_or (report_kind_of n) (record { 0 = n }) };

    fn try_from(number: u8) -> Result<ReportKind, UnknownNumber> {
        match number {
            1 => Ok(ReportKind::Challenge),
            2 => Ok(ReportKind::Verdict),
            3 => Ok(ReportKind::Failure),
            4 => Ok(ReportKind::Response),
            _ => Err(UnknownNumber(number)),
        }
    }
}

/// Why a dialogue failed, by its number on a sheet.
#[derive(Clone, Copy, PartialEq, Eq, Debug)]
pub enum CauseKind {
    /// An error came: its number.
    Error = 1,
    /// A reject came: its problem.
    Reject = 2,
    /// The timer ended: its number, TR being 6.
    Expiry = 3,
}

impl From<CauseKind> for u8 {
    ghost from_gives = { λ kind n. n ≡ cause_kind_number kind };

    #[inline(always)]
    fn from(kind: CauseKind) -> u8 {
        kind as u8
    }
}

impl TryFrom<u8> for CauseKind {
    type Error = UnknownNumber;

    ghost try_from_gives = { λ n answer. answer ≡ ok_or (cause_kind_of n) (record { 0 = n }) };

    fn try_from(number: u8) -> Result<CauseKind, UnknownNumber> {
        match number {
            1 => Ok(CauseKind::Error),
            2 => Ok(CauseKind::Reject),
            3 => Ok(CauseKind::Expiry),
            _ => Err(UnknownNumber(number)),
        }
    }
}
