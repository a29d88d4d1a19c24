// What an exchange is fitted out with, before it enters service.
ghost use Rattle.std.specs.Prelude.{◌≡◌};
ghost use Rattle.std.specs.Option.{ok_or};
ghost use Rattle.exchange.specs.FitOut.{timer_number, timer_of_number, duration};

use wire::UnknownNumber;

/// The timers. Each state of a dialogue has one.
#[derive(Clone, Copy)]
pub enum Timer {
    /// For a peer's verdict.
    T1 = 1,
    /// For the server's unit or session.
    T2 = 2,
    /// For Home's unit or session.
    T3 = 3,
    /// For Home's proof of the network.
    T4 = 4,
    /// For the server's proof of the network.
    T5 = 5,
    /// For the terminal's reply: the timer of the radio side.
    Tr = 6,
}

/// What an exchange is fitted out with. Entering service with a value out of its range is refused with `Misfitted`.
#[derive(Clone, Copy)]
pub struct FitOut {
    /// T1, how long a peer's verdict is awaited: 15,000 to 60,000 ms.
    pub t1: u32,
    /// T2, how long the server's unit or session is awaited: 15,000 to 60,000 ms.
    pub t2: u32,
    /// T3, how long Home's unit or session is awaited: 15,000 to 60,000 ms.
    pub t3: u32,
    /// T4, how long Home's proof of the network is awaited: 15,000 to 60,000 ms.
    pub t4: u32,
    /// T5, how long the server's proof of the network is awaited: 15,000 to 60,000 ms.
    pub t5: u32,
    /// TR, how long the terminal's reply is awaited: 1,000 to 60,000 ms.
    pub tr: u32,
    /// The peer that is Home, 1 to 255. It need not be a link for an invoke to go to it.
    pub home: u8,
    /// The peer that is the authentication server, 1 to 255. It need not be a link either.
    pub server: u8,
    /// Whether this exchange can compute responses from a session key.
    pub can_compute: bool,
}

// The number under which a timer's expiry is reported.
impl From<Timer> for u8 {
    ghost from_gives = { λ timer n. n ≡ timer_number timer };

    fn from(timer: Timer) -> u8 {
        timer as u8
    }
}

impl TryFrom<u8> for Timer {
    type Error = UnknownNumber;

    ghost try_from_gives = { λ n answer. answer ≡ ok_or (timer_of_number n) (record { 0 = n }) };

    fn try_from(number: u8) -> Result<Timer, UnknownNumber> {
        match number {
            1 => Ok(Timer::T1),
            2 => Ok(Timer::T2),
            3 => Ok(Timer::T3),
            4 => Ok(Timer::T4),
            5 => Ok(Timer::T5),
            6 => Ok(Timer::Tr),
            _ => Err(UnknownNumber(number)),
        }
    }
}

impl FitOut {
    // How long a timer runs.
    pub(crate) fn duration(&self, timer: Timer) -> u32
        ensures { result ≡ duration self.now timer }
    {
        match timer {
            Timer::T1 => self.t1,
            Timer::T2 => self.t2,
            Timer::T3 => self.t3,
            Timer::T4 => self.t4,
            Timer::T5 => self.t5,
            Timer::Tr => self.tr,
        }
    }
}
