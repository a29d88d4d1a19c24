// The entry into service.
ghost use Rattle.std.specs.Prelude.{◌≡◌, IfOk};
ghost use Rattle.exchange.specs.FitOut.{peer_timers_fit, fitted};
ghost use Rattle.exchange.specs.EnterService.{entered};
ghost use Rattle.exchange.specs.Balance.{AlwaysBalanced};
ghost use Rattle.exchange.specs.Genuine.{AlwaysGenuine};
ghost use Rattle.exchange.specs.Moves.{AlwaysMoves};
ghost use Rattle.exchange.specs.Verdicts.{AlwaysTellsVerdicts};
ghost use Rattle.exchange.specs.Conditions.{AlwaysRefuses};
ghost use Rattle.exchange.specs.Refuted.{WrongMachinesAreRefuted};
ghost use Rattle.exchange.specs.Routes.{RoutesRun};

use crate::fit_out::FitOut;
use crate::in_service::Exchange;
use crate::invokes::OwnNumber;
use crate::service::{MOST_DIALOGUES, Service};
use refusal::Refusal;

// The least that the timers of dialogues with peers may run, in milliseconds.
const LEAST_PEER_TIMER: u32 = 15_000;

// The least that the timer of the radio side may run.
const LEAST_RADIO_TIMER: u32 = 1_000;

// The most that any timer may run.
const LONGEST_TIMER: u32 = 60_000;

impl FitOut {
    // Whether the timers of dialogues with peers are in their range.
    fn are_peer_timers_lawful(&self) -> bool
        ensures { result ≡ peer_timers_fit self.now }
    {
        [self.t1, self.t2, self.t3, self.t4, self.t5]
            .iter()
            .all(|time| (LEAST_PEER_TIMER..=LONGEST_TIMER).contains(time))
    }

    fn is_lawful(&self) -> bool
        ensures { result ≡ fitted self.now }
    {
        self.are_peer_timers_lawful()
            && (LEAST_RADIO_TIMER..=LONGEST_TIMER).contains(&self.tr)
            && self.home >= 1
            && self.server >= 1
    }

    /// An exchange in service, with last reading 0, next number 1 and no dialogue. Refused with 10 where a value is out of its
    /// range: T1 to T5 15,000 to 60,000 ms, TR 1,000 to 60,000 ms, Home and server peers 1 to 255.
    ///
    /// Of what is in service, its calls keep these laws, after every list of calls: each peer's invoke is answered once, and
    /// each of ours is settled once (`balanced`); a reply is judged by the algorithm (`genuine`); what a call may do to the
    /// table of dialogues (`moves`); no verdict is told without a reply (`verdicts`); a call is refused with the lowest number
    /// whose condition holds (`refuses`).
    pub fn enter_service(self) -> Result<Exchange, Refusal>
        ensures value { result ≡ entered self }
        ensures balanced { IfOk result (λ e. AlwaysBalanced e) }
        ensures genuine { IfOk result (λ e. AlwaysGenuine e) }
        ensures moves { IfOk result (λ e. AlwaysMoves e) }
        ensures verdicts { IfOk result (λ e. AlwaysTellsVerdicts e) }
        ensures refuses { IfOk result (λ e. AlwaysRefuses e) }
        // Each of these laws is false of machines that do wrong.
        ensures wrong_machines { WrongMachinesAreRefuted }
        // Whole exchanges that send each other their bytes find the right reply correct, and an altered one incorrect.
        ensures routes { RoutesRun }
    {
        if !self.is_lawful() {
            return Err(Refusal::Misfitted);
        }
        Ok(Exchange {
            service: Service {
                fit: self,
                last: 0,
                next: OwnNumber(1),
                dialogues: [None; MOST_DIALOGUES],
            },
        })
    }
}
