// An exchange in service with its links, its subscribers and algorithm 1, as the records of a tape reach it.
ghost use Rattle.std.specs.Prelude.{◌≡◌, ℕ, List, length, Some};
ghost use Rattle.records.specs.Tape.{subscriber, plain_initiation, initiation_with_values, initiation_view, network_proof_view, reply_view, delivery_view, tape_read};
ghost use Rattle.sheet.specs.Bench.{bench_view, empty_bench, first_taken, linked, record_taken};

use algorithm::Xtea;
use directory::Directory;
use entries::{Link, Subscriber, add_link, add_subscriber};
use exchange::{Done, Exchange};
use records::{Delivery, Initiation, NetworkProof, Reply, TapeRecord};
use refusal::Refusal;
use values::UserKey;
use wire::Field;

#[derive(Drop)]
pub(crate) struct Bench<'a> {
    exchange: Exchange,
    algorithm: Xtea,
    links: Directory<'a, Link>,
    subscribers: Directory<'a, Subscriber>,
}

// Enters service with the first record, which has to be a lawful fit-out.
pub(crate) fn enter_service(first: Field<'_>) -> Result<Exchange, Refusal>
    ensures { result ≡ first_taken (tape_read first.entry.tag first.entry.value.now) }
{
    match TapeRecord::read(first) {
        Some(TapeRecord::FitOut(fit)) => fit.enter_service(),
        _ => Err(Refusal::Misfitted),
    }
}

impl<'a> Bench<'a> {
    // No link and no subscriber yet; they will stand in the slices.
    pub(crate) fn new(
        exchange: Exchange,
        links: &'a mut [Link],
        subscribers: &'a mut [Subscriber],
    ) -> Bench<'a>
        ensures { bench_view result
            ≡ empty_bench exchange (length links.old) (length subscribers.old) }
    {
        Bench {
            exchange,
            algorithm: Xtea,
            links: Directory::new(links),
            subscribers: Directory::new(subscribers),
        }
    }

    fn link(&mut self, peer: u8) -> Result<Done, Refusal>
        ensures { (out : List ℕ) →
            record { result = result; bench = bench_view self.new; buffer = out }
            ≡ linked (bench_view self.old) peer out }
    {
        add_link(&mut self.links, peer)?;
        Ok(Done::Quiet)
    }

    fn subscriber(&mut self, place: u8, key: &UserKey, digits: &[u8]) -> Result<Done, Refusal>
        ensures { (out : List ℕ) →
            record { result = result; bench = bench_view self.new; buffer = out }
            ≡ record_taken (bench_view self.old) (Some (subscriber place key.now digits.now)) out }
    {
        add_subscriber(&mut self.subscribers, digits, place, *key)?;
        Ok(Done::Quiet)
    }

    fn plain_initiation(
        &mut self,
        initiation: Initiation<'_>,
        out: &mut [u8],
    ) -> Result<Done, Refusal>
        ensures { record { result = result; bench = bench_view self.new; buffer = out.new }
            ≡ record_taken (bench_view self.old) (Some (plain_initiation (initiation_view initiation.entry))) out.old }
    {
        let links = &self.links;
        self.exchange.plain_initiation(
            initiation.reading,
            initiation.digits,
            initiation.peer,
            links,
            out,
        )
    }

    fn initiation_with_values(
        &mut self,
        initiation: Initiation<'_>,
        out: &mut [u8],
    ) -> Result<Done, Refusal>
        ensures { record { result = result; bench = bench_view self.new; buffer = out.new }
            ≡ record_taken (bench_view self.old) (Some (initiation_with_values (initiation_view initiation.entry))) out.old }
    {
        let links = &self.links;
        let Initiation {
            reading,
            peer,
            digits,
        } = initiation;
        self.exchange
            .initiation_with_values(reading, digits, peer, links, out)
    }

    fn network_proof(&mut self, proof: &NetworkProof<'_>, out: &mut [u8]) -> Result<Done, Refusal>
        ensures { record { result = result; bench = bench_view self.new; buffer = out.new }
            ≡ record_taken (bench_view self.old) (Some (network_proof_view proof.now)) out.old }
    {
        let algorithm = &self.algorithm;
        self.exchange.network_proof(
            proof.reading,
            proof.digits,
            proof.challenge.bytes(),
            algorithm,
            out,
        )
    }

    fn reply(&mut self, reply: Reply, out: &mut [u8]) -> Result<Done, Refusal>
        ensures { record { result = result; bench = bench_view self.new; buffer = out.new }
            ≡ record_taken (bench_view self.old) (Some (reply_view reply)) out.old }
    {
        let algorithm = &mut self.algorithm;
        self.exchange
            .reply(reply.reading, reply.name, &reply.response, algorithm, out)
    }

    fn deliver(&mut self, delivery: Delivery<'_>, out: &mut [u8]) -> Result<Done, Refusal>
        ensures { record { result = result; bench = bench_view self.new; buffer = out.new }
            ≡ record_taken (bench_view self.old) (Some (delivery_view delivery.entry)) out.old }
    {
        self.exchange.deliver(
            delivery.reading,
            delivery.peer,
            &delivery.draw,
            delivery.bytes,
            &self.links,
            &self.subscribers,
            &mut self.algorithm,
            out,
        )
    }

    // Takes a record that follows.
    #[inline(always)]
    pub(crate) fn take(&mut self, field: Field<'_>, out: &mut [u8]) -> Result<Done, Refusal>
        ensures { record { result = result; bench = bench_view self.new; buffer = out.new }
            ≡ record_taken (bench_view self.old) (tape_read field.entry.tag field.entry.value.now) out.old }
    {
        let Some(record) = TapeRecord::read(field) else {
            return Err(Refusal::Garbled);
        };
        match &record {
            TapeRecord::FitOut(_) => Err(Refusal::Garbled),
            TapeRecord::Link { peer } => self.link(*peer),
            TapeRecord::Subscriber { place, key, digits } => self.subscriber(*place, key, digits),
            TapeRecord::PlainInitiation(initiation) => self.plain_initiation(*initiation, out),
            TapeRecord::InitiationWithValues(initiation) => self.initiation_with_values(
                *initiation,
                out,
            ),
            TapeRecord::VisitorStart { reading, digits } => {
                self.exchange.visitor_start(*reading, digits, out)
            }
            TapeRecord::NetworkProof(proof) => self.network_proof(proof, out),
            TapeRecord::Reply(reply) => self.reply(*reply, out),
            TapeRecord::Delivery(delivery) => self.deliver(*delivery, out),
            TapeRecord::Clock { reading } => {
                self.exchange.clock(*reading, &mut self.algorithm, out)
            }
        }
    }
}
