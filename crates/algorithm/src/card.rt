// Recorded cards: one that takes rows, and one that is asked.
ghost use Rattle.std.specs.Prelude.{◌≡◌, ◌≤◌, [], length, OnErr};
ghost use Rattle.algorithm.specs.Row.{most_rows};

use crate::algorithm::Algorithm;
use crate::direction::Direction;
use crate::found::row_for;
use crate::row::Row;
use refusal::Refusal;
use values::{Challenge, Parameter, Response, SessionKey, UserKey};

// The number of the algorithm.
const CARD_NUMBER: u8 = 2;

// The most rows of a card.
const MOST_ROWS: usize = 16;

// The response to a challenge that is on no row.
const NO_ROW_RESPONSE: Response = [0; 4];

/// A card that takes rows and is not asked yet. The first `count` places are in use.
#[derive(Drop)]
pub struct Recording {
    rows: [Row; MOST_ROWS],
    count: usize,
    ghost sized: { length rows ≡ most_rows },
    ghost within: { count ≤ most_rows },
}

impl Recording {
    ghost use Rattle.algorithm.specs.Card.{rows_of, card_rows, row_answer, rows_left};

    /// A card with no rows.
    pub fn new() -> Recording
        ensures { rows_of result ≡ [] }
    {
        let blank = Row {
            challenge: Challenge::new([0; 8]),
            response: NO_ROW_RESPONSE,
        };
        Recording {
            rows: [blank; MOST_ROWS],
            count: 0,
        }
    }

    /// Adds a row behind the others. A challenge may stand in several rows. A card that is full, with 16 rows, refuses
    /// it with 8, and a refusal changes nothing.
    pub fn add(&mut self, row: Row) -> Result<(), Refusal>
        ensures answer { result ≡ row_answer (rows_of self.old) }
        ensures rows { rows_of self.new ≡ rows_left (rows_of self.old) row }
        ensures unchanged { OnErr result (self.new ≡ self.old) }
    {
        if self.count >= MOST_ROWS {
            return Err(Refusal::Full);
        }
        self.rows[self.count] = row;
        self.count += 1;
        Ok(())
    }

    /// The card with these rows.
    pub fn finish(self) -> RecordedCard
        ensures { card_rows result ≡ rows_of self }
    {
        RecordedCard { recording: self }
    }
}

/// Algorithm 2: a card that is asked, and takes no rows.
#[derive(Drop)]
pub struct RecordedCard {
    recording: Recording,
}

impl Algorithm for RecordedCard {
    ghost use Rattle.algorithm.specs.Card.{card_rows, card_meaning, card_is_sized};

    ghost meaning = { λ card. card_meaning (card_rows card) };

    fn number(&self) -> u8 {
        CARD_NUMBER
    }

    fn session(
        &mut self,
        _direction: Direction,
        key: &UserKey,
        _parameter: &Parameter,
    ) -> SessionKey {
        *key
    }

    fn response(&mut self, _session: &SessionKey, challenge: &Challenge) -> Response {
        let rows = &self.recording.rows[..self.recording.count];
        match row_for(rows, challenge) {
            Some(row) => row.response,
            None => NO_ROW_RESPONSE,
        }
    }

    ghost sized = { λ card. card_is_sized (card_rows card) };
}
