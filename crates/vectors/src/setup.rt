// What the lines so far have set up.
use crate::ask::{Layers, Question, Value};
use crate::words;
use algorithm::{Recording, Row, Xtea, encipher};
use anyhow::{Result, bail};
use std::alloc::Global;
use std::fmt;
use std::str::SplitWhitespace;

#[derive(Drop)]
pub(crate) struct Setup {
    // The rows of the card: at most as many as a card takes.
    rows: Vec<Row>,
    masks: [[u8; 8]; 2],
}

// A value, and what the table has.
#[derive(Clone, Copy)]
pub(crate) struct Finding<'a> {
    kind: &'a str,
    value: Value,
    agrees: bool,
    wanted: &'a str,
}

impl Finding<'_> {
    pub(crate) fn agrees(&self) -> bool {
        self.agrees
    }
}

impl fmt::Display for Finding<'_> {
    fn fmt<W: fmt::Write>(&self, f: &mut fmt::Formatter<W>) -> fmt::Result {
        let Finding {
            kind,
            value,
            agrees,
            wanted,
        } = *self;
        write!(f, "{kind} {value}, ")?;
        if agrees {
            write!(f, "as in the table")
        } else {
            write!(f, "but the table has {wanted}")
        }
    }
}

impl Setup {
    // A card with no rows, and masks of zero bytes.
    pub(crate) fn new(alloc: Global) -> Setup {
        Setup {
            rows: Vec::new(alloc),
            masks: [[0; 8]; 2],
        }
    }

    // What is found of a line's value. Blank lines, comments (#) and masks have none.
    pub(crate) fn finding<'a>(
        &mut self,
        alloc: Global,
        line: &'a str,
    ) -> Result<Option<Finding<'a>>> {
        let mut rest = line.split_whitespace();
        let Some(kind) = rest.next() else {
            return Ok(None);
        };
        if kind.starts_with("#") {
            return Ok(None);
        }
        if kind == "masks" {
            self.masks = [words::bytes(&mut rest)?, words::bytes(&mut rest)?];
            words::end(&mut rest)?;
            return Ok(None);
        }
        let value = self.value(kind, &mut rest)?;
        let wanted = words::next_word(&mut rest)?;
        words::end(&mut rest)?;
        let text = format!(in alloc; "{value}")?;
        Ok(Some(Finding {
            kind,
            value,
            agrees: text.as_str() == wanted,
            wanted,
        }))
    }

    // The value that a line asks for.
    fn value(&mut self, kind: &str, rest: &mut SplitWhitespace) -> Result<Value> {
        match kind {
            "encipher" => {
                let key = words::bytes(rest)?;
                Ok(Value::Block(encipher(&key, &words::bytes(rest)?)))
            }
            "row" => {
                let challenge = words::challenge(rest)?;
                let response = words::bytes(rest)?;
                Ok(Value::Number(self.enter(Row::new(challenge, response))?))
            }
            _ => {
                let asked = words::next_word(rest)?;
                let question = Question::read(kind, rest)?;
                self.answer(asked, &question)
            }
        }
    }

    // A card with the rows so far, which takes more.
    fn recording(&self) -> Result<Recording> {
        let mut recording = Recording::new();
        for row in &self.rows {
            recording.add(*row)?;
        }
        Ok(recording)
    }

    // Adds a row to the card: 0, or the number of the refusal.
    fn enter(&mut self, row: Row) -> Result<u8> {
        match self.recording()?.add(row) {
            Ok(()) => {
                self.rows.push(row)?;
                Ok(0)
            }
            Err(refusal) => Ok(u8::from(refusal)),
        }
    }

    // What the algorithm with this name answers: + stands for a layer with the first mask, ++ for one more with the second.
    fn answer(&self, asked: &str, question: &Question) -> Result<Value> {
        let [first, second] = self.masks;
        let card = self.recording()?.finish();
        match asked {
            "xtea" => Ok(question.ask_through(Layers::None, Xtea)),
            "xtea+" => Ok(question.ask_through(Layers::One(first), Xtea)),
            "xtea++" => Ok(question.ask_through(Layers::Two(first, second), Xtea)),
            "recorded" => Ok(question.ask_through(Layers::None, card)),
            "recorded+" => Ok(question.ask_through(Layers::One(first), card)),
            "recorded++" => Ok(question.ask_through(Layers::Two(first, second), card)),
            _ => bail!("no algorithm has this name"),
        }
    }
}
