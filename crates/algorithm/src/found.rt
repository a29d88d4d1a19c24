// The row that answers a challenge.
ghost use Rattle.std.specs.Prelude.{◌≡◌};
ghost use Rattle.algorithm.specs.Card.{row_for};

use crate::row::{Row, challenge_key};
use directory::fetch;
use values::Challenge;

/// The first row with a challenge.
pub fn row_for(rows: &[Row], challenge: &Challenge) -> Option<Row>
    ensures { result ≡ row_for rows.now challenge.now }
{
    fetch(rows, challenge_key(challenge))
}
