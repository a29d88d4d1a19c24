// A challenge as a block.
ghost use Rattle.std.specs.Prelude.{◌≡◌};
ghost use Rattle.values.specs.Challenge.{IsChallenge};
ghost use Rattle.algorithm.specs.Row.{IsWhole};

use values::Challenge;

// The block of some bytes, as many as a challenge has.
fn whole_block(bytes: &[u8]) -> [u8; 8]
    requires { IsChallenge bytes.now }
    ensures value { result ≡ bytes.now }
    ensures whole { IsWhole bytes.now }
{
    *bytes.first_chunk().unwrap()
}

// The block that a challenge is.
pub(crate) fn block(challenge: &Challenge) -> [u8; 8]
    ensures value { result ≡ challenge.now }
    ensures whole { IsWhole challenge.now }
{
    whole_block(challenge.bytes())
}
