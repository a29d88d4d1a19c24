// What results bring.
ghost use Rattle.std.specs.Prelude.{◌≡◌};
ghost use Rattle.exchange.specs.Results.{is_session, is_proof_session};

use apdu::{WtanParamRes, WtatInfo};

// Whether a result of getWtatParam or wtatParamEnq brings a session, and no unit.
pub(crate) fn is_session(info: &WtatInfo) -> bool
    ensures { result ≡ is_session info.now }
{
    matches!(info, WtatInfo::Session(_))
}

// Whether a result of getWtanParam or wtanParamEnq brings a session, and no response.
pub(crate) fn is_proof_session(proof: &WtanParamRes) -> bool
    ensures { result ≡ is_proof_session proof.now }
{
    matches!(proof, WtanParamRes::Session(_))
}
