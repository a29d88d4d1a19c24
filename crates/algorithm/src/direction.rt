ghost use Rattle.std.specs.Prelude.{◌≡◌};
ghost use Rattle.algorithm.specs.Direction.{direction_number};

/// Whose proof a session key is for.
#[derive(Clone, Copy, PartialEq, Eq, Debug)]
pub enum Direction {
    /// The user's, who proves itself to the network.
    User = 1,
    /// The network's, which proves itself to the user.
    Network = 2,
}

impl From<Direction> for u8 {
    ghost from_gives = { λ direction n. n ≡ direction_number direction };

    fn from(direction: Direction) -> u8 {
        direction as u8
    }
}
