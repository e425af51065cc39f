//! With how many voters a cluster is opened.

use std::marker::Model;

/// With how many voters a cluster is opened: from 1 to 7. Contracts see it as its number.
#[derive(Clone, Copy)]
pub struct VoterCount {
    count: u32,
}

impl Model for VoterCount {
    ghost use Rattle.std.specs.Prelude.{ℕ};
    ghost use Rattle.script_cluster.specs.Voters.{IsVoterCount};

    ghost Value = { ℕ };

    ghost view = { λ v. v.count };

    ghost inverse = { λ n. record { count = n } };

    ghost invariant = { λ v. IsVoterCount v.count };
}

impl VoterCount {
    ghost use Rattle.std.specs.Prelude.{◌≡◌};
    ghost use Rattle.script_cluster.specs.Voters.{IsVoterCount};

    /// This many voters, of which there may be this many.
    pub fn new(count: u32) -> VoterCount
        requires { IsVoterCount count }
        ensures { result ≡ count }
    {
        VoterCount { count }
    }

    /// How many they are.
    pub fn number(self) -> u32
        ensures number { result ≡ self }
        ensures range { IsVoterCount self }
    {
        self.count
    }
}
