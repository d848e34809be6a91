//! Worked examples of the log, proved of the definitions by computation.
#![tactic(auto)]

ghost use Rattle.std.specs.Prelude.{◌≡◌};
ghost use Rattle.cases.specs.Examples.{Examples};

/// Says that the worked examples stand, and how many they are.
pub fn examples() -> u8
    ensures stand { Examples }
    ensures count { result ≡ 13 }
{
    13
}
