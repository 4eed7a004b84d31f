// Fully derived WHIR protocol configuration.
ghost use Rattle.std.specs.Prelude.{◌≡◌, true};
ghost use Rattle.configuration.specs.Numbers.{numbers_of};
ghost use Rattle.configuration.specs.Verdicts.{flawless};

use crate::whir_parameters::WhirNumbers;

// A checked configuration: numbers without a fault. There is no other.
#[derive(Drop, Debug)]
pub struct WhirConfig {
    pub numbers: WhirNumbers,
    ghost checked: { flawless (numbers_of numbers) ≡ true },
}
