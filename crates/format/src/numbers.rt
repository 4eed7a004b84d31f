// The numbers of a run as they are given: nothing is known of them yet.
use configuration::whir_parameters::WhirNumbers;

#[derive(Drop, Debug)]
pub struct RunNumbers {
    // The degree of the extension.
    pub degree: usize,

    // The numbers of the configuration.
    pub numbers: WhirNumbers,

    // Opening claims the run batches into its first sum.
    pub num_opening_claims: usize,
}
