//! Sample readings of the definitions, which the checker computes.
#![tactic(auto)]

ghost use Rattle.samples.specs.Readings.{SampleReadings};
ghost use Rattle.samples.specs.Runs.{TinyRuns};
ghost use Rattle.samples.specs.Instances.{Instances};

// Numbers that the definitions come to.
pub fn sample_readings()
    ensures { SampleReadings }
{}

// Small verifications, answered as the original Rust answers them.
pub fn tiny_runs()
    ensures { TinyRuns }
{}

// Instances of both halves of the theorem: an honest proof, a wrong yes with its accident, a damaged proof.
pub fn instances_stand()
    ensures { Instances }
{}
