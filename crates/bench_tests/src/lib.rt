//! Tests of `run_bench` and `device_bench`, the helpers of other tests. The helpers must report every kind of wrong result.
#![tactic(auto)]

#[cfg(test)]
mod devices;
#[cfg(test)]
mod runs;
