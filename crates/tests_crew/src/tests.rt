//! Runs of crews, and sessions beside workers.
mod beside;
mod gates;
mod play;
mod refused;
mod runs;
mod stops;
mod threads;
mod told;
mod waiting;
mod waking;
