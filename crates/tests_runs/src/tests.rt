//! Whole runs, checks and pictures.
mod checks;
mod long_logs;
mod pictures;
mod refusals;
mod runs;
