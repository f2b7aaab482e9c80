//! What the tests work on, and the tests by what they show.
mod beside;
mod hall;
mod over_memory;
mod racing;
mod rack;
mod reading;
mod refused;
mod sharing;
