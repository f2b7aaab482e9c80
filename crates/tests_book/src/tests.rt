//! Books, scripts of calls, lists of calls, and what of them is refused memory.
mod batches;
mod listed_tables;
mod lists;
mod opening;
mod plays;
mod refused_batches;
mod refused_calls;
mod refused_lists;
mod refused_opening;
mod refused_rounds;
mod rounds;
mod rows;
mod schedules;
mod script;
mod stale;
mod tables;
