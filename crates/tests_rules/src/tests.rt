//! Rules, plans, stores and searches, and what of them is refused memory.
mod guards;
mod plans;
mod random;
mod refusals;
mod refused_plans;
mod refused_store;
mod rules;
mod searches;
mod store;
mod texts;
