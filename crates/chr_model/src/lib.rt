//! What a run of rules over a store and its goals is, and the laws of such runs.
//!
//! This crate has no data of its own. Its `specs/` define, once for the whole server, what every contract above speaks
//! of; its functions do nothing, and the contract of each is a law about these definitions.
//!
//! - `Abstract`: the abstract step and run on a multiset of atoms (Frühwirth).
//! - `Stores`: a store, a labelled instance over it, and when a store is final.
//! - `Goals`: goal states, with tickets, plain and numbered goals, a store and the next label; quiet; erasure.
//! - `Steps`: post, activate, simplify, propagate and drop (in the manner of Lam and Sulzmann), and runs of these. A goal
//!   may be dropped by one of two versions of the condition.
//! - `Logs`: a lawful log and the state after it; what a log posts, gives, removes and fires; its strict log.
//! - `PostsFirst`: the same lawful logs with all posted atoms as plain goals from the start.
//! - `GoalRuns`: goal-based runs with tickets forgotten, from a multiset of plain goals.
//! - `Searches`: what a search for partners must have found none of.
//! - `Seats`: what each seat has made in a log.
//! - `Programs`: the instances of a program's rules.
//! - `Examples`: worked programs with their logs.
//!
//! The laws, each for every program, log and last state:
//!
//! | Law | What it says |
//! |---|---|
//! | [`quiet_is_final`](laws::quiet_is_final) | where no goal is open, no rule applies |
//! | [`firings_are_a_run`](laws::firings_are_a_run) | with labels forgotten, the firings are an abstract run |
//! | [`removed_at_most_once`](laws::removed_at_most_once) | no label is removed twice |
//! | [`given_in_order`](laws::given_in_order) | the labels given are 1, 2, .. in order |
//! | [`stores_have_given_labels`](laws::stores_have_given_labels) | the store has each label once, and only labels that were given |
//! | [`last_is_fixed`](laws::last_is_fixed) | a lawful log has one last state |
//! | [`one_event_more`](laws::one_event_more) | a lawful log and a step after it are a lawful log |
//! | [`posts_may_come_first`](laws::posts_may_come_first) | the same with all posted atoms as plain goals from the start |
//! | [`log_is_a_goal_run`](laws::log_is_a_goal_run) | a lawful log is a goal-based run from all that it posts |
//! | [`step_beside`](laws::step_beside) | a step beside further atoms |
//! | [`firing_is_one_of_two`](laws::firing_is_one_of_two) | a firing doesn't both simplify and propagate |
//! | [`some_label_is_a_goal`](laws::some_label_is_a_goal) | each labelled instance has a label that is a numbered goal |
//! | [`older_instances_were_there`](laws::older_instances_were_there) | a run adds and revives no instance of labels given before |
//! | [`search_allows_a_drop`](laws::search_allows_a_drop) | what a search must have found none of, for version one |
//! | [`older_search_allows_a_drop`](laws::older_search_allows_a_drop) | and for version two |
//! | [`strict_is_lawful`](laws::strict_is_lawful) | drops after the other events are drops of version one, if all is quiet |
//! | [`accounts_add_up`](laws::accounts_add_up) | what a seat has made in two parts of a log |
//! | [`worked_examples`](examples::worked_examples) | worked logs are lawful, and changed ones aren't |
//!
//! Nothing is said of termination, confluence or fairness.
#![tactic(auto)]

mod examples;
pub mod laws;
