//! Laws of the plain machine's runs that need the laws of the readings: how a run feeds them. Nothing stands on this crate.
//!
//! The function has no body: its contract is the law.
#![tactic(auto)]

ghost use Rattle.run_laws.specs.Laws.{RunsFeedInTurn};

/// A run feeds its readings in turn, and what the innermost one gives back, or lends to the reading that it begins, is the token that this
/// very reading was fed with last.
pub fn runs_feed_in_turn()
    ensures { RunsFeedInTurn }
{}
