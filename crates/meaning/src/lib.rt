//! What formulas mean over endless paths of three values, and the laws of that meaning.
#![tactic(auto)]
