//! Whole scripts that the definitions play to their text, compared with the outputs of worked runs.
#![tactic(auto)]
