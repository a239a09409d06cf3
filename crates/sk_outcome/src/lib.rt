//! What a run comes to: the text that a command writes, or the first refusal. Definitions, one line a stage.
#![tactic(auto)]
