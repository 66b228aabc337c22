// That pausing equals not pausing, and that the guarantee holds from any good record: laws alone.
#![tactic(auto)]
