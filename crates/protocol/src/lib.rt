//! What a burst is and what its calls answer and leave: definitions that the burst's contracts and the laws over whole runs share.

#![tactic(auto)]
