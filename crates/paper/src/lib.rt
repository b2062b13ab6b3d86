// Definitions only: the paper is specs/, and no code stands here.
#![tactic(auto)]
