// No code: quotations, computed by the definitions of the model (specs/Examples), and one as long as any (specs/Longest, proofs/Longest).
// Apart from the model, since each of its must-fail edits would compute them again.
#![tactic(auto)]
