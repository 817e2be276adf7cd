// No code: names as the drawings spell them, computed by the definitions of the model (specs/Examples). Apart from the model, since each of its must-fail edits would compute them again.
#![tactic(auto)]
