// No code: specs/Claims.antt lists every theorem that docs/PROOFS.md names.

#![tactic(auto)]
